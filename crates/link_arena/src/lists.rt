//! All lists of one kind: a slot is entered into the list of its name, and leaves it.
ghost use Rattle.std.specs.Prelude.{◌≡◌, ◌≢◌, ◌≤◌, ◌<◌, ◌+◌, ℕ, IsNone, IsSome, None, Some, true, vec_capacity, vec_len};
ghost use Rattle.slab.specs.Slab.{slab_len};
ghost use Rattle.link_arena.specs.HeadLists.{lookup};
ghost use Rattle.link_arena.specs.OneSide.{OnSide, is_named, row_at};
ghost use Rattle.link_arena.specs.Rows.{IsPlace, put_before, taken};
ghost use Rattle.link_arena.specs.Sides.{SameSide, other, version_at};

use crate::heads::{Head, Name, find, renew, set};
use crate::nodes::{Node, Side, link_in, take_out};
use slab::Slab;

/// Enters a slot that is out of all lists into the list of its name, before another or at the end.
pub fn enter<N: Name>(
    nodes: &mut Slab<Node>,
    heads: &mut Vec<Head<N>>,
    side: Side,
    name: N,
    slot: usize,
    next: Option<usize>,
)
    requires side { OnSide N.below N.names side nodes.old heads.old.items (Some slot) }
    requires named { is_named N.names name (version_at nodes.old slot) ≡ true }
    requires place { IsPlace next (row_at N.below side nodes.old heads.old.items name) }
    requires room { IsNone (lookup N.below name heads.old.items) → vec_len heads.old < vec_capacity heads.old }
    ensures side { OnSide N.below N.names side nodes.new heads.new.items None }
    ensures row { row_at N.below side nodes.new heads.new.items name ≡ put_before next slot (row_at N.below side nodes.old heads.old.items name) }
    ensures others { (o : N) → o ≢ name → row_at N.below side nodes.new heads.new.items o ≡ row_at N.below side nodes.old heads.old.items o }
    ensures version { (u : ℕ) → version_at nodes.new u ≡ version_at nodes.old u }
    ensures beside { SameSide (other side) nodes.old nodes.new }
    ensures len { slab_len nodes.new ≡ slab_len nodes.old }
    ensures capacity { nodes.new.capacity ≡ nodes.old.capacity }
    ensures heads_len { vec_len heads.new ≤ vec_len heads.old + 1 }
    ensures known { IsSome (lookup N.below name heads.old.items) → vec_len heads.new ≡ vec_len heads.old }
    ensures heads_capacity { vec_capacity heads.old ≤ vec_capacity heads.new }
{
    let was = find(heads, name);
    let ends = link_in(nodes, side, was, slot, next);
    set(heads, name, ends);
}

/// Takes a slot out of the list of its name.
pub fn leave<N: Name>(
    nodes: &mut Slab<Node>,
    heads: &mut Vec<Head<N>>,
    side: Side,
    name: N,
    slot: usize,
)
    requires side { OnSide N.below N.names side nodes.old heads.old.items None }
    requires named { is_named N.names name (version_at nodes.old slot) ≡ true }
    ensures side { OnSide N.below N.names side nodes.new heads.new.items (Some slot) }
    ensures row { row_at N.below side nodes.new heads.new.items name ≡ taken slot (row_at N.below side nodes.old heads.old.items name) }
    ensures others { (o : N) → o ≢ name → row_at N.below side nodes.new heads.new.items o ≡ row_at N.below side nodes.old heads.old.items o }
    ensures version { (u : ℕ) → version_at nodes.new u ≡ version_at nodes.old u }
    ensures beside { SameSide (other side) nodes.old nodes.new }
    ensures len { slab_len nodes.new ≡ slab_len nodes.old }
    ensures capacity { nodes.new.capacity ≡ nodes.old.capacity }
    ensures heads_len { vec_len heads.new ≤ vec_len heads.old }
    ensures gone { IsNone (lookup N.below name heads.new.items) → vec_len heads.new + 1 ≡ vec_len heads.old }
    ensures heads_capacity { vec_capacity heads.old ≤ vec_capacity heads.new }
{
    let was = find(heads, name);
    let ends = take_out(nodes, side, was, slot);
    renew(heads, name, ends);
}
