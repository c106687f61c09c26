//! Nodes with the links of two lists, and how a node is linked into a list and taken out of it.
ghost use Rattle.std.specs.Prelude.{◌≡◌, ◌≢◌, ℕ, IfSome, Some, false, true};
ghost use Rattle.slab.specs.Slab.{ContainsKey, Updates, get, slab_len};
ghost use Rattle.link_arena.specs.Rows.{IsPlace, grown, is_in, left_of, over, put_before, shrunk, taken};
ghost use Rattle.link_arena.specs.Sides.{HasRow, SameOutside, SameSide, after_at, before_at, link_of, other, relinked, row_of, version_at};

use slab::Slab;
use str_base::Version;

/// The place of a version in an arena.
#[derive(Clone, Copy, Debug, Default, PartialEq, Eq)]
pub struct Slot(pub usize);

/// The slots before and after a node in a list.
#[derive(Clone, Copy, Debug, Default, PartialEq, Eq)]
pub struct Link {
    pub before: Option<usize>,
    pub after: Option<usize>,
}

/// The first and the last slot of a list.
#[derive(Clone, Copy, Debug, Default, PartialEq, Eq)]
pub struct Ends {
    pub first: usize,
    pub last: usize,
}

/// Which of a node's two lists is meant.
#[derive(Clone, Copy, Debug, Default, PartialEq, Eq)]
pub enum Side {
    /// That of its key.
    #[default]
    ByKey,
    /// That of its transaction.
    ByTx,
}

/// A version, and its place in the lists of its key and of its transaction.
#[derive(Clone, Copy, Debug, Default, PartialEq, Eq)]
pub struct Node {
    pub version: Version,
    pub in_key: Link,
    pub in_tx: Link,
}

/// The links of a node on a side.
pub fn side_link(node: &Node, side: Side) -> Link
    ensures { result ≡ link_of side node.now }
{
    match side {
        Side::ByKey => node.in_key,
        Side::ByTx => node.in_tx,
    }
}

/// The node with other links on a side.
fn with_link(node: Node, side: Side, link: Link) -> Node
    ensures { result ≡ relinked side link node }
{
    match side {
        Side::ByKey => Node {
            in_key: link,
            ..node
        },
        Side::ByTx => Node {
            in_tx: link,
            ..node
        },
    }
}

/// The node of a slot.
pub fn read(nodes: &Slab<Node>, slot: usize) -> Node
    requires { ContainsKey nodes.now slot }
    ensures { get nodes.now slot ≡ Some result }
{
    match nodes.get(slot) {
        Some(node) => *node,
        None => unreachable!(),
    }
}

/// Puts another node in a slot.
pub fn write(nodes: &mut Slab<Node>, slot: usize, node: Node)
    requires { ContainsKey nodes.old slot }
    ensures updates { Updates nodes.old nodes.new slot (Some node) }
    ensures len { slab_len nodes.new ≡ slab_len nodes.old }
    ensures capacity { nodes.new.capacity ≡ nodes.old.capacity }
{
    if let Some(place) = nodes.get_mut(slot) {
        *place = node;
    }
}

/// Lets a slot, if one is named, lead on to another.
fn set_after(nodes: &mut Slab<Node>, side: Side, slot: Option<usize>, after: Option<usize>)
    requires { IfSome slot (λ s. ContainsKey nodes.old s) }
    ensures after { (u : ℕ) → after_at side nodes.new u ≡ over slot after (after_at side nodes.old) u }
    ensures before { (u : ℕ) → before_at side nodes.new u ≡ before_at side nodes.old u }
    ensures version { (u : ℕ) → version_at nodes.new u ≡ version_at nodes.old u }
    ensures beside { SameSide (other side) nodes.old nodes.new }
    ensures len { slab_len nodes.new ≡ slab_len nodes.old }
    ensures capacity { nodes.new.capacity ≡ nodes.old.capacity }
{
    if let Some(slot) = slot {
        let node = read(nodes, slot);
        let before = side_link(&node, side).before;
        write(nodes, slot, with_link(node, side, Link { before, after }));
    }
}

/// Lets a slot, if one is named, lead back to another.
fn set_before(nodes: &mut Slab<Node>, side: Side, slot: Option<usize>, before: Option<usize>)
    requires { IfSome slot (λ s. ContainsKey nodes.old s) }
    ensures after { (u : ℕ) → after_at side nodes.new u ≡ after_at side nodes.old u }
    ensures before { (u : ℕ) → before_at side nodes.new u ≡ over slot before (before_at side nodes.old) u }
    ensures version { (u : ℕ) → version_at nodes.new u ≡ version_at nodes.old u }
    ensures beside { SameSide (other side) nodes.old nodes.new }
    ensures len { slab_len nodes.new ≡ slab_len nodes.old }
    ensures capacity { nodes.new.capacity ≡ nodes.old.capacity }
{
    if let Some(slot) = slot {
        let node = read(nodes, slot);
        let after = side_link(&node, side).after;
        write(nodes, slot, with_link(node, side, Link { before, after }));
    }
}

/// Ties two neighbours: each that is there leads to the other, or to nothing.
fn tie(nodes: &mut Slab<Node>, side: Side, left: Option<usize>, right: Option<usize>)
    requires left { IfSome left (λ s. ContainsKey nodes.old s) }
    requires right { IfSome right (λ s. ContainsKey nodes.old s) }
    ensures after { (u : ℕ) → after_at side nodes.new u ≡ over left right (after_at side nodes.old) u }
    ensures before { (u : ℕ) → before_at side nodes.new u ≡ over right left (before_at side nodes.old) u }
    ensures version { (u : ℕ) → version_at nodes.new u ≡ version_at nodes.old u }
    ensures beside { SameSide (other side) nodes.old nodes.new }
    ensures len { slab_len nodes.new ≡ slab_len nodes.old }
    ensures capacity { nodes.new.capacity ≡ nodes.old.capacity }
{
    set_after(nodes, side, left, right);
    set_before(nodes, side, right, left);
}

/// The slot before the place of a new one, which is before `next` or at the end.
fn slot_before(
    nodes: &Slab<Node>,
    side: Side,
    ends: Option<Ends>,
    next: Option<usize>,
) -> Option<usize>
    requires { IfSome next (λ s. ContainsKey nodes.now s) }
    ensures { result ≡ left_of (before_at side nodes.now) ends next }
{
    match next {
        Some(next) => side_link(&read(nodes, next), side).before,
        None => match ends {
            Some(ends) => Some(ends.last),
            None => None,
        },
    }
}

/// The ends of a list with a slot more, between these two.
fn with_more(ends: Option<Ends>, before: Option<usize>, slot: usize, next: Option<usize>) -> Ends
    ensures { result ≡ grown ends before slot next }
{
    match ends {
        Some(ends) => Ends {
            first: if before.is_none() { slot } else { ends.first },
            last: if next.is_none() { slot } else { ends.last },
        },
        None => Ends {
            first: slot,
            last: slot,
        },
    }
}

/// The ends of a list with the slot between these two taken out.
fn with_less(ends: Option<Ends>, before: Option<usize>, next: Option<usize>) -> Option<Ends>
    ensures { result ≡ shrunk ends before next }
{
    let ends = ends?;
    match (before, next) {
        (None, None) => None,
        (None, Some(first)) => Some(Ends {
            first,
            last: ends.last,
        }),
        (Some(last), None) => Some(Ends {
            first: ends.first,
            last,
        }),
        (Some(_), Some(_)) => Some(ends),
    }
}

/// Links a slot into a list that does not have it, before another or at the end.
pub fn link_in(
    nodes: &mut Slab<Node>,
    side: Side,
    ends: Option<Ends>,
    slot: usize,
    next: Option<usize>,
) -> Ends
    requires row { HasRow side nodes.old ends (row_of side nodes.old ends) }
    requires there { (u : ℕ) → is_in u (row_of side nodes.old ends) ≡ true → ContainsKey nodes.old u }
    requires slot { ContainsKey nodes.old slot }
    requires apart { is_in slot (row_of side nodes.old ends) ≡ false }
    requires place { IsPlace next (row_of side nodes.old ends) }
    ensures row { HasRow side nodes.new (Some result) (put_before next slot (row_of side nodes.old ends)) }
    ensures outside { (u : ℕ) → is_in u (row_of side nodes.old ends) ≡ false → u ≢ slot → SameOutside side nodes.old nodes.new u }
    ensures version { (u : ℕ) → version_at nodes.new u ≡ version_at nodes.old u }
    ensures beside { SameSide (other side) nodes.old nodes.new }
    ensures len { slab_len nodes.new ≡ slab_len nodes.old }
    ensures capacity { nodes.new.capacity ≡ nodes.old.capacity }
{
    let before = slot_before(nodes, side, ends, next);
    tie(nodes, side, before, Some(slot));
    tie(nodes, side, Some(slot), next);
    with_more(ends, before, slot, next)
}

/// Takes a slot out of its list.
pub fn take_out(nodes: &mut Slab<Node>, side: Side, ends: Option<Ends>, slot: usize) -> Option<Ends>
    requires row { HasRow side nodes.old ends (row_of side nodes.old ends) }
    requires there { (u : ℕ) → is_in u (row_of side nodes.old ends) ≡ true → ContainsKey nodes.old u }
    requires slot { is_in slot (row_of side nodes.old ends) ≡ true }
    ensures row { HasRow side nodes.new result (taken slot (row_of side nodes.old ends)) }
    ensures outside { (u : ℕ) → is_in u (row_of side nodes.old ends) ≡ false → SameOutside side nodes.old nodes.new u }
    ensures version { (u : ℕ) → version_at nodes.new u ≡ version_at nodes.old u }
    ensures beside { SameSide (other side) nodes.old nodes.new }
    ensures len { slab_len nodes.new ≡ slab_len nodes.old }
    ensures capacity { nodes.new.capacity ≡ nodes.old.capacity }
{
    let links = side_link(&read(nodes, slot), side);
    tie(nodes, side, links.before, links.after);
    with_less(ends, links.before, links.after)
}
