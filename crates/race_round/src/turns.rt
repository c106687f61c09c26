//! The turns of a round.
ghost use Rattle.std.specs.Prelude.{◌≡◌, ◌<◌, ℕ, All, length, slice_index_or};
ghost use Rattle.race_round.specs.Nodes.{Went, seat_of};
ghost use Rattle.race_round.specs.Seats.{IsSeat};

use crate::moves::move_all;
use crate::nodes::RaceNode;
use crate::takes::take_all;
use std::alloc::Global;
use std::marker::{Send, Sync};
use std::thread;
use std::thread::Threads;
use str_outer::{Clock, Gate};

/// The turn of a node: it takes what others sent, and then its sessions move.
fn turn<C: Clock, G: Gate>(n: &mut RaceNode<C, G>)
    requires { IsSeat (seat_of n.old) }
    ensures { Went C.given n.old n.new }
{
    n.gate.before(n.node.id());
    n.wanting = false;
    if !take_all(n) {
        return;
    }
    move_all(n);
}

/// A turn of each node, each in a thread of its own where one can be made.
pub(crate) fn turns<C: Clock + Send, G: Gate + Send, R: Threads + Sync>(
    rt: &R,
    nodes: &mut [RaceNode<C, G>],
)
    requires { All (λ n. IsSeat (seat_of n)) nodes.old }
    ensures { (i : ℕ) (d : _) → i < length nodes.old → Went C.given (slice_index_or nodes.old i d) (slice_index_or nodes.new i d) }
{
    thread::for_each_mut(
        rt,
        nodes,
        8,
        &|_, n: &mut RaceNode<C, G>|
            requires { IsSeat (seat_of n.now) }
            ensures { Went C.given n.entry.now n.exit.now }
        { turn(n) },
    );
}
