//! Rounds of a race.
ghost use Rattle.std.specs.List.{list_any};
ghost use Rattle.std.specs.Prelude.{◌≡◌, OnOk, IsTrue};
ghost use Rattle.race_round.specs.Nodes.{AreReadings, CanGoOn, HasGoneOn, StillHolds};

use crate::nodes::RaceNode;
use crate::settles::settle_all;
use crate::turns::turns;
use std::alloc::AllocError;
use std::marker::{Send, Sync};
use std::thread::Threads;
use str_outer::{Clock, Gate};

/// Whether a growth of a node was refused.
fn wants<C, G>(nodes: &[RaceNode<C, G>]) -> bool
    ensures { result ≡ list_any (λ n. n.wanting) nodes.now }
{
    for node in nodes {
        if node.wanting {
            return true;
        }
    }
    false
}

/// One round: a turn of each node, all at once, and then every two nodes' ends are settled, also where a growth was refused. It answers false where
/// one was.
fn round<C: Clock + Send, G: Gate + Send, R: Threads + Sync>(
    rt: &R,
    nodes: &mut [RaceNode<C, G>],
) -> bool
    requires race { CanGoOn 1 nodes.old }
    ensures goes_on { IsTrue result → HasGoneOn 1 nodes.old nodes.new }
    ensures holds { StillHolds 1 nodes.old nodes.new }
    ensures readings { IsTrue result → AreReadings C.given nodes.old nodes.new }
{
    turns(rt, nodes);
    if !settle_all(nodes) {
        return false;
    }
    !wants(nodes)
}

/// So many rounds of these nodes.
fn all_rounds<C: Clock + Send, G: Gate + Send, R: Threads + Sync>(
    rt: &R,
    nodes: &mut [RaceNode<C, G>],
    count: u32,
) -> Result<(), AllocError>
    requires race { CanGoOn count nodes.old }
    ensures rounds { OnOk result (HasGoneOn count nodes.old nodes.new) }
    ensures replays { StillHolds count nodes.old nodes.new }
    ensures readings { OnOk result (AreReadings C.given nodes.old nodes.new) }
{
    for _round in 0..count {
        if !round(rt, nodes) {
            return Err(AllocError);
        }
    }
    Ok(())
}

/// So many rounds. In each, every node makes a turn, all at once: it passes its gate, takes 8 messages of each other node at most, and each of its
/// sessions that can move does so with a reading of its clock. Then the ends of every two nodes are settled. No node comes to the last stamp.
///
/// # Errors
///
/// Memory was wanting. Each node is still what its log replays to, and the logs are closed.
pub fn rounds<C: Clock + Send, G: Gate + Send, R: Threads + Sync>(
    rt: &R,
    nodes: &mut Vec<RaceNode<C, G>>,
    count: u32,
) -> Result<(), AllocError>
    requires race { CanGoOn count nodes.old.items }
    ensures rounds { OnOk result (HasGoneOn count nodes.old.items nodes.new.items) }
    ensures replays { StillHolds count nodes.old.items nodes.new.items }
    ensures readings { OnOk result (AreReadings C.given nodes.old.items nodes.new.items) }
{
    all_rounds(rt, nodes.as_mut_slice(), count)
}
