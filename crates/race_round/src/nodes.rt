//! A node of a race.
ghost use Rattle.std.specs.Prelude.{◌≡◌, false, [], IfOk};
ghost use Rattle.str_model.specs.Runs.{opening_view};

use lamport_log::NodeLog;
use node_core::{Node, Outbox};
use ring_links::NodeEnds;
use std::alloc::Global;

/// A node with its ends, its log, its stamp, its clock and its gate. `wanting` says that a growth was refused in the last round.
#[derive(Drop)]
pub struct RaceNode<C, G> {
    pub node: Node,
    pub ends: NodeEnds,
    pub log: NodeLog,
    pub stamp: u64,
    pub clock: C,
    pub gate: G,
    pub wanting: bool,
    pub out: Outbox,
}

impl<C, G> RaceNode<C, G> {
    /// A node that has made no step.
    pub fn new(alloc: Global, node: Node, ends: NodeEnds, clock: C, gate: G) -> RaceNode<C, G>
        ensures node { result.node ≡ node }
        ensures ends { result.ends ≡ ends }
        ensures log { result.log.node ≡ node.id }
        ensures entries { result.log.entries ≡ [] }
        ensures messages { result.log.messages ≡ [] }
        ensures answers { result.log.released ≡ [] }
        ensures stamp { result.stamp ≡ 0 }
        ensures clock { result.clock ≡ clock }
        ensures wanting { result.wanting ≡ false }
    {
        let id = node.id();
        RaceNode {
            node,
            ends,
            log: NodeLog::new(alloc, id),
            stamp: 0,
            clock,
            gate,
            wanting: false,
            out: Outbox::new(alloc),
        }
    }
}
