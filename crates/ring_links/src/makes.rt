//! All ends of the nodes of a scene.
ghost use Rattle.std.specs.Prelude.{◌≡◌, IfOk, OnOk, [], length};
ghost use Rattle.ring_links.specs.Ends.{AreEnds};
ghost use Rattle.ring_links.specs.Making.{AreJoined};

use crate::ends::NodeEnds;
use std::alloc::{AllocError, Global};
use str_base::NodeId;

// Makes the rings between a new node and each of those before it.
fn join_all(
    alloc: Global,
    before: &mut Vec<NodeEnds>,
    later: &mut NodeEnds,
) -> Result<(), AllocError>
    requires { later.old.links ≡ [] }
    ensures node { later.new.node ≡ later.old.node }
    ensures joined { OnOk result
        (AreJoined (length before.old.items) before.old.items before.new.items later.new) }
{
    for place in 0..before.len() {
        before[place].join(alloc, later)?;
    }
    Ok(())
}

/// The ends of the nodes from 1 to `nodes`, with one ring for each ordered pair of nodes. All their
/// lists are empty.
///
/// # Errors
///
/// Memory was wanting.
pub fn links(alloc: Global, nodes: u8) -> Result<Vec<NodeEnds>, AllocError>
    ensures { IfOk result (λ all. AreEnds all.items nodes) }
{
    let mut all = Vec::new(alloc);
    for before in 0..nodes {
        let mut later = NodeEnds::alone(alloc, NodeId(before + 1));
        join_all(alloc, &mut all, &mut later)?;
        all.push(later)?;
    }
    Ok(all)
}
