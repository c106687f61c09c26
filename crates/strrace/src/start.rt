//! The nodes of a race before its first round.
ghost use Rattle.race_round.specs.Nodes.{seats_of};
ghost use Rattle.race_round.specs.Races.{AreFresh};
ghost use Rattle.std.specs.Prelude.{◌≡◌, IfOk, length, true};
ghost use Rattle.str_model.specs.Runs.{opening_view};
ghost use Rattle.str_model.specs.Strange.{has_node};
ghost use Rattle.strrace.specs.Starting.{AreOfScene};

use node_core::Node;
use race_round::RaceNode;
use ring_links::links;
use std::alloc::{AllocError, Global};
use str_base::NodeId;
use str_scene::Scene;

/// The nodes of a scene at its opening, each with its ends, its clock and its gate, which are those at its place in the two lists.
pub(crate) fn fresh_nodes<C: Drop, G: Drop>(
    alloc: Global,
    scene: &Scene,
    mut clocks: Vec<C>,
    mut gates: Vec<G>,
) -> Result<Vec<RaceNode<C, G>>, AllocError>
    requires clocks { length clocks.items ≡ 8 }
    requires gates { length gates.items ≡ 8 }
    ensures fresh { IfOk result (λ nodes. AreFresh scene.now (seats_of nodes.items)) }
{
    let mut all = links(alloc, scene.nodes())?;
    let mut nodes = Vec::new(alloc);
    for place in 0..scene.nodes() {
        let node = next_node(alloc, scene, &nodes, NodeId(place + 1))?;
        let ends = all.remove(0);
        let fresh = RaceNode::new(alloc, node, ends, clocks.remove(0), gates.remove(0));
        nodes.push(fresh)?;
    }
    Ok(nodes)
}

/// The next node at the opening. Where there are nodes already, it shares their copy of the scene.
fn next_node<C, G>(
    alloc: Global,
    scene: &Scene,
    nodes: &[RaceNode<C, G>],
    id: NodeId,
) -> Result<Node, AllocError>
    requires exists { has_node (record { scene = scene.now; node = id }) id ≡ true }
    requires same { AreOfScene scene.now nodes.now }
    ensures scene { IfOk result (λ n. n.scene ≡ scene.now) }
    ensures id { IfOk result (λ n. n.id ≡ id) }
    ensures view { IfOk result (λ n. n.view ≡ opening_view scene.now) }
{
    match nodes.first() {
        Some(first) => first.node.beside(alloc, id),
        None => Node::new(alloc, id, scene),
    }
}
