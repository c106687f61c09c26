//! The nodes of a cluster.
ghost use Rattle.cluster_run.specs.Clusters.{ArePlaced, HasRoom, IsReady, PrunedAt, SameNodes, StepsAt, views_of};
ghost use Rattle.node_core.specs.Working.{SameLists};
ghost use Rattle.std.specs.List.{count_by, sum_by};
ghost use Rattle.std.specs.Prelude.{◌≡◌, ◌<◌, ◌≤◌, ◌+◌, ◌-◌, ◌^◌, IfOk, IfSome, IsNone, None, Some, length, min, not, replicate, slice_get, true};
ghost use Rattle.str_model.specs.Pruning.{low};
ghost use Rattle.str_model.specs.Runs.{opening_view};
ghost use Rattle.str_model.specs.Strange.{has_node};
ghost use Rattle.str_model.specs.Views.{View, is_decided};
ghost use Rattle.str_scene.specs.SceneLimits.{IsScene};
ghost use Rattle.str_scene.specs.Scenes.{nth};

use node_core::{Node, Outbox};
use std::alloc::{AllocError, Global};
use str_base::{NodeId, Ts};
use str_model::Input;
use str_scene::Scene;

/// The nodes of a scene at the beginning.
pub(crate) fn opening_nodes(alloc: Global, scene: &Scene) -> Result<Vec<Node>, AllocError>
    ensures views { IfOk result (λ ns. views_of ns.items ≡ replicate scene.now.nodes (opening_view scene.now)) }
    ensures placed { IfOk result (λ ns. ArePlaced scene.now ns.items) }
    ensures limits { IsScene scene.now }
{
    let mut nodes = Vec::new(alloc);
    for i in 0..scene.nodes() {
        let node = next_node(alloc, scene, &nodes, NodeId(i + 1))?;
        nodes.push(node)?;
    }
    Ok(nodes)
}

/// The next node at the beginning. Where there are nodes already, it shares their copy of the scene.
fn next_node(alloc: Global, scene: &Scene, nodes: &[Node], id: NodeId) -> Result<Node, AllocError>
    requires exists { has_node (record { scene = scene.now; node = id }) id ≡ true }
    requires placed { ArePlaced scene.now nodes.now }
    ensures scene { IfOk result (λ n. n.scene ≡ scene.now) }
    ensures id { IfOk result (λ n. n.id ≡ id) }
    ensures view { IfOk result (λ n. n.view ≡ opening_view scene.now) }
{
    match nodes.first() {
        Some(first) => first.beside(alloc, id),
        None => Node::new(alloc, id, scene),
    }
}

/// The place of a node, counted from 0. None where there is no such node.
pub(crate) fn place_of(nodes: &Vec<Node>, node: NodeId) -> Option<usize>
    ensures none { IsNone result → nth nodes.now.items node.0 ≡ None }
    ensures some { IfSome result (λ place. (node.0 ≡ place + 1) × (place < length nodes.now.items)) }
{
    let number = node.0 as usize;
    if number == 0 || number > nodes.len() {
        return None;
    }
    Some(number - 1)
}

/// The place at which a node stands, counted from 0; 0 for the number 0 too.
pub(crate) fn list_place(node: NodeId) -> usize
    ensures { result ≡ node.0 - 1 }
{
    (node.0 as usize).saturating_sub(1)
}

/// Makes room for the step of a node on this input, if it is there, and gives a number that is as great as the
/// step's need at least. The views and the lists stay, also after an error.
pub(crate) fn ready_at(
    nodes: &mut Vec<Node>,
    node: NodeId,
    input: &Input,
    out: &mut Outbox,
) -> Result<usize, AllocError>
    ensures need { IfOk result (λ room. HasRoom room input.now (nth nodes.new.items node.0)) }
    ensures room { IfOk result (λ room. IsReady input.now (nth nodes.new.items node.0)) }
    ensures space { IfOk result (λ room. HasRoom out.new.space input.now (nth nodes.new.items node.0)) }
    ensures nodes { SameNodes nodes.old.items nodes.new.items }
    ensures lists { SameLists out.old out.new }
{
    let Some(place) = place_of(nodes, node) else {
        return Ok(0);
    };
    let member = &mut nodes[place];
    member.ready(input, out)
}

/// The step of a node on an input. It answers false exactly where there is no such node or the input is idle, and
/// then nothing changes. It takes no memory.
pub(crate) fn step_at(nodes: &mut Vec<Node>, node: NodeId, input: &Input, out: &mut Outbox) -> bool
    requires room { IsReady input.now (nth nodes.old.items node.0) }
    requires space { HasRoom out.old.space input.now (nth nodes.old.items node.0) }
    ensures { StepsAt input.now nodes.old.items nodes.new.items (node.0 - 1) (nth nodes.old.items node.0) out.old out.new result }
{
    let Some(place) = place_of(nodes, node) else {
        return false;
    };
    let member = &mut nodes[place];
    member.step(input, out)
}

/// How many transactions have begun.
pub(crate) fn begun_among(nodes: &[Node]) -> u32
    requires { sum_by (λ n. length n.view.own) nodes.now < 2 ^ 32 }
    ensures { result ≡ sum_by (λ n. length n.view.own) nodes.now }
{
    let mut total = 0;
    for node in nodes {
        total += node.begun();
    }
    total
}

/// How many transactions have begun and are undecided.
pub(crate) fn held_among(nodes: &[Node]) -> u32
    requires { sum_by (λ n. count_by (λ x. not (is_decided x.phase)) n.view.own) nodes.now < 2 ^ 32 }
    ensures { result ≡ sum_by (λ n. count_by (λ x. not (is_decided x.phase)) n.view.own) nodes.now }
{
    let mut total = 0;
    for node in nodes {
        total += node.held();
    }
    total
}

/// The low mark of the node at a place.
pub(crate) fn low_at(nodes: &Vec<Node>, place: usize) -> Ts
    requires { place < length nodes.now.items }
    ensures { (v : View) → slice_get (views_of nodes.now.items) place ≡ Some v → result.0 ≡ low v }
{
    let member = &nodes[place];
    member.low()
}

/// The node at a place prunes at a mark.
pub(crate) fn prune_at(nodes: &mut Vec<Node>, place: usize, below: Ts)
    requires { place < length nodes.old.items }
    ensures { PrunedAt below.0 place nodes.old.items nodes.new.items }
{
    let member = &mut nodes[place];
    member.prune(below);
}

/// How many versions the nodes have; the greatest `u64` where there are more.
pub(crate) fn kept_among(nodes: &[Node]) -> u64
    ensures { result ≡ min (sum_by (λ n. length n.view.versions) nodes.now) (2 ^ 64 - 1) }
{
    let mut total = 0u64;
    for node in nodes {
        total = total.saturating_add(node.versions());
    }
    total
}
