//! A race: rounds of nodes in threads, and the cluster that goes on from them.
ghost use Rattle.cluster_run.specs.Clusters.{ArePlaced, views_of};
ghost use Rattle.lamport_log.specs.Closed.{Closed};
ghost use Rattle.lamport_log.specs.Replays.{AllReplay, AreLogs};
ghost use Rattle.spsi_laws.specs.Laws.Ends.{Ended};
ghost use Rattle.std.specs.Prelude.{◌≡◌, ◌≤◌, IfOk, length, map};
ghost use Rattle.str_model.specs.Runs.{run};
ghost use Rattle.strrace.specs.RaceRuns.{IsRaced, merged_events};

use crate::start::fresh_nodes;
use cluster_run::Cluster;
use lamport_log::{NodeLog, merge};
use node_core::Node;
use race_round::{RaceNode, rounds};
use std::alloc::{AllocError, Global};
use std::marker::{Send, Sync};
use std::thread::Threads;
use str_outer::{Clock, Gate};
use str_scene::Scene;

/// Makes so many rounds of a scene's nodes, each in a thread of its own where one can be made, merges their logs, and drains the cluster that goes
/// on from them. The node of a number uses the clock and the gate at its place. The error is want of memory.
pub(crate) fn race<C: Clock + Send + Drop, G: Gate + Send + Drop, R: Threads + Sync>(
    rt: &R,
    alloc: Global,
    scene: Scene,
    count: u32,
    clocks: Vec<C>,
    gates: Vec<G>,
) -> Result<Cluster, AllocError>
    requires clocks { length clocks.items ≡ 8 }
    requires gates { length gates.items ≡ 8 }
    requires count { count ≤ 256 }
    ensures scene { IfOk result (λ c. c.scene ≡ scene) }
    ensures raced { IfOk result (λ c. IsRaced scene count c.world) }
    ensures ended { IfOk result (λ c. Ended c.scene c.world) }
{
    let mut nodes = fresh_nodes(alloc, &scene, clocks, gates)?;
    rounds(rt, &mut nodes, count)?;
    let (nodes, logs) = parted(alloc, nodes)?;
    let mut cluster = merged_cluster(alloc, scene, nodes, &logs)?;
    cluster.drain()?;
    Ok(cluster)
}

/// The nodes of a race by themselves, and their logs. The error is want of memory.
fn parted<C: Drop, G: Drop>(
    alloc: Global,
    nodes: Vec<RaceNode<C, G>>,
) -> Result<(Vec<Node>, Vec<NodeLog>), AllocError>
    ensures nodes { IfOk result (λ p. p.0.items ≡ map (λ n. n.node) nodes.items) }
    ensures logs { IfOk result (λ p. p.1.items ≡ map (λ n. n.log) nodes.items) }
{
    let mut members = Vec::new(alloc);
    let mut logs = Vec::new(alloc);
    for node in nodes {
        let RaceNode { node, log, .. } = node;
        members.push(node)?;
        logs.push(log)?;
    }
    Ok((members, logs))
}

/// The cluster of these nodes after what their logs tell, which is the run of the merge. The error is want of memory.
fn merged_cluster(
    alloc: Global,
    scene: Scene,
    nodes: Vec<Node>,
    logs: &Vec<NodeLog>,
) -> Result<Cluster, AllocError>
    requires placed { ArePlaced scene nodes.items }
    requires are { AreLogs scene logs.now.items }
    requires replay { AllReplay scene logs.now.items (views_of nodes.items) }
    requires closed { Closed logs.now.items }
    ensures scene { IfOk result (λ c. c.scene ≡ scene) }
    ensures world { IfOk result (λ c. c.world ≡ run scene (merged_events logs.now.items)) }
{
    let merged = merge(alloc, &scene, logs)?;
    Cluster::resume(
        scene,
        nodes,
        merged.sent,
        merged.delivered,
        merged.journal,
        merged.answers,
    )
}
