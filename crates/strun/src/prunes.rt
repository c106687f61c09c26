//! The run of a scene in a cluster that drops old versions, with how many versions were kept.
ghost use Rattle.cluster_run.specs.PrunedStates.{kept_versions};
ghost use Rattle.prune_laws.specs.PrunedClusters.{pruned_cluster_run};
ghost use Rattle.std.specs.Io.KnownBytes.{Appends};
ghost use Rattle.std.specs.Prelude.{◌≡◌, ◌≤◌, ◌++◌, IfErr, IfOk, OnErr, OnOk};
ghost use Rattle.str_outer.specs.Pieces.{AppendsPrefix};
ghost use Rattle.strun.specs.Outputs.{kept_line, output};
ghost use Rattle.strun_words.specs.declared.task.Task.TheVariants.{RunPruned};
ghost use Rattle.top_status.specs.Failures.{HasWriteCause};

use cluster_run::PrunedCluster;
use run_io::write_rendering;
use std::alloc::{AllocError, Global};
use str_base::push_u64;
use str_outer::Sink;
use str_scene::Scene;
use top_status::{Failure, write_piece};

/// Runs a scene in a cluster that prunes, and writes its answers, the last line and the line of the kept versions.
pub(crate) fn write_pruned<K: Sink>(alloc: Global, scene: Scene, out: &mut K) -> Result<(), Failure>
    ensures written { OnOk result (Appends (K.held out.old) (K.held out.new) (output RunPruned scene)) }
    ensures partial { OnErr result (AppendsPrefix (K.held out.old) (K.held out.new) (output RunPruned scene)) }
    ensures failed { IfErr result (HasWriteCause (K.faults out.old) (K.faults out.new)) }
{
    let cluster = run_pruned(alloc, scene)?;
    let counts = cluster.counts();
    write_rendering(alloc, cluster.answers(), cluster.keys(), &counts, out)?;
    write_kept(alloc, cluster.kept(), out)
}

/// The pruned cluster of a scene after its run.
fn run_pruned(alloc: Global, scene: Scene) -> Result<PrunedCluster, AllocError>
    ensures scene { IfOk result (λ c. c.scene ≡ scene) }
    ensures state { IfOk result (λ c. c.state ≡ pruned_cluster_run scene) }
{
    let drains = scene.drain();
    let mut cluster = PrunedCluster::new(alloc, scene)?;
    cluster.run_schedule()?;
    if !drains {
        return Ok(cluster);
    }
    cluster.drain()?;
    Ok(cluster)
}

/// Writes the line of the kept versions.
fn write_kept<K: Sink>(alloc: Global, kept: u64, out: &mut K) -> Result<(), Failure>
    ensures written { OnOk result (Appends (K.held out.old) (K.held out.new) (kept_line kept)) }
    ensures partial { OnErr result (AppendsPrefix (K.held out.old) (K.held out.new) (kept_line kept)) }
    ensures later { K.faults out.old ≤ K.faults out.new }
    ensures failed { IfErr result (HasWriteCause (K.faults out.old) (K.faults out.new)) }
{
    let mut line = Vec::new(alloc);
    push_kept(kept, &mut line)?;
    write_piece(out, line.as_slice())
}

/// Appends the line of the kept versions.
fn push_kept(kept: u64, line: &mut Vec<u8>) -> Result<(), AllocError>
    ensures { OnOk result (line.new.items ≡ line.old.items ++ kept_line kept) }
{
    line.extend_from_slice(b"kept versions=")?;
    push_u64(line, kept)?;
    line.extend_from_slice(b"\n")
}
