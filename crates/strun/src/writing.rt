//! The writing of a scene, and of its run.
ghost use Rattle.std.specs.Prelude.{◌≡◌, IfErr, OnErr, OnOk, IfOk};
ghost use Rattle.request_frame.specs.Frames.{frames_of};
ghost use Rattle.request_frame.specs.Spelling.{bytes_of};
ghost use Rattle.std.specs.Io.KnownBytes.{Appends};
ghost use Rattle.str_model.specs.Drains.{cluster_run};
ghost use Rattle.str_model.specs.Lines.{counts, end_line, render, render_j};
ghost use Rattle.str_outer.specs.Pieces.{AppendsPrefix};
ghost use Rattle.str_scene.specs.Spelling.{spelling};
ghost use Rattle.top_status.specs.Failures.{HasWriteCause};

use cluster_run::{Cluster, push_end};
use request_frame::write_frames;
use run_io::{write_cluster, write_whole};
use scene_text::write_scene;
use std::alloc::{AllocError, Global};
use str_outer::Sink;
use str_scene::Scene;
use top_status::{Failure, write_piece};

/// Writes the text of a scene.
pub(crate) fn write_text<K: Sink>(alloc: Global, scene: &Scene, out: &mut K) -> Result<(), Failure>
    ensures written { OnOk result (Appends (K.held out.old) (K.held out.new) (spelling scene.now)) }
    ensures partial { OnErr result (AppendsPrefix (K.held out.old) (K.held out.new) (spelling scene.now)) }
    ensures failed { IfErr result (HasWriteCause (K.faults out.old) (K.faults out.new)) }
{
    let text = write_scene(alloc, scene)?;
    write_piece(out, text.as_slice())
}

/// Writes the frames of a scene.
pub(crate) fn write_packed<K: Sink>(
    alloc: Global,
    scene: &Scene,
    out: &mut K,
) -> Result<(), Failure>
    ensures written { OnOk result (Appends (K.held out.old) (K.held out.new) (bytes_of (frames_of scene.now))) }
    ensures partial { OnErr result (AppendsPrefix (K.held out.old) (K.held out.new) (bytes_of (frames_of scene.now))) }
    ensures failed { IfErr result (HasWriteCause (K.faults out.old) (K.faults out.new)) }
{
    let frames = write_frames(alloc, scene)?;
    write_piece(out, frames.as_slice())
}

/// The cluster of a scene after its run.
pub(crate) fn run_cluster(alloc: Global, scene: Scene) -> Result<Cluster, AllocError>
    ensures scene { IfOk result (λ c. c.scene ≡ scene) }
    ensures world { IfOk result (λ c. c.world ≡ cluster_run scene) }
{
    let drains = scene.drain();
    let mut cluster = Cluster::new(alloc, scene)?;
    cluster.run_schedule()?;
    if !drains {
        return Ok(cluster);
    }
    cluster.drain()?;
    Ok(cluster)
}

/// Runs a scene and writes its answers and the last line.
pub(crate) fn write_run<K: Sink>(alloc: Global, scene: Scene, out: &mut K) -> Result<(), Failure>
    ensures written { OnOk result (Appends (K.held out.old) (K.held out.new) (render scene (cluster_run scene))) }
    ensures partial { OnErr result (AppendsPrefix (K.held out.old) (K.held out.new) (render scene (cluster_run scene))) }
    ensures failed { IfErr result (HasWriteCause (K.faults out.old) (K.faults out.new)) }
{
    let cluster = run_cluster(alloc, scene)?;
    write_cluster(alloc, &cluster, out)
}

/// Runs a scene and writes the line of each event, with the answers that it released behind it, and the last line.
pub(crate) fn write_journal<K: Sink>(
    alloc: Global,
    scene: Scene,
    out: &mut K,
) -> Result<(), Failure>
    ensures written { OnOk result (Appends (K.held out.old) (K.held out.new) (render_j scene (cluster_run scene))) }
    ensures partial { OnErr result (AppendsPrefix (K.held out.old) (K.held out.new) (render_j scene (cluster_run scene))) }
    ensures failed { IfErr result (HasWriteCause (K.faults out.old) (K.faults out.new)) }
{
    let cluster = run_cluster(alloc, scene)?;
    write_whole(alloc, &cluster, out)
}

/// Runs a scene and writes the last line alone.
pub(crate) fn write_end<K: Sink>(alloc: Global, scene: Scene, out: &mut K) -> Result<(), Failure>
    ensures written { OnOk result (Appends (K.held out.old) (K.held out.new) (end_line (counts scene (cluster_run scene)))) }
    ensures partial { OnErr result (AppendsPrefix (K.held out.old) (K.held out.new) (end_line (counts scene (cluster_run scene)))) }
    ensures failed { IfErr result (HasWriteCause (K.faults out.old) (K.faults out.new)) }
{
    let cluster = run_cluster(alloc, scene)?;
    let mut line = Vec::new(alloc);
    push_end(&cluster.counts(), &mut line)?;
    write_piece(out, line.as_slice())
}
