//! The writing of answers, a line each, and of what a run renders without its journal.
ghost use Rattle.cluster_run.specs.Printing.{counted};
ghost use Rattle.run_io.specs.Renderings.{answer_lines, rendering};
ghost use Rattle.std.specs.Io.KnownBytes.{Appends};
ghost use Rattle.std.specs.Prelude.{◌≤◌, ◌++◌, IfErr, OnErr, OnOk};
ghost use Rattle.str_model.specs.Lines.{render};
ghost use Rattle.str_outer.specs.Pieces.{AppendsPrefix};
ghost use Rattle.top_status.specs.Failures.{HasWriteCause};
ghost use Rattle.top_status.specs.Waiting.{WrittenBut};

use cluster_run::{Cluster, Counts, push_end};
use held_answer::push_line;
use std::alloc::Global;
use str_model::Answer;
use str_outer::Sink;
use str_scene::KeyTable;
use top_status::{Failure, write_full, write_piece};

/// Writes what a cluster's run renders: its answers, a line each, and the last line.
///
/// # Errors
///
/// `Write` where a write failed, and `Memory` where memory was wanting. The sink has then taken a prefix of it.
pub fn write_cluster<K: Sink>(alloc: Global, cluster: &Cluster, out: &mut K) -> Result<(), Failure>
    ensures written { OnOk result (Appends (K.held out.old) (K.held out.new) (render cluster.now.scene cluster.now.world)) }
    ensures partial { OnErr result (AppendsPrefix (K.held out.old) (K.held out.new) (render cluster.now.scene cluster.now.world)) }
    ensures later { K.faults out.old ≤ K.faults out.new }
    ensures failed { IfErr result (HasWriteCause (K.faults out.old) (K.faults out.new)) }
{
    let counts = cluster.counts();
    write_rendering(alloc, cluster.answers(), cluster.keys(), &counts, out)
}

/// Writes answers, a line each, and the last line with these counts.
///
/// # Errors
///
/// As those of `write_cluster`.
pub fn write_rendering<K: Sink>(
    alloc: Global,
    answers: &[Answer],
    keys: &KeyTable,
    counts: &Counts,
    out: &mut K,
) -> Result<(), Failure>
    ensures written { OnOk result (Appends (K.held out.old) (K.held out.new) (rendering keys.now answers.now (counted counts.now))) }
    ensures partial { OnErr result (AppendsPrefix (K.held out.old) (K.held out.new) (rendering keys.now answers.now (counted counts.now))) }
    ensures later { K.faults out.old ≤ K.faults out.new }
    ensures failed { IfErr result (HasWriteCause (K.faults out.old) (K.faults out.new)) }
{
    let mut waiting = Vec::new(alloc);
    write_answers(answers, keys, &mut waiting, out)?;
    push_end(counts, &mut waiting)?;
    write_piece(out, waiting.as_slice())
}

/// Writes answers, a line each, behind what waits. The last of them, some kilobytes, may be left waiting.
///
/// # Errors
///
/// As those of `write_cluster`: the sink has then taken a prefix of what waited and of the answers' lines.
pub fn write_answers<K: Sink>(
    answers: &[Answer],
    keys: &KeyTable,
    waiting: &mut Vec<u8>,
    out: &mut K,
) -> Result<(), Failure>
    ensures written { OnOk result (WrittenBut (K.held out.old) (K.held out.new) waiting.new.items
        (waiting.old.items ++ answer_lines keys.now answers.now)) }
    ensures partial { OnErr result (AppendsPrefix (K.held out.old) (K.held out.new)
        (waiting.old.items ++ answer_lines keys.now answers.now)) }
    ensures later { K.faults out.old ≤ K.faults out.new }
    ensures failed { IfErr result (HasWriteCause (K.faults out.old) (K.faults out.new)) }
{
    for answer in answers {
        push_line(answer, keys, waiting)?;
        write_full(out, waiting)?;
    }
    Ok(())
}
