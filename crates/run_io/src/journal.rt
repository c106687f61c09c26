//! The writing of a run with its journal: the line of each event, and behind it the answers that it released.
ghost use Rattle.run_io.specs.Renderings.{entry_lines};
ghost use Rattle.std.specs.Io.KnownBytes.{Appends};
ghost use Rattle.std.specs.List.{sum_by};
ghost use Rattle.std.specs.Prelude.{◌≡◌, ◌≤◌, ◌++◌, IfErr, OnErr, OnOk, length};
ghost use Rattle.str_model.specs.Lines.{journal_lines, render_j};
ghost use Rattle.str_outer.specs.Pieces.{AppendsPrefix};
ghost use Rattle.top_status.specs.Failures.{HasWriteCause};
ghost use Rattle.top_status.specs.Waiting.{WrittenBut};

use crate::answers::write_answers;
use cluster_run::{Cluster, push_done, push_end};
use std::alloc::Global;
use str_model::{Answer, Done};
use str_outer::Sink;
use str_scene::KeyTable;
use top_status::{Failure, write_full, write_piece};

/// Writes what a cluster's run renders with its journal: the line of each event, the answers that it released behind it, and the last line.
///
/// # Errors
///
/// `Write` where a write failed, and `Memory` where memory was wanting. The sink has then taken a prefix of it.
pub fn write_whole<K: Sink>(alloc: Global, cluster: &Cluster, out: &mut K) -> Result<(), Failure>
    ensures written { OnOk result (Appends (K.held out.old) (K.held out.new) (render_j cluster.now.scene cluster.now.world)) }
    ensures partial { OnErr result (AppendsPrefix (K.held out.old) (K.held out.new) (render_j cluster.now.scene cluster.now.world)) }
    ensures later { K.faults out.old ≤ K.faults out.new }
    ensures failed { IfErr result (HasWriteCause (K.faults out.old) (K.faults out.new)) }
{
    let _ = cluster.scene();
    let mut waiting = Vec::new(alloc);
    write_entries(
        cluster.journal(),
        cluster.answers(),
        cluster.keys(),
        &mut waiting,
        out,
    )?;
    push_end(&cluster.counts(), &mut waiting)?;
    write_piece(out, waiting.as_slice())
}

/// Writes the lines of each entry of a journal, behind what waits. The last of them may be left waiting.
fn write_entries<K: Sink>(
    journal: &[Done],
    answers: &[Answer],
    keys: &KeyTable,
    waiting: &mut Vec<u8>,
    out: &mut K,
) -> Result<(), Failure>
    requires { sum_by (λ d. d.answers) journal.now ≡ length answers.now }
    ensures written { OnOk result (WrittenBut (K.held out.old) (K.held out.new) waiting.new.items
        (waiting.old.items ++ journal_lines keys.now journal.now answers.now)) }
    ensures partial { OnErr result (AppendsPrefix (K.held out.old) (K.held out.new)
        (waiting.old.items ++ journal_lines keys.now journal.now answers.now)) }
    ensures later { K.faults out.old ≤ K.faults out.new }
    ensures failed { IfErr result (HasWriteCause (K.faults out.old) (K.faults out.new)) }
{
    let mut rest = answers;
    for done in journal {
        let (released, later) = rest.split_at(done.answers as usize);
        write_entry(done, released, keys, waiting, out)?;
        rest = later;
    }
    Ok(())
}

/// Writes the line of a journal entry and those of the answers that it released, behind what waits. The last of them, some kilobytes, may be
/// left waiting.
///
/// # Errors
///
/// As those of `write_whole`: the sink has then taken a prefix of what waited and of these lines.
pub fn write_entry<K: Sink>(
    done: &Done,
    released: &[Answer],
    keys: &KeyTable,
    waiting: &mut Vec<u8>,
    out: &mut K,
) -> Result<(), Failure>
    ensures written { OnOk result (WrittenBut (K.held out.old) (K.held out.new) waiting.new.items
        (waiting.old.items ++ entry_lines keys.now done.now released.now)) }
    ensures partial { OnErr result (AppendsPrefix (K.held out.old) (K.held out.new)
        (waiting.old.items ++ entry_lines keys.now done.now released.now)) }
    ensures later { K.faults out.old ≤ K.faults out.new }
    ensures failed { IfErr result (HasWriteCause (K.faults out.old) (K.faults out.new)) }
{
    push_done(done, waiting)?;
    write_full(out, waiting)?;
    write_answers(released, keys, waiting, out)
}
