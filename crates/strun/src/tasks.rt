//! What each task does.
ghost use Rattle.scene_gen.specs.Made.{made};
ghost use Rattle.std.specs.Io.KnownBytes.{Appends};
ghost use Rattle.std.specs.Prelude.{◌≡◌, false, true, IfErr, OnErr, OnOk};
ghost use Rattle.str_outer.specs.Pieces.{AppendsPrefix};
ghost use Rattle.strun.specs.Failing.{TaskFails};
ghost use Rattle.strun.specs.Inputs.{ReadsNothing, origin_of};
ghost use Rattle.strun.specs.Outputs.{output};
ghost use Rattle.strun.specs.Tops.{Done};
ghost use Rattle.top_status.specs.Failures.{HasWriteCause};

use crate::audits::{write_at, write_verdict};
use crate::banks::write_bank;
use crate::books::book_of;
use crate::inputs::read_either;
use crate::prunes::write_pruned;
use crate::writing::{write_end, write_journal, write_packed, write_run, write_text};
use history_audit::audit;
use run_io::{read_packed, read_past, read_text};
use scene_gen::make;
use std::alloc::Global;
use str_outer::{Sink, Source};
use strun_words::Task;
use top_status::Failure;

/// Does a task: takes what it works on, and writes what the task writes of it.
pub(crate) fn do_task<S: Source, K: Sink>(
    alloc: Global,
    task: Task,
    src: &mut S,
    out: &mut K,
) -> Result<(), Failure>
    ensures done { OnOk result (Done task (S.left src.old) (S.left src.new) (K.held out.old) (K.held out.new)) }
    ensures unread { ReadsNothing (origin_of task) → src.new ≡ src.old }
    ensures failed { IfErr result (TaskFails task (S.left src.old) (S.left src.new) (S.faults src.old) (S.faults src.new)
        (K.held out.old) (K.held out.new) (K.faults out.old) (K.faults out.new)) }
{
    match task {
        Task::Run {
            frames,
            journal: false,
        } => do_run(alloc, frames, src, out),
        Task::Run {
            frames,
            journal: true,
        } => do_journal(alloc, frames, src, out),
        Task::RunPruned => do_pruned(alloc, src, out),
        Task::Pack => do_pack(alloc, src, out),
        Task::Show => do_show(alloc, src, out),
        Task::Generate { seed, run: false } => write_made(alloc, seed, out),
        Task::Generate { seed, run: true } => write_made_end(alloc, seed, out),
        Task::Bank => do_bank(alloc, src, out),
        Task::Audit => do_audit(alloc, src, out),
        Task::At { time } => do_at(alloc, time, src, out),
    }
}

/// `run`: reads a scene, runs it, and writes the answers and the last line.
fn do_run<S: Source, K: Sink>(
    alloc: Global,
    frames: bool,
    src: &mut S,
    out: &mut K,
) -> Result<(), Failure>
    ensures done { OnOk result (Done (Task.Run frames false) (S.left src.old) (S.left src.new) (K.held out.old) (K.held out.new)) }
    ensures failed { IfErr result (TaskFails (Task.Run frames false) (S.left src.old) (S.left src.new) (S.faults src.old) (S.faults src.new)
        (K.held out.old) (K.held out.new) (K.faults out.old) (K.faults out.new)) }
{
    let scene = read_either(alloc, frames, src)?;
    write_run(alloc, scene, out)
}

/// `run --journal`: the same, with a line for each event before its answers.
fn do_journal<S: Source, K: Sink>(
    alloc: Global,
    frames: bool,
    src: &mut S,
    out: &mut K,
) -> Result<(), Failure>
    ensures done { OnOk result (Done (Task.Run frames true) (S.left src.old) (S.left src.new) (K.held out.old) (K.held out.new)) }
    ensures failed { IfErr result (TaskFails (Task.Run frames true) (S.left src.old) (S.left src.new) (S.faults src.old) (S.faults src.new)
        (K.held out.old) (K.held out.new) (K.faults out.old) (K.faults out.new)) }
{
    let scene = read_either(alloc, frames, src)?;
    write_journal(alloc, scene, out)
}

/// `run --prune`: reads the text of a scene, runs it in a cluster that drops old versions, and writes the answers, the last line and how many
/// versions were kept.
fn do_pruned<S: Source, K: Sink>(alloc: Global, src: &mut S, out: &mut K) -> Result<(), Failure>
    ensures done { OnOk result (Done Task.RunPruned (S.left src.old) (S.left src.new) (K.held out.old) (K.held out.new)) }
    ensures failed { IfErr result (TaskFails Task.RunPruned (S.left src.old) (S.left src.new) (S.faults src.old) (S.faults src.new)
        (K.held out.old) (K.held out.new) (K.faults out.old) (K.faults out.new)) }
{
    let scene = read_text(alloc, src)?;
    write_pruned(alloc, scene, out)
}

/// `pack`: reads the text of a scene, and writes its frames.
fn do_pack<S: Source, K: Sink>(alloc: Global, src: &mut S, out: &mut K) -> Result<(), Failure>
    ensures done { OnOk result (Done Task.Pack (S.left src.old) (S.left src.new) (K.held out.old) (K.held out.new)) }
    ensures failed { IfErr result (TaskFails Task.Pack (S.left src.old) (S.left src.new) (S.faults src.old) (S.faults src.new)
        (K.held out.old) (K.held out.new) (K.faults out.old) (K.faults out.new)) }
{
    let scene = read_text(alloc, src)?;
    write_packed(alloc, &scene, out)
}

/// `show`: reads the frames of a scene, and writes its text.
fn do_show<S: Source, K: Sink>(alloc: Global, src: &mut S, out: &mut K) -> Result<(), Failure>
    ensures done { OnOk result (Done Task.Show (S.left src.old) (S.left src.new) (K.held out.old) (K.held out.new)) }
    ensures failed { IfErr result (TaskFails Task.Show (S.left src.old) (S.left src.new) (S.faults src.old) (S.faults src.new)
        (K.held out.old) (K.held out.new) (K.faults out.old) (K.faults out.new)) }
{
    let scene = read_packed(alloc, src)?;
    write_text(alloc, &scene, out)
}

/// `bank`: reads the text of a bank's scene, runs it, and writes the answers, the last line, the balances and their sum.
fn do_bank<S: Source, K: Sink>(alloc: Global, src: &mut S, out: &mut K) -> Result<(), Failure>
    ensures done { OnOk result (Done Task.Bank (S.left src.old) (S.left src.new) (K.held out.old) (K.held out.new)) }
    ensures failed { IfErr result (TaskFails Task.Bank (S.left src.old) (S.left src.new) (S.faults src.old) (S.faults src.new)
        (K.held out.old) (K.held out.new) (K.faults out.old) (K.faults out.new)) }
{
    let scene = read_text(alloc, src)?;
    let book = book_of(alloc, &scene)?;
    write_bank(alloc, scene, &book, out)
}

/// `audit`: reads a history, and writes what its audit finds.
fn do_audit<S: Source, K: Sink>(alloc: Global, src: &mut S, out: &mut K) -> Result<(), Failure>
    ensures done { OnOk result (Done Task.Audit (S.left src.old) (S.left src.new) (K.held out.old) (K.held out.new)) }
    ensures failed { IfErr result (TaskFails Task.Audit (S.left src.old) (S.left src.new) (S.faults src.old) (S.faults src.new)
        (K.held out.old) (K.held out.new) (K.faults out.old) (K.faults out.new)) }
{
    let history = read_past(alloc, src)?;
    let verdict = audit(alloc, &history.scene, &history.answers)?;
    write_verdict(alloc, history.answers.as_slice(), verdict, out)
}

/// `at T`: reads a history, and writes the values that stood at a timestamp, or what its audit finds where that is a no.
fn do_at<S: Source, K: Sink>(
    alloc: Global,
    time: u64,
    src: &mut S,
    out: &mut K,
) -> Result<(), Failure>
    ensures done { OnOk result (Done (Task.At time) (S.left src.old) (S.left src.new) (K.held out.old) (K.held out.new)) }
    ensures failed { IfErr result (TaskFails (Task.At time) (S.left src.old) (S.left src.new) (S.faults src.old) (S.faults src.new)
        (K.held out.old) (K.held out.new) (K.faults out.old) (K.faults out.new)) }
{
    let history = read_past(alloc, src)?;
    let verdict = audit(alloc, &history.scene, &history.answers)?;
    write_at(alloc, time, &history, verdict, out)
}

/// `gen N`: makes a scene of the seed, and writes its text.
fn write_made<K: Sink>(alloc: Global, seed: u64, out: &mut K) -> Result<(), Failure>
    ensures written { OnOk result (Appends (K.held out.old) (K.held out.new) (output (Task.Generate seed false) (made seed))) }
    ensures partial { OnErr result (AppendsPrefix (K.held out.old) (K.held out.new) (output (Task.Generate seed false) (made seed))) }
    ensures failed { IfErr result (HasWriteCause (K.faults out.old) (K.faults out.new)) }
{
    let scene = make(alloc, seed)?;
    write_text(alloc, &scene, out)
}

/// `gen N --run`: makes a scene of the seed, runs it, and writes the last line alone.
fn write_made_end<K: Sink>(alloc: Global, seed: u64, out: &mut K) -> Result<(), Failure>
    ensures written { OnOk result (Appends (K.held out.old) (K.held out.new) (output (Task.Generate seed true) (made seed))) }
    ensures partial { OnErr result (AppendsPrefix (K.held out.old) (K.held out.new) (output (Task.Generate seed true) (made seed))) }
    ensures failed { IfErr result (HasWriteCause (K.faults out.old) (K.faults out.new)) }
{
    let scene = make(alloc, seed)?;
    write_end(alloc, scene, out)
}
