//! The top call of the program.
ghost use Rattle.std.specs.Prelude.{◌≡◌, ◌⊎◌, map, OnOk, IfErr};
ghost use Rattle.std.specs.String.{string_bytes};
ghost use Rattle.str_outer.specs.Causes.{Rose};
ghost use Rattle.strun.specs.Failing.{CallFails};
ghost use Rattle.strun.specs.Inputs.{ReadFailed, ReadsNothing, origin_of};
ghost use Rattle.strun.specs.Tops.{Asked, Completes, Done, IsPartial, IsTold, Refuses, own_name};
ghost use Rattle.strun_words.specs.Tasks.{AskNothing};
ghost use Rattle.top_status.specs.Failures.{refusal_of, status_of};
ghost use Rattle.top_status.specs.Statuses.{IsQuiet, IsStopped, line_of};
ghost use Rattle.top_status.specs.Telling.{Tells};

use crate::tasks::do_task;
use std::alloc::Global;
use str_outer::{Sink, Source};
use strun_words::read_task;
use top_status::{Failure, Status, answer};

/// Does what the words ask for. `run` reads the text of a scene, and `run --frames` its frames, runs it, and writes the answers and
/// the last line; with `--journal` each event has a line before its answers. `run --prune` writes the same as `run` of a text, in a cluster whose nodes
/// drop old versions, and how many they kept. `pack` writes the frames of a text's scene, and `show`
/// the text of the frames' scene. `gen N` reads nothing and writes the text of the scene that is made of N; with `--run` it runs that
/// scene and writes the last line alone. `bank` reads the text of a bank's scene, runs it, and writes the answers, the last line, the
/// balance of each account and their sum. `audit` reads a history, that is the text of a scene with answers and their last line behind it,
/// and writes whether snapshot isolation holds of the answers, or the first answer and the first clause where it doesn't. `at T` writes the
/// values that stood at timestamp T, or what `audit` writes where it doesn't.
///
/// Where it reads `src`, it does so to its end or to 1,048,577 bytes. Where the status isn't `Ok`, one line is written on `err`; a
/// refusal of `err` changes no status. Refused are more than 1,048,576 bytes, a text or a history with a bad line, frames with a bad frame, and for
/// `bank` a scene that is no bank's; the line says which. After a write fault or want of memory `out` has taken a prefix of what would have been written.
///
/// What is written, and what is promised of it, is the clause `done`: `Done` of `specs/Tops.antt`.
pub fn top<S: Source, K: Sink, E: Sink>(
    alloc: Global,
    words: &[String],
    src: &mut S,
    out: &mut K,
    err: &mut E,
) -> Status
    ensures done { result ≡ Status.Ok → Asked (map string_bytes words.now) (λ task.
        Done task (S.left src.old) (S.left src.new) (K.held out.old) (K.held out.new)) }
    ensures usage { result ≡ Status.Usage → AskNothing (map string_bytes words.now) }
    ensures unknown { AskNothing (map string_bytes words.now) → (result ≡ Status.Usage) ⊎ (result ≡ Status.NoMemory) }
    ensures unread { Asked (map string_bytes words.now) (λ task. ReadsNothing (origin_of task)) → src.new ≡ src.old }
    ensures read_fault { result ≡ Status.ReadFault → Asked (map string_bytes words.now) (λ task.
        ReadFailed (origin_of task) (S.faults src.old) (S.faults src.new)) }
    ensures write_fault { result ≡ Status.WriteFault → Rose (K.faults out.old) (K.faults out.new) }
    ensures quiet { IsQuiet result → K.held out.new ≡ K.held out.old }
    ensures partial { IsStopped result
        → IsPartial (map string_bytes words.now) (S.left src.old) (S.left src.new) (K.held out.old) (K.held out.new) }
    ensures complete { Completes (map string_bytes words.now) (S.left src.old) (S.faults src.old) (S.faults src.new)
        (K.faults out.old) (K.faults out.new) result }
    ensures refuses { Refuses (map string_bytes words.now) (S.left src.old) (S.faults src.old) (S.faults src.new) result }
    ensures told { IsTold (map string_bytes words.now) (S.left src.old) (S.left src.new) result E.held E.faults E.wants err.old err.new }
{
    let done = do_words(alloc, words, src, out);
    report(err, done)
}

/// Does the task that the words ask for.
fn do_words<S: Source, K: Sink>(
    alloc: Global,
    words: &[String],
    src: &mut S,
    out: &mut K,
) -> Result<(), Failure>
    ensures done { OnOk result (Asked (map string_bytes words.now) (λ task.
        Done task (S.left src.old) (S.left src.new) (K.held out.old) (K.held out.new))) }
    ensures unread { Asked (map string_bytes words.now) (λ task. ReadsNothing (origin_of task)) → src.new ≡ src.old }
    ensures failed { IfErr result (CallFails (map string_bytes words.now) (S.left src.old) (S.left src.new) (S.faults src.old) (S.faults src.new)
        (K.held out.old) (K.held out.new) (K.faults out.old) (K.faults out.new)) }
{
    let task = read_task(alloc, words)?;
    do_task(alloc, task, src, out)
}

/// Ends the call: says the line of a failure, and gives the status. A refusal of `err` is dropped.
pub fn report<E: Sink>(err: &mut E, done: Result<(), Failure>) -> Status
    ensures status { result ≡ status_of done }
    ensures told { Tells (line_of own_name (refusal_of done) result) (E.held err.old) (E.held err.new)
        (E.faults err.old) (E.faults err.new) (E.wants err.old) (E.wants err.new) }
{
    answer(err, b"strun", done)
}
