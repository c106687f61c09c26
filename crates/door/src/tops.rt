//! The top call of the program.
ghost use Rattle.door.specs.Tops.{IsDoorRun, door_name};
ghost use Rattle.run_io.specs.RunCalls.{IsRunPart, RunCompletes, RunDone, RunFails, RunRefuses, RunTells};
ghost use Rattle.std.specs.Prelude.{◌≡◌, IfErr, OnOk, length};
ghost use Rattle.str_outer.specs.Causes.{Rose};
ghost use Rattle.top_status.specs.Failures.{refusal_of, status_of};
ghost use Rattle.top_status.specs.Statuses.{IsQuiet, IsStopped, line_of};
ghost use Rattle.top_status.specs.Telling.{Tells};

use crate::replays::replayed;
use crate::visits::visit;
use run_io::{read_text, write_whole};
use std::alloc::Global;
use std::marker::{Send, Sync};
use std::sync::Wait;
use std::thread::Threads;
use str_outer::{Clock, Gate, Sink, Source};
use top_status::{Failure, Status, answer};

/// Runs workers at a door. It takes no words. It reads the text of a scene, whose schedule and drain are not used, and makes a door with a cluster of
/// that scene. A worker for each node, in a thread of its own where one can be made, acts on the cluster under the door's lock: in 8 turns it makes a
/// client step of each of its node's sessions, and gives a message. The worker of node n uses the n-th clock and the n-th gate. When all have ended,
/// the door is closed, and the events that it tells are done once more in a cluster of its own. That is drained, and each event is written with the
/// answers that it released, and then the last line.
///
/// It reads `src` to its end or to 1,048,577 bytes. Where the status isn't `Ok`, one line is written on `err`; a refusal of `err` changes no status.
/// Refused are more than 1,048,576 bytes and a text with a bad line; the line says which. After a write fault or want of memory `out` has taken a
/// prefix of what would have been written.
///
/// What is written, and what is promised of it, is the clause `done`: `RunDone` of `run_io` with `IsDoorRun` of `specs/Tops.antt`. That the written
/// run is the workers' is no clause: nothing is known of the value under a lock but what its type keeps.
pub fn door_top<
    S: Source,
    K: Sink,
    E: Sink,
    C: Clock + Send + Drop,
    G: Gate + Send + Drop,
    R: Threads + Wait + Sync,
>(
    rt: &R,
    alloc: Global,
    words: &[String],
    src: &mut S,
    out: &mut K,
    err: &mut E,
    clocks: Vec<C>,
    gates: Vec<G>,
) -> Status
    requires clocks { length clocks.items ≡ 8 }
    requires gates { length gates.items ≡ 8 }
    ensures done { result ≡ Status.Ok → RunDone IsDoorRun (S.left src.old) (S.left src.new) (K.held out.old) (K.held out.new) }
    ensures usage { result ≡ Status.Usage → ¬ (length words.now ≡ 0) }
    ensures unknown { ¬ (length words.now ≡ 0) → result ≡ Status.Usage }
    ensures unread { ¬ (length words.now ≡ 0) → src.new ≡ src.old }
    ensures read_fault { result ≡ Status.ReadFault → Rose (S.faults src.old) (S.faults src.new) }
    ensures write_fault { result ≡ Status.WriteFault → Rose (K.faults out.old) (K.faults out.new) }
    ensures quiet { IsQuiet result → K.held out.new ≡ K.held out.old }
    ensures partial { IsStopped result → IsRunPart IsDoorRun (S.left src.old) (S.left src.new) (K.held out.old) (K.held out.new) }
    ensures complete { RunCompletes (length words.now ≡ 0) (S.left src.old) (S.faults src.old) (S.faults src.new)
        (K.faults out.old) (K.faults out.new) result }
    ensures refuses { RunRefuses (length words.now ≡ 0) (S.left src.old) (S.faults src.old) (S.faults src.new) result }
    ensures told { RunTells door_name (S.left src.old) (S.left src.new) result E.held E.faults E.wants err.old err.new }
{
    let done = do_words(rt, alloc, words, src, out, clocks, gates);
    report(err, done)
}

/// Reads a scene, runs its workers, and writes the run that the closed door tells, where there are no words.
fn do_words<
    S: Source,
    K: Sink,
    C: Clock + Send + Drop,
    G: Gate + Send + Drop,
    R: Threads + Wait + Sync,
>(
    rt: &R,
    alloc: Global,
    words: &[String],
    src: &mut S,
    out: &mut K,
    clocks: Vec<C>,
    gates: Vec<G>,
) -> Result<(), Failure>
    requires clocks { length clocks.items ≡ 8 }
    requires gates { length gates.items ≡ 8 }
    ensures asked { OnOk result (length words.now ≡ 0) }
    ensures done { OnOk result (RunDone IsDoorRun (S.left src.old) (S.left src.new) (K.held out.old) (K.held out.new)) }
    ensures unread { ¬ (length words.now ≡ 0) → src.new ≡ src.old }
    ensures failed { IfErr result (RunFails (length words.now ≡ 0) IsDoorRun (S.left src.old) (S.left src.new)
        (S.faults src.old) (S.faults src.new) (K.held out.old) (K.held out.new) (K.faults out.old) (K.faults out.new)) }
{
    if !words.is_empty() {
        return Err(Failure::Usage);
    }
    let scene = read_text(alloc, src)?;
    let visit = visit(rt, alloc, &scene, clocks, gates)?;
    let cluster = replayed(alloc, scene, visit.closing.journal.as_slice())?;
    write_whole(alloc, &cluster, out)
}

/// Ends the call: says the line of a failure, and gives the status. A refusal of `err` is dropped.
pub fn report<E: Sink>(err: &mut E, done: Result<(), Failure>) -> Status
    ensures status { result ≡ status_of done }
    ensures told { Tells (line_of door_name (refusal_of done) result) (E.held err.old) (E.held err.new)
        (E.faults err.old) (E.faults err.new) (E.wants err.old) (E.wants err.new) }
{
    answer(err, b"door", done)
}
