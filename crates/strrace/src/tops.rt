//! The top call of the program.
ghost use Rattle.run_io.specs.RunCalls.{IsRunPart, RunCompletes, RunDone, RunFails, RunRefuses, RunTells};
ghost use Rattle.std.specs.Prelude.{◌≡◌, ◌≤◌, ℕ, List, map, length, IfErr, OnOk};
ghost use Rattle.std.specs.String.{string_bytes};
ghost use Rattle.str_outer.specs.Causes.{Rose};
ghost use Rattle.strrace.specs.RaceRuns.{IsRaceRun};
ghost use Rattle.strrace.specs.RaceWords.{AskRace, AskRounds, race_name};
ghost use Rattle.top_status.specs.Failures.{refusal_of, status_of};
ghost use Rattle.top_status.specs.Statuses.{IsQuiet, IsStopped, line_of};
ghost use Rattle.top_status.specs.Telling.{Tells};

use crate::race::race;
use crate::words::rounds_asked;
use run_io::{read_text, write_whole};
use std::alloc::Global;
use std::marker::{Send, Sync};
use std::thread::Threads;
use str_outer::{Clock, Gate, Sink, Source};
use top_status::{Failure, Status, answer};

/// Runs a race. The words are one number of rounds from 1 to 256. It reads the text of a scene, whose schedule and drain are not used, and lets the
/// scene's nodes make so many rounds, all nodes of a round at once, each in a thread of its own where one can be made. The node of number n uses the
/// n-th clock and the n-th gate. Then it merges what the nodes did into one run, drains that, and writes each event with the answers that it
/// released, and the last line.
///
/// It reads `src` to its end or to 1,048,577 bytes. Where the status isn't `Ok`, one line is written on `err`; a refusal of `err` changes no status.
/// Refused are more than 1,048,576 bytes and a text with a bad line; the line says which. After a write fault or want of memory `out` has taken a
/// prefix of what would have been written.
///
/// What is written, and what is promised of it, is the clause `done`: `RunDone` of `run_io` with `IsRaceRun` of `specs/RaceRuns.antt`.
pub fn race_top<
    S: Source,
    K: Sink,
    E: Sink,
    C: Clock + Send + Drop,
    G: Gate + Send + Drop,
    R: Threads + Sync,
>(
    rt: &R,
    alloc: Global,
    words: &[String],
    src: &mut S,
    out: &mut K,
    err: &mut E,
    clocks: Vec<C>,
    gates: Vec<G>,
) -> Status
    requires clocks { length clocks.items ≡ 8 }
    requires gates { length gates.items ≡ 8 }
    ensures done { result ≡ Status.Ok
        → RunDone (IsRaceRun (map string_bytes words.now)) (S.left src.old) (S.left src.new) (K.held out.old) (K.held out.new) }
    ensures usage { result ≡ Status.Usage → ¬ AskRace (map string_bytes words.now) }
    ensures unknown { ¬ AskRace (map string_bytes words.now) → result ≡ Status.Usage }
    ensures unread { ¬ AskRace (map string_bytes words.now) → src.new ≡ src.old }
    ensures read_fault { result ≡ Status.ReadFault → Rose (S.faults src.old) (S.faults src.new) }
    ensures write_fault { result ≡ Status.WriteFault → Rose (K.faults out.old) (K.faults out.new) }
    ensures quiet { IsQuiet result → K.held out.new ≡ K.held out.old }
    ensures partial { IsStopped result
        → IsRunPart (IsRaceRun (map string_bytes words.now)) (S.left src.old) (S.left src.new) (K.held out.old) (K.held out.new) }
    ensures complete { RunCompletes (AskRace (map string_bytes words.now)) (S.left src.old) (S.faults src.old) (S.faults src.new)
        (K.faults out.old) (K.faults out.new) result }
    ensures refuses { RunRefuses (AskRace (map string_bytes words.now)) (S.left src.old) (S.faults src.old) (S.faults src.new) result }
    ensures told { RunTells race_name (S.left src.old) (S.left src.new) result E.held E.faults E.wants err.old err.new }
{
    let done = do_words(rt, alloc, words, src, out, clocks, gates);
    report(err, done)
}

/// Runs the race that the words ask for.
fn do_words<S: Source, K: Sink, C: Clock + Send + Drop, G: Gate + Send + Drop, R: Threads + Sync>(
    rt: &R,
    alloc: Global,
    words: &[String],
    src: &mut S,
    out: &mut K,
    clocks: Vec<C>,
    gates: Vec<G>,
) -> Result<(), Failure>
    requires clocks { length clocks.items ≡ 8 }
    requires gates { length gates.items ≡ 8 }
    ensures done { OnOk result (RunDone (IsRaceRun (map string_bytes words.now))
        (S.left src.old) (S.left src.new) (K.held out.old) (K.held out.new)) }
    ensures unread { ¬ AskRace (map string_bytes words.now) → src.new ≡ src.old }
    ensures failed { IfErr result (RunFails (AskRace (map string_bytes words.now)) (IsRaceRun (map string_bytes words.now)) (S.left src.old) (S.left src.new)
        (S.faults src.old) (S.faults src.new) (K.held out.old) (K.held out.new) (K.faults out.old) (K.faults out.new)) }
{
    let Some(count) = rounds_asked(words) else {
        return Err(Failure::Usage);
    };
    do_race(rt, alloc, count, src, out, clocks, gates)
}

/// Reads a scene, runs a race of so many rounds, and writes what it comes to.
fn do_race<S: Source, K: Sink, C: Clock + Send + Drop, G: Gate + Send + Drop, R: Threads + Sync>(
    rt: &R,
    alloc: Global,
    count: u32,
    src: &mut S,
    out: &mut K,
    clocks: Vec<C>,
    gates: Vec<G>,
) -> Result<(), Failure>
    requires clocks { length clocks.items ≡ 8 }
    requires gates { length gates.items ≡ 8 }
    requires count { count ≤ 256 }
    ensures done { (words : List (List ℕ)) → AskRounds words count → OnOk result (RunDone (IsRaceRun words)
        (S.left src.old) (S.left src.new) (K.held out.old) (K.held out.new)) }
    ensures failed { (words : List (List ℕ)) → AskRounds words count → IfErr result (RunFails (AskRace words) (IsRaceRun words) (S.left src.old) (S.left src.new)
        (S.faults src.old) (S.faults src.new) (K.held out.old) (K.held out.new) (K.faults out.old) (K.faults out.new)) }
{
    let scene = read_text(alloc, src)?;
    let cluster = race(rt, alloc, scene, count, clocks, gates)?;
    write_whole(alloc, &cluster, out)
}

/// Ends the call: says the line of a failure, and gives the status. A refusal of `err` is dropped.
pub fn report<E: Sink>(err: &mut E, done: Result<(), Failure>) -> Status
    ensures status { result ≡ status_of done }
    ensures told { Tells (line_of race_name (refusal_of done) result) (E.held err.old) (E.held err.new)
        (E.faults err.old) (E.faults err.new) (E.wants err.old) (E.wants err.new) }
{
    answer(err, b"strrace", done)
}
