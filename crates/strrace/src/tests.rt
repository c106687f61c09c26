//! Whole calls of the program over a source and sinks in memory.
ghost use Rattle.std.specs.Prelude.{◌≡◌, ◌<◌, IfOk, length};

use crate::tops::race_top;
use cluster_run::Cluster;
use run_io::{open_gates, write_whole};
use scene_text::read_scene;
use std::alloc::{AllocError, Global};
use std::marker::{Send, Sync};
use std::process::Abort;
use std::str;
use std::sync::atomic::{AtomicU64, Ordering};
use std::test::Fail;
use std::thread::Threads;
use str_base::NodeId;
use str_outer::{Clock, FixedClock, Gate, MemSink, MemSource, OpenGate};
use top_status::Status;

const EMPTY: &[u8] = b"str 1\nnodes 1\npart 1 1\nschedule\ndrain\nend\n";

const EMPTY_END: &[u8] = b"end commits=0 aborts=0 held=0 unbegun=0 messages=0\n";

/// Two sums on one key at one node; the schedule and the drain are not used.
const LOST_UPDATE: &[u8] =
    b"str 1\nnodes 1\npart 1 1\nsession 1\ntx\nadd a@1 1\nsession 1\ntx\nadd a@1 1\nschedule\nc 1 10\nc 2 10\ndrain\nend\n";

const LOST_UPDATE_LINES: &[u8] =
    b"j c 1 10\nj c 2 10\nj c 1 10\nj c 2 10\nj c 1 10\n1.1 s1/1 commit rs=10 fc=11\nj c 2 10\n\
    1.2 s2/1 abort rs=10 conflict 1.1 a@1 at=1\nend commits=1 aborts=1 held=0 unbegun=0 messages=0\n";

/// A transfer between two nodes, and a statement: the text before its schedule.
static TRANSFER: [u8; 148] =
    *b"str 1\nnodes 2\npart 1 1 2\npart 2 2 1\nsession 1\ntx\nput alice@1 100\ntx\nneed alice@1 30\nadd alice@1 -30\nadd bob@2 30\n\
    session 2\ntx\nget alice@1\nget bob@2\n";

/// A call: its words, its input, which read and which write are to fail (0: none), and what is to come of it.
#[derive(Clone, Copy)]
struct Case<'a> {
    words: &'a [&'a str],
    text: &'a [u8],
    failing_read: u64,
    failing_write: u64,
    status: Status,
    out: &'static [u8],
    err: &'static [u8],
}

/// Races of one node.
static CASES: [Case<'static>; 6] = [
    Case {
        words: &["1"],
        text: EMPTY,
        failing_read: 0,
        failing_write: 0,
        status: Status::Ok,
        out: EMPTY_END,
        err: b"",
    },
    Case {
        words: &["256"],
        text: EMPTY,
        failing_read: 0,
        failing_write: 0,
        status: Status::Ok,
        out: EMPTY_END,
        err: b"",
    },
    Case {
        words: &["4"],
        text: LOST_UPDATE,
        failing_read: 0,
        failing_write: 0,
        status: Status::Ok,
        out: LOST_UPDATE_LINES,
        err: b"",
    },
    Case {
        words: &["1"],
        text: b"str 1\nnodes 9\npart 1 1\nschedule\ndrain\nend\n",
        failing_read: 0,
        failing_write: 0,
        status: Status::Refused,
        out: b"",
        err: b"strrace: line 2: range\n",
    },
    Case {
        words: &["1"],
        text: EMPTY,
        failing_read: 2,
        failing_write: 0,
        status: Status::ReadFault,
        out: b"",
        err: b"strrace: read fault\n",
    },
    Case {
        words: &["1"],
        text: EMPTY,
        failing_read: 0,
        failing_write: 2,
        status: Status::WriteFault,
        out: b"end commits=0 ab",
        err: b"strrace: write fault\n",
    },
];

/// Words that are no number of rounds.
static NO_WORDS: [&[&str]; 8] = [
    &[],
    &[""],
    &["0"],
    &["257"],
    &["01"],
    &["+1"],
    &["1", "1"],
    &["run"],
];

// The texts, each behind a call: a proof then has none of them in sight.

fn cases() -> &'static [Case<'static>] {
    &CASES
}

fn no_words() -> &'static [&'static [&'static str]] {
    &NO_WORDS
}

fn transfer() -> &'static [u8] {
    &TRANSFER
}

/// What a call came to.
#[derive(Drop)]
struct Came {
    status: Status,
    out: Vec<u8>,
    err: Vec<u8>,
}

/// A list of this number, or an empty one where it is 0.
fn failing(alloc: Global, call: u64) -> Result<Vec<u64>, AllocError> {
    let mut calls = Vec::new(alloc);
    if call > 0 {
        calls.push(call)?;
    }
    Ok(calls)
}

/// The words, owned.
fn owned(alloc: Global, texts: &[&str]) -> Result<Vec<String>, AllocError> {
    let mut words = Vec::new(alloc);
    for text in texts {
        words.push(String::from_str(alloc, *text)?)?;
    }
    Ok(words)
}

/// Clocks that always give this number.
fn clocks_at(alloc: Global, number: u64) -> Result<Vec<FixedClock>, AllocError>
    ensures { IfOk result (λ clocks. length clocks.items ≡ 8) }
{
    let mut clocks = Vec::new(alloc);
    for _node in 0..8u8 {
        clocks.push(FixedClock::new(vec![in alloc; number]?))?;
    }
    Ok(clocks)
}

/// Runs a race with these clocks and gates.
fn raced<C: Clock + Send + Drop, G: Gate + Send + Drop, R: Threads + Sync>(
    rt: &R,
    alloc: Global,
    case: &Case<'_>,
    clocks: Vec<C>,
    gates: Vec<G>,
) -> Result<Came, AllocError>
    requires clocks { length clocks.items ≡ 8 }
    requires gates { length gates.items ≡ 8 }
{
    let words = owned(alloc, case.words)?;
    let text = case.text.to_vec(alloc)?;
    let mut src = MemSource::new(text, failing(alloc, case.failing_read)?, 8);
    let mut out = MemSink::new(alloc, failing(alloc, case.failing_write)?, 16);
    let mut err = MemSink::new(alloc, Vec::new(alloc), 16);
    let words = words.as_slice();
    let status = race_top(
        rt, alloc, words, &mut src, &mut out, &mut err, clocks, gates,
    );
    Ok(Came {
        status,
        out: out.bytes().to_vec(alloc)?,
        err: err.bytes().to_vec(alloc)?,
    })
}

/// Every clock gives 10, and every gate is open.
fn check<R: Threads + Sync + Abort + AllocGlobal>(rt: &R, case: &Case<'_>) -> Result<(), Fail> {
    let clocks = clocks_at(rt.alloc(), 10)?;
    let gates = open_gates(rt.alloc())?;
    let came = raced(rt, rt.alloc(), case, clocks, gates)?;
    assert_eq!(rt; came.status, case.status);
    assert_eq!(rt; came.out.as_slice(), case.out);
    assert_eq!(rt; came.err.as_slice(), case.err);
    Ok(())
}

/// A call with these words and this input, of which nothing fails; what it writes is not looked at.
fn plain<'a>(words: &'a [&'a str], text: &'a [u8]) -> Case<'a> {
    Case {
        words,
        text,
        failing_read: 0,
        failing_write: 0,
        status: Status::Ok,
        out: b"",
        err: b"",
    }
}

#[test]
fn races_of_one_node(rt: HostRuntime) -> Result<(), Fail> {
    for case in cases() {
        check(&rt, case)?;
    }
    Ok(())
}

#[test]
fn words_that_are_none(rt: HostRuntime) -> Result<(), Fail> {
    // Nothing is read: the first read would fail.
    for words in no_words() {
        let case = Case {
            failing_read: 1,
            status: Status::Usage,
            err: b"strrace: usage\n",
            ..plain(words, b"")
        };
        check(&rt, &case)?;
    }
    Ok(())
}

/// Whether each of two nodes has begun, and whether it has seen that the other had.
#[derive(Drop)]
struct Flags {
    begun: [AtomicU64; 2],
    seen: [AtomicU64; 2],
}

/// A gate that at its first call tells that its node has begun, and then looks whether the other has, again and again.
#[derive(Drop)]
struct Meeting<'a> {
    flags: &'a Flags,
    passed: bool,
}

impl Gate for Meeting<'_> {
    fn before(&mut self, node: NodeId) {
        if !self.passed {
            self.passed = true;
            look(self.flags, usize::from(node == NodeId(2)));
        }
    }
}

/// Tells that a node has begun, and looks whether the other has.
fn look(flags: &Flags, place: usize)
    requires { place < 2 }
{
    flags.begun[place].store(1, Ordering::SeqCst);
    for _turn in 0..100_000_000u32 {
        if flags.begun[1 - place].load(Ordering::SeqCst) == 1 {
            flags.seen[place].store(1, Ordering::SeqCst);
            return;
        }
    }
}

/// The gates of a race of two nodes.
fn meetings(alloc: Global, flags: &Flags) -> Result<Vec<Meeting<'_>>, AllocError>
    ensures { IfOk result (λ gates. length gates.items ≡ 8) }
{
    let mut gates = Vec::new(alloc);
    for _node in 0..8u8 {
        gates.push(Meeting {
            flags,
            passed: false,
        })?;
    }
    Ok(gates)
}

/// The text of the transfer with the schedule that a journal spells, and without a drain.
fn with_schedule(alloc: Global, journal: &str) -> Result<Vec<u8>, AllocError> {
    let mut text = transfer().to_vec(alloc)?;
    text.extend_from_slice(b"schedule\n")?;
    for line in journal.lines() {
        if let Some(entry) = line.strip_prefix("j ") {
            let event = entry.strip_suffix(" idle").unwrap_or(entry);
            text.extend_from_slice(event.as_bytes())?;
            text.extend_from_slice(b"\n")?;
        }
    }
    text.extend_from_slice(b"end\n")?;
    Ok(text)
}

/// What the run of a text writes with its journal; nothing where the text is no scene's or memory is wanting.
fn journal_of(alloc: Global, text: &[u8]) -> Option<Vec<u8>> {
    let scene = read_scene(alloc, text).ok()?;
    let mut cluster = Cluster::new(alloc, scene).ok()?;
    cluster.run_schedule().ok()?;
    let mut out = MemSink::new(alloc, Vec::new(alloc), 4096);
    write_whole(alloc, &cluster, &mut out).ok()?;
    out.bytes().to_vec(alloc).ok()
}

#[test]
fn nodes_run_beside_each_other(rt: HostRuntime) -> Result<(), Fail> {
    let flags = Flags {
        begun: [AtomicU64::new(0), AtomicU64::new(0)],
        seen: [AtomicU64::new(0), AtomicU64::new(0)],
    };
    let alloc = rt.alloc();
    let text = with_schedule(alloc, "")?;
    let case = plain(&["16"], text.as_slice());
    let clocks = clocks_at(alloc, 1000)?;
    let came = raced(&rt, alloc, &case, clocks, meetings(alloc, &flags)?)?;
    assert_eq!(rt; came.status, Status::Ok);
    assert_eq!(rt;
        (
            flags.seen[0].load(Ordering::SeqCst),
            flags.seen[1].load(Ordering::SeqCst)
        ),
        (1, 1)
    );
    check_again(&rt, came.out.as_slice())
}

/// The race ended with nothing left, and its journal is a schedule whose run writes the same.
fn check_again(rt: &(impl Abort + AllocGlobal), out: &[u8]) -> Result<(), Fail> {
    let lines = str::from_utf8(out).unwrap_or("");
    assert!(rt; lines.contains(" held=0 unbegun=0 "));
    let text = with_schedule(rt.alloc(), lines)?;
    match journal_of(rt.alloc(), text.as_slice()) {
        Some(again) => assert_eq!(rt; again.as_slice(), out),
        None => assert!(rt; false),
    }
    Ok(())
}
