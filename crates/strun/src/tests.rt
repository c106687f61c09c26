//! Whole calls of the program over a source and sinks in memory.
//! The texts stand in tables, each behind a call: a proof then has none of them in sight.

use crate::tops::top;
use std::alloc::{AllocError, Global};
use std::process::Abort;
use std::test::Fail;
use str_outer::{MemSink, MemSource};
use top_status::Status;

/// The words of a call.
pub(crate) type Words = &'static [&'static str];

const EMPTY: &[u8] = b"str 1\nnodes 1\npart 1 1\nschedule\ndrain\nend\n";

const EMPTY_END: &[u8] = b"end commits=0 aborts=0 held=0 unbegun=0 messages=0\n";

const OVERLAP: &[u8] =
    b"str 1\nnodes 1\npart 1 1\nsession 1\ntx\nput a@1 1\nsession 1\ntx\nput a@1 2\nschedule\nc 1 10\nc 2 10\ndrain\nend\n";

const OVERLAP_LINES: &[u8] =
    b"1.1 s1/1 commit rs=10 fc=11\n1.2 s2/1 abort rs=10 conflict 1.1 a@1 at=1\nend commits=1 aborts=1 held=0 unbegun=0 messages=0\n";

const EARLY: &[u8] =
    b"str 1\nnodes 3\npart 1 2\npart 2 3\nsession 1\ntx\nput a@1 1\nsession 1\ntx\nget a@1\nput b@2 7\nschedule\n\
    c 1 10\nc 1 0\nc 1 0\nc 2 0\nc 2 0\nc 2 0\nc 2 0\nd 2\nd 3\nd 1\nd 4\ndrain\nend\n";

const EARLY_LINES: &[u8] =
    b"1.1 s1/1 commit rs=10 fc=11\n1.2 s2/1 commit rs=11 fc=12 a@1=1\nend commits=2 aborts=0 held=0 unbegun=0 messages=6\n";

/// One node, one partition, one session that puts 5, one client step, the drain.
const ONE_PUT: &[u8] =
    b"str 1\nnodes 1\npart 1 1\nsession 1\ntx\nput a@1 5\nschedule\nc 1 10\ndrain\nend\n";

const ONE_PUT_FRAMES: &[u8] =
    b"STRF\x01\x01\x00\x01\x01\x02\x00\x01\x01\x03\x00\x01\x01\x04\x00\x0c\x02\x01\x01a\x00\x00\x00\x00\x00\x00\x00\x05\x05\x00\x09\x01\x00\x00\x00\x00\x00\x00\x00\x0a\x07\x00\x00\x08\x00\x00";

const ONE_PUT_LINES: &[u8] =
    b"1.1 s1/1 commit rs=10 fc=11\nend commits=1 aborts=0 held=0 unbegun=0 messages=0\n";

const ONE_PUT_JOURNAL: &[u8] =
    b"j c 1 10\nj c 1 0\nj c 1 0\n1.1 s1/1 commit rs=10 fc=11\nend commits=1 aborts=0 held=0 unbegun=0 messages=0\n";

const EARLY_JOURNAL: &[u8] =
    b"j c 1 10\nj c 1 0\nj c 1 0\nj c 2 0\nj c 2 0\nj c 2 0\nj c 2 0\nj d 2\nj d 3\nj d 1\nj d 4\n\
    1.1 s1/1 commit rs=10 fc=11\n1.2 s2/1 commit rs=11 fc=12 a@1=1\nj d 5\nj d 6\nend commits=2 aborts=0 held=0 unbegun=0 messages=6\n";

/// An opening, a transfer of 30 and a statement.
const BANK: &[u8] =
    b"str 1\nnodes 1\npart 1 1\nsession 1\ntx\nput a@1 100\nput b@1 0\nsession 1\ntx\nneed a@1 30\nadd a@1 -30\nadd b@1 30\n\
    tx\nget a@1\nget b@1\nschedule\nc 1 10\ndrain\nend\n";

const BANK_LINES: &[u8] =
    b"1.1 s1/1 commit rs=10 fc=11\n1.2 s2/1 commit rs=11 fc=12\n1.3 s2/2 commit rs=12 fc=- a@1=70 b@1=30\n\
    end commits=3 aborts=0 held=0 unbegun=0 messages=0\nbalance a@1=70\nbalance b@1=30\nbank total=100\n";

/// The same accounts and a put, which is neither a transfer nor a statement.
const NO_BANK: &[u8] =
    b"str 1\nnodes 1\npart 1 1\nsession 1\ntx\nput a@1 100\nput b@1 0\nsession 1\ntx\nget a@1\nget b@1\ntx\nput a@1 1\nschedule\nend\n";

/// Two sums on one key, of which one commits and the other aborts.
const PAST: &[u8] =
    b"str 1\nnodes 1\npart 1 1\nsession 1\ntx\nadd a@1 1\nsession 1\ntx\nadd a@1 1\nschedule\nc 1 10\nc 2 10\ndrain\nend\n\
    1.1 s1/1 commit rs=10 fc=11\n1.2 s2/1 abort rs=10 conflict 1.1 a@1 at=1\nend commits=1 aborts=1 held=0 unbegun=0 messages=0\n";

/// The same with answers of which both commit, and so overlap.
const NO_PAST: &[u8] =
    b"str 1\nnodes 1\npart 1 1\nsession 1\ntx\nadd a@1 1\nsession 1\ntx\nadd a@1 1\nschedule\nc 1 10\nc 2 10\ndrain\nend\n\
    1.1 s1/1 commit rs=10 fc=11\n1.2 s2/1 commit rs=10 fc=12\nend commits=2 aborts=0 held=0 unbegun=0 messages=0\n";

const HOLDS: &[u8] = b"si yes answers=2\n";

const HOLDS_NOT: &[u8] = b"si no answer=2 clause=I3\n";

/// A session that writes one key three times at the only node.
const THREE_PUTS: &[u8] =
    b"str 1\nnodes 1\npart 1 1\nsession 1\ntx\nput a@1 1\ntx\nput a@1 2\ntx\nput a@1 3\nschedule\nc 1 10\ndrain\nend\n";

const THREE_PUTS_LINES: &[u8] =
    b"1.1 s1/1 commit rs=10 fc=11\n1.2 s1/2 commit rs=11 fc=12\n1.3 s1/3 commit rs=12 fc=13\n\
    end commits=3 aborts=0 held=0 unbegun=0 messages=0\nkept versions=1\n";

/// Calls by their words and inputs, with what each writes.
static ANSWERED: [(Words, &[u8], &[u8]); 15] = [
    (&["run"], EMPTY, EMPTY_END),
    (&["run"], OVERLAP, OVERLAP_LINES),
    (&["run"], EARLY, EARLY_LINES),
    (&["run", "--journal"], EARLY, EARLY_JOURNAL),
    (&["run", "--frames"], ONE_PUT_FRAMES, ONE_PUT_LINES),
    (
        &["run", "--frames", "--journal"],
        ONE_PUT_FRAMES,
        ONE_PUT_JOURNAL,
    ),
    (&["run", "--prune"], THREE_PUTS, THREE_PUTS_LINES),
    (&["pack"], ONE_PUT, ONE_PUT_FRAMES),
    (&["show"], ONE_PUT_FRAMES, ONE_PUT),
    (&["bank"], BANK, BANK_LINES),
    (&["audit"], PAST, HOLDS),
    (&["audit"], NO_PAST, HOLDS_NOT),
    (&["at", "11"], PAST, b"a@1=1\nat 11 keys=1\n"),
    (&["at", "10"], PAST, b"at 10 keys=0\n"),
    (&["at", "11"], NO_PAST, HOLDS_NOT),
];

/// Calls of which a write fails: which one, and how many bytes of the answer were written before it.
static UNWRITTEN: [(Words, &[u8], &[u8], u64, usize); 5] = [
    (&["pack"], ONE_PUT, ONE_PUT_FRAMES, 2, 16),
    (&["run", "--journal"], EARLY, EARLY_JOURNAL, 3, 32),
    (&["run", "--prune"], THREE_PUTS, THREE_PUTS_LINES, 10, 135),
    (&["bank"], BANK, BANK_LINES, 12, 164),
    (&["audit"], PAST, HOLDS, 2, 16),
];

/// Inputs that are refused, each with its line.
static REFUSED: [(Words, &[u8], &[u8]); 20] = [
    (&["run"], b"", b"strun: line 1: cut\n"),
    (&["run"], b"str 3\n", b"strun: line 1: form\n"),
    (&["run"], b"str 1\nnodes 01\n", b"strun: line 2: form\n"),
    (&["run"], b"str 1\nnodes 9\n", b"strun: line 2: range\n"),
    (&["run"], b"str 1\nnodes 2\n", b"strun: line 3: cut\n"),
    (
        &["run"],
        b"str 1\nnodes 1\npart 1 1 1\nsession 1\ntx\nput a@1 5\nschedule\nc 1 10\ndrain\nend\n",
        b"strun: line 3: range\n",
    ),
    (
        &["run"],
        b"str 1\nnodes 1\npart 1 1\nsched",
        b"strun: line 4: cut\n",
    ),
    (
        &["run"],
        b"str 1\nnodes 1\npart 1 1\nschedule\nend\nend\n",
        b"strun: line 6: form\n",
    ),
    (
        &["run"],
        b"str 1\nnodes 1\npart 1 1\nsession 1\ntx\nputs a@1 x6869\nschedule\nend\n",
        b"strun: line 6: form\n",
    ),
    (
        &["run"],
        b"str 1\nnodes 1\npart 1 1\nsession 1\ntx\nschedule\nc 1 10\ndrain\nend\n",
        b"strun: line 6: form\n",
    ),
    (
        &["run"],
        b"str 1\nnodes 1\npart 1 1\nsession 1\ntx\nput a@1 5\nschedule\nc 2 0\ndrain\nend\n",
        b"strun: line 8: range\n",
    ),
    (
        &["run"],
        b"str 1\nnodes 1\npart 1 1\nsession 1\ntx\nput a@1 5\nschedule\nd 0\ndrain\nend\n",
        b"strun: line 8: range\n",
    ),
    (
        &["run"],
        b"str 1\nnodes 1\npart 1 1\nsession 1\ntx\nput a@1 5\nschedule\nc 1 18446744073709551616\ndrain\nend\n",
        b"strun: line 8: range\n",
    ),
    (
        &["run"],
        b"str 1\nnodes 1\npart 1 1\nsession 1\ntx\nput a@1 5\nschedule\nc 1 10\ndrain\nend\nend\n",
        b"strun: line 11: form\n",
    ),
    (
        &["show"],
        b"STRF\x01\x01\x00\x01\x01\x02\x00\x01\x01\x03\x00\x01\x01\x04\x00\x0c\x02\x01\x01a\x00\x00\x00\x00\x00\x00\x00\x05\x05\x00\x09\x01\x00\x00\x00\x00\x00\x00\x00\x0a\x07\x00\x00\x08\x00\x00\x00",
        b"strun: byte 50: form\n",
    ),
    (&["pack"], ONE_PUT_FRAMES, b"strun: line 1: form\n"),
    (&["bank"], NO_BANK, b"strun: transaction 2/2: not a bank\n"),
    (
        &["bank"],
        b"str 1\nnodes 1\npart 1",
        b"strun: line 3: cut\n",
    ),
    (
        &["at", "11"],
        b"str 1\nnodes 1\npart 1 1\nsession 1\ntx\nadd a@1 1\nschedule\nend\n1.1 s1/1 com",
        b"strun: line 9: cut\n",
    ),
    (&["audit"], EMPTY, b"strun: line 7: cut\n"),
];

/// Words that are those of no call.
static NO_WORDS: [Words; 8] = [
    &[],
    &["walk"],
    &["pack", "--frames"],
    &["run", "--journal", "--frames"],
    &["run", "--frames", "--prune"],
    &["gen", "07"],
    &["gen", "-1"],
    &["at", "011"],
];

/// The last line of the run of the scene that is made of 7.
static SEVEN_END: [u8; 57] = *b"end commits=287 aborts=13 held=0 unbegun=0 messages=1451\n";

fn answered() -> &'static [(Words, &'static [u8], &'static [u8])] {
    &ANSWERED
}

fn unwritten() -> &'static [(Words, &'static [u8], &'static [u8], u64, usize)] {
    &UNWRITTEN
}

fn refused() -> &'static [(Words, &'static [u8], &'static [u8])] {
    &REFUSED
}

fn no_words() -> &'static [Words] {
    &NO_WORDS
}

fn seven_end() -> &'static [u8] {
    &SEVEN_END
}

/// A call: its words, its input, which read and which write are to fail (0: none), and what comes of it.
#[derive(Clone, Copy)]
pub(crate) struct Call {
    pub(crate) words: Words,
    pub(crate) text: &'static [u8],
    pub(crate) failing_read: u64,
    pub(crate) failing_write: u64,
    pub(crate) status: Status,
    pub(crate) out: &'static [u8],
    pub(crate) err: &'static [u8],
}

/// A call that is answered, where nothing fails.
pub(crate) fn answer(words: Words, text: &'static [u8], out: &'static [u8]) -> Call {
    Call {
        words,
        text,
        failing_read: 0,
        failing_write: 0,
        status: Status::Ok,
        out,
        err: b"",
    }
}

/// A one-element list, or none where the number is 0.
fn failing(alloc: Global, call: u64) -> Result<Vec<u64>, AllocError> {
    let mut calls = Vec::new(alloc);
    if call > 0 {
        calls.push(call)?;
    }
    Ok(calls)
}

/// The words, owned.
fn owned(alloc: Global, texts: &[&str]) -> Result<Vec<String>, AllocError> {
    let mut words = Vec::new(alloc);
    for text in texts {
        words.push(String::from_str(alloc, *text)?)?;
    }
    Ok(words)
}

pub(crate) fn check(rt: &(impl Abort + AllocGlobal), call: &Call) -> Result<(), Fail> {
    let words = owned(rt.alloc(), call.words)?;
    let text = call.text.to_vec(rt.alloc())?;
    let mut src = MemSource::new(text, failing(rt.alloc(), call.failing_read)?, 8);
    let mut out = MemSink::new(rt.alloc(), failing(rt.alloc(), call.failing_write)?, 16);
    let mut err = MemSink::new(rt.alloc(), Vec::new(rt.alloc()), 16);
    let status = top(rt.alloc(), words.as_slice(), &mut src, &mut out, &mut err);
    assert_eq!(rt; status, call.status);
    assert_eq!(rt; out.bytes(), call.out);
    assert_eq!(rt; err.bytes(), call.err);
    Ok(())
}

#[test]
fn calls_are_answered(rt: HostRuntime) -> Result<(), Fail> {
    for (words, text, out) in answered() {
        check(&rt, &answer(words, text, out))?;
    }
    Ok(())
}

#[test]
fn a_write_fails(rt: HostRuntime) -> Result<(), Fail> {
    for (words, text, out, failing_write, held) in unwritten() {
        assert!(rt; *held <= out.len());
        let call = Call {
            failing_write: *failing_write,
            status: Status::WriteFault,
            err: b"strun: write fault\n",
            ..answer(words, text, &out[..*held])
        };
        check(&rt, &call)?;
    }
    Ok(())
}

#[test]
fn inputs_are_refused(rt: HostRuntime) -> Result<(), Fail> {
    for (words, text, err) in refused() {
        let call = Call {
            status: Status::Refused,
            err,
            ..answer(words, text, b"")
        };
        check(&rt, &call)?;
    }
    Ok(())
}

#[test]
fn words_of_no_call(rt: HostRuntime) -> Result<(), Fail> {
    // Nothing is read: the first read would fail.
    for words in no_words() {
        let call = Call {
            failing_read: 1,
            status: Status::Usage,
            err: b"strun: usage\n",
            ..answer(words, b"x", b"")
        };
        check(&rt, &call)?;
    }
    Ok(())
}

#[test]
fn a_scene_is_made_and_run(rt: HostRuntime) -> Result<(), Fail> {
    // Nothing is read: the first read would fail.
    let call = Call {
        failing_read: 1,
        ..answer(&["gen", "7", "--run"], b"x", seven_end())
    };
    check(&rt, &call)
}

/// What a call writes of a text, in a few writes.
pub(crate) fn output_of(alloc: Global, words: &[&str], text: Vec<u8>) -> Result<Vec<u8>, Fail> {
    let words = owned(alloc, words)?;
    let mut src = MemSource::new(text, Vec::new(alloc), 65_536);
    let mut out = MemSink::new(alloc, Vec::new(alloc), 65_536);
    let mut err = MemSink::new(alloc, Vec::new(alloc), 65_536);
    let _ = top(alloc, words.as_slice(), &mut src, &mut out, &mut err);
    Ok(out.bytes().to_vec(alloc)?)
}

#[test]
fn a_made_text_is_run(rt: HostRuntime) -> Result<(), Fail> {
    let text = output_of(rt.alloc(), &["gen", "7"], Vec::new(rt.alloc()))?;
    let lines = output_of(rt.alloc(), &["run"], text)?;
    assert!(rt; lines.as_slice().ends_with(seven_end()));
    Ok(())
}
