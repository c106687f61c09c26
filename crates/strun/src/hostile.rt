//! What a hostile environment gets: reads and writes that fail at each call, frames cut at each byte, cut schedules.
//! The texts stand in tables, each behind a call: a proof then has none of them in sight.

use crate::tests::{Call, answer, check, output_of};
use std::test::Fail;
use top_status::Status;

/// A remote commit aborts a local writer, and with it three that have read from one another.
static CASCADE: [u8; 257] =
    *b"str 1\nnodes 2\npart 1 1\nsession 1\ntx\nput a@1 1\nsession 2\ntx\nput a@1 2\n\
    session 2\ntx\nadd a@1 10\nsession 2\ntx\nadd a@1 10\nsession 2\ntx\nget a@1\nschedule\n\
    c 2 10\nc 2 0\nc 2 0\nc 3 0\nc 3 0\nc 3 0\nc 4 0\nc 4 0\nc 4 0\nc 5 0\nc 5 0\nc 5 0\n\
    c 1 20\nc 1 0\nc 1 0\nd 1\nd 2\ndrain\nend\n";

static CASCADE_LINES: [u8; 212] =
    *b"1.1 s1/1 commit rs=20 fc=21\n2.1 s2/1 abort rs=10 conflict 1.1 a@1 at=1\n\
    2.2 s3/1 abort rs=11 lost 2.1\n2.3 s4/1 abort rs=12 lost 2.1\n2.4 s5/1 abort rs=13 lost 2.1\n\
    end commits=1 aborts=4 held=0 unbegun=0 messages=3\n";

/// The frames of a scene with one put.
static FRAMES: [u8; 50] =
    *b"STRF\x01\x01\x00\x01\x01\x02\x00\x01\x01\x03\x00\x01\x01\x04\x00\x0c\x02\x01\x01a\x00\x00\x00\x00\x00\x00\x00\x05\x05\x00\x09\x01\x00\x00\x00\x00\x00\x00\x00\x0a\x07\x00\x00\x08\x00\x00";

/// Where the frames of a scene that is cut off at this byte or later, and before the next one, are said to be cut.
static CUTS: [(usize, &[u8]); 8] = [
    (0, b"strun: byte 0: cut\n"),
    (5, b"strun: byte 5: cut\n"),
    (9, b"strun: byte 9: cut\n"),
    (13, b"strun: byte 13: cut\n"),
    (17, b"strun: byte 17: cut\n"),
    (32, b"strun: byte 32: cut\n"),
    (44, b"strun: byte 44: cut\n"),
    (47, b"strun: byte 47: cut\n"),
];

/// A scene of three nodes, before its schedule, which is cut.
static BEFORE_SCHEDULE: [u8; 120] =
    *b"str 1\nnodes 3\npart 1 1 2\npart 2 3\nsession 1\ntx\nput a@1 1\nput b@2 1\n\
    session 3\ntx\nput b@2 2\nsession 2\ntx\nget a@1\nschedule\n";

static SCHEDULE: [&[u8]; 14] = [
    b"c 1 10\n",
    b"c 1 0\n",
    b"c 1 0\n",
    b"c 1 0\n",
    b"c 2 20\n",
    b"c 2 0\n",
    b"c 2 0\n",
    b"d 2\n",
    b"d 3\n",
    b"d 4\n",
    b"d 1\n",
    b"d 1\n",
    b"c 3 30\n",
    b"c 3 0\n",
];

static WHOLE_ANSWERS: [u8; 107] =
    *b"3.1 s2/1 commit rs=20 fc=21\n1.1 s1/1 abort rs=10 conflict 3.1 b@2 at=3\n2.1 s3/1 commit rs=30 fc=- a@1=none\n";

fn cascade() -> &'static [u8] {
    &CASCADE
}

fn cascade_lines() -> &'static [u8] {
    &CASCADE_LINES
}

fn frames() -> &'static [u8] {
    &FRAMES
}

fn cuts() -> &'static [(usize, &'static [u8])] {
    &CUTS
}

fn before_schedule() -> &'static [u8] {
    &BEFORE_SCHEDULE
}

fn schedule() -> &'static [&'static [u8]] {
    &SCHEDULE
}

fn whole_answers() -> &'static [u8] {
    &WHOLE_ANSWERS
}

#[test]
fn each_write_of_a_cascade_fails(rt: HostRuntime) -> Result<(), Fail> {
    let lines = cascade_lines();
    let writes = lines.len().div_ceil(16) as u64;
    for failing_write in 1..=writes {
        let held = (failing_write as usize - 1)
            .saturating_mul(16)
            .min(lines.len());
        let call = Call {
            failing_write,
            status: Status::WriteFault,
            err: b"strun: write fault\n",
            ..answer(&["run"], cascade(), &lines[..held])
        };
        check(&rt, &call)?;
    }
    let call = Call {
        failing_write: writes.saturating_add(1),
        ..answer(&["run"], cascade(), lines)
    };
    check(&rt, &call)
}

#[test]
fn each_read_of_a_cascade_fails(rt: HostRuntime) -> Result<(), Fail> {
    // The read behind the last one that gives bytes tells of the end.
    let reads = (cascade().len().div_ceil(8) as u64).saturating_add(1);
    for failing_read in 1..=reads {
        let call = Call {
            failing_read,
            status: Status::ReadFault,
            err: b"strun: read fault\n",
            ..answer(&["run"], cascade(), b"")
        };
        check(&rt, &call)?;
    }
    let call = Call {
        failing_read: reads.saturating_add(1),
        ..answer(&["run"], cascade(), cascade_lines())
    };
    check(&rt, &call)
}

/// The line for frames of which this many bytes are left.
fn cut_line(left: usize) -> &'static [u8] {
    let mut line: &'static [u8] = b"";
    for (place, said) in cuts() {
        if *place <= left {
            line = said;
        }
    }
    line
}

#[test]
fn frames_cut_at_each_byte(rt: HostRuntime) -> Result<(), Fail> {
    let whole = frames();
    for left in 0..whole.len() {
        let call = Call {
            status: Status::Refused,
            err: cut_line(left),
            ..answer(&["show"], &whole[..left], b"")
        };
        check(&rt, &call)?;
    }
    Ok(())
}

#[test]
fn cut_schedules(rt: HostRuntime) -> Result<(), Fail> {
    for entries in 0..=schedule().len() {
        let mut text = before_schedule().to_vec(rt.alloc())?;
        for entry in schedule().iter().take(entries) {
            text.extend_from_slice(entry)?;
        }
        text.extend_from_slice(b"end\n")?;
        let lines = output_of(rt.alloc(), &["run"], text)?;
        let end = lines
            .as_slice()
            .split_inclusive(|b| *b == b'\n')
            .last()
            .map_or(0, |line| line.len());
        assert!(rt; end <= lines.len());
        let answers = &lines.as_slice()[..lines.len() - end];
        assert!(rt;
            whole_answers().starts_with(answers),
            "after entry {entries}"
        );
    }
    Ok(())
}
