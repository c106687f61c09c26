//! Scenes built item by item, and each refusal.
//! The items stand in tables, each behind a call: a proof then has none of them in sight.

use crate::build::SceneBuild;
use crate::faults::SceneFault;
use crate::names::{Event, Op, OpList};
use partition_map::PartRow;
use std::test::Fail;
use str_base::{KeyId, NodeId, PartId, SessionId, TextId};

/// An item of a scene.
#[derive(Clone, Copy)]
enum Item<'a> {
    Nodes(u8),
    Part(&'a [u8]),
    Session(u8),
    Key(&'a [u8], u8),
    Text(&'a [u8]),
    Tx(Op),
    NoTx,
    Client(u8),
    Deliver(u64),
    Drain,
}

/// An item, and its answer.
type Row = (Item<'static>, Result<u32, SceneFault>);

const FORM: Result<u32, SceneFault> = Err(SceneFault::Form);

const RANGE: Result<u32, SceneFault> = Err(SceneFault::Range);

const COUNT: Result<u32, SceneFault> = Err(SceneFault::Count);

fn row(nodes: &[u8]) -> PartRow {
    let mut row = PartRow::new();
    for node in nodes {
        if row.len() < 8 {
            row.push(NodeId(*node));
        }
    }
    row
}

fn script(op: Op) -> OpList {
    let mut ops = OpList::new();
    ops.push(op);
    ops
}

fn event(session: u8) -> Event {
    Event::Client {
        session: SessionId(session),
        reading: 7,
    }
}

fn zero(answer: Result<(), SceneFault>) -> Result<u32, SceneFault> {
    answer?;
    Ok(0)
}

fn key(build: &mut SceneBuild, name: &[u8], part: u8) -> Result<u32, SceneFault> {
    let key = build.key(name, PartId(part))?;
    Ok(key.0)
}

fn text(build: &mut SceneBuild, bytes: &[u8]) -> Result<u32, SceneFault> {
    let text = build.text(bytes)?;
    Ok(text.0)
}

/// Gives an item, and answers the number of a key or a byte string, and 0 for others.
fn give(build: &mut SceneBuild, item: Item) -> Result<u32, SceneFault> {
    match item {
        Item::Nodes(n) => zero(build.nodes(n)),
        Item::Part(nodes) => zero(build.part(row(nodes))),
        Item::Session(node) => zero(build.session(NodeId(node))),
        Item::Key(name, part) => key(build, name, part),
        Item::Text(bytes) => text(build, bytes),
        Item::Tx(op) => zero(build.tx(script(op))),
        Item::NoTx => zero(build.tx(OpList::new())),
        Item::Client(session) => zero(build.entry(event(session))),
        Item::Deliver(index) => zero(build.entry(Event::Deliver { index })),
        Item::Drain => zero(build.drain()),
    }
}

/// Gives items in order. Whether each of them has its answer.
fn answers(build: &mut SceneBuild, items: &[Row]) -> bool {
    for (item, want) in items {
        if give(build, *item) != *want {
            return false;
        }
    }
    true
}

/// Gives an item so often. Whether it is taken each time.
fn repeat(build: &mut SceneBuild, item: Item, times: u32) -> bool {
    for _ in 0..times {
        if give(build, item) != Ok(0) {
            return false;
        }
    }
    true
}

/// A beginning of a scene.
static BEGUN: [Row; 3] = [
    (Item::Nodes(5), Ok(0)),
    (Item::Part(&[1]), Ok(0)),
    (Item::Session(1), Ok(0)),
];

/// A whole scene.
static WHOLE: [Row; 16] = [
    (Item::Nodes(2), Ok(0)),
    (Item::Part(&[2, 1]), Ok(0)),
    (Item::Part(&[1]), Ok(0)),
    (Item::Session(1), Ok(0)),
    (Item::Key(b"a", 1), Ok(0)),
    (Item::Text(b"hi"), Ok(0)),
    (Item::Tx(Op::Puts(KeyId(0), TextId(0))), Ok(0)),
    (Item::Session(2), Ok(0)),
    (Item::Key(b"a", 1), Ok(0)),
    (Item::Tx(Op::Add(KeyId(0), -1)), Ok(0)),
    (Item::Key(b"a", 2), Ok(1)),
    (Item::Tx(Op::Need(KeyId(1), 5)), Ok(0)),
    (Item::Text(b"hi"), Ok(0)),
    (Item::Client(2), Ok(0)),
    (Item::Deliver(1), Ok(0)),
    (Item::Drain, Ok(0)),
];

/// Items at wrong places, and others between them.
static MISPLACED: [Row; 22] = [
    (Item::Part(&[1]), FORM),
    (Item::Nodes(1), Ok(0)),
    (Item::Nodes(9), FORM),
    (Item::Session(1), FORM),
    (Item::Client(1), FORM),
    (Item::Drain, FORM),
    (Item::Part(&[]), FORM),
    (Item::Part(&[1]), Ok(0)),
    (Item::Tx(Op::Abort), FORM),
    (Item::Key(b"a", 1), FORM),
    (Item::Text(b"a"), FORM),
    (Item::Session(1), Ok(0)),
    (Item::Part(&[1]), FORM),
    (Item::NoTx, FORM),
    (Item::Tx(Op::Puts(KeyId(9), TextId(9))), FORM),
    (Item::Client(1), Ok(0)),
    (Item::Session(9), FORM),
    (Item::Tx(Op::Abort), FORM),
    (Item::Key(b"a", 9), FORM),
    (Item::Drain, Ok(0)),
    (Item::Client(1), FORM),
    (Item::Drain, FORM),
];

/// Numbers out of range, and others between them.
static OUTSIDE: [Row; 24] = [
    (Item::Nodes(0), RANGE),
    (Item::Nodes(9), RANGE),
    (Item::Nodes(2), Ok(0)),
    (Item::Part(&[3]), RANGE),
    (Item::Part(&[1, 0]), RANGE),
    (Item::Part(&[1, 1]), RANGE),
    (Item::Part(&[1, 2]), Ok(0)),
    (Item::Session(0), RANGE),
    (Item::Session(3), RANGE),
    (Item::Session(2), Ok(0)),
    (Item::Key(b"a", 0), RANGE),
    (Item::Key(b"a", 2), RANGE),
    (Item::Key(b"1", 1), RANGE),
    (Item::Key(b"a23456789_1234567", 1), RANGE),
    (Item::Text(&[0; 65]), RANGE),
    (Item::Tx(Op::Get(KeyId(0))), RANGE),
    (Item::Key(b"a23456789_123456", 1), Ok(0)),
    (Item::Tx(Op::Del(KeyId(1))), RANGE),
    (Item::Tx(Op::Puts(KeyId(0), TextId(0))), RANGE),
    (Item::Text(&[0; 64]), Ok(0)),
    (Item::Tx(Op::Puts(KeyId(0), TextId(0))), Ok(0)),
    (Item::Client(0), RANGE),
    (Item::Client(2), RANGE),
    (Item::Deliver(0), RANGE),
];

/// What a table of keys and one of byte strings take that are full.
static FULL: [Row; 4] = [
    (Item::Key(b"zzz", 1), COUNT),
    (Item::Text(b"zzz"), COUNT),
    (Item::Key(b"aab", 1), Ok(1)),
    (Item::Text(b"aab"), Ok(1)),
];

/// What follows the beginning, and whether a scene ends with it.
static ENDS: [(&[Row], bool); 5] = [
    (&[], true),
    (
        &[
            (Item::Key(b"a", 1), Ok(0)),
            (Item::Key(b"b", 1), Ok(1)),
            (Item::Tx(Op::Get(KeyId(0))), Ok(0)),
            (Item::Tx(Op::Get(KeyId(1))), Ok(0)),
        ],
        true,
    ),
    (
        &[
            (Item::Key(b"a", 1), Ok(0)),
            (Item::Key(b"b", 1), Ok(1)),
            (Item::Tx(Op::Get(KeyId(1))), Ok(0)),
            (Item::Tx(Op::Get(KeyId(0))), Ok(0)),
        ],
        false,
    ),
    (
        &[
            (Item::Key(b"a", 1), Ok(0)),
            (Item::Key(b"b", 1), Ok(1)),
            (Item::Tx(Op::Get(KeyId(0))), Ok(0)),
        ],
        false,
    ),
    (&[(Item::Text(b"a"), Ok(0))], false),
];

fn begun() -> &'static [Row] {
    &BEGUN
}

fn whole() -> &'static [Row] {
    &WHOLE
}

fn misplaced() -> &'static [Row] {
    &MISPLACED
}

fn outside() -> &'static [Row] {
    &OUTSIDE
}

fn full() -> &'static [Row] {
    &FULL
}

fn ends() -> &'static [(&'static [Row], bool)] {
    &ENDS
}

#[test]
fn a_whole_scene(rt: HostRuntime) -> Result<(), Fail> {
    let mut build = SceneBuild::new(rt.alloc(), 2);
    assert!(rt; answers(&mut build, whole()));
    assert_eq!(rt; build.parts(), 2);
    assert_eq!(rt; build.sessions(), 2);
    assert_eq!(rt; build.transactions(), 3);
    let scene = build.finish()?;
    let mut spelled = Vec::new(rt.alloc());
    scene.keys().push_key(KeyId(1), &mut spelled)?;
    scene.keys().push_text(TextId(0), &mut spelled)?;
    assert_eq!(rt; spelled.as_slice(), b"a@2x6869".as_slice());
    Ok(())
}

#[test]
fn items_at_wrong_places(rt: HostRuntime) -> Result<(), Fail> {
    let mut build = SceneBuild::new(rt.alloc(), 1);
    assert!(rt; answers(&mut build, misplaced()));
    assert!(rt; build.finish().is_ok());
    Ok(())
}

#[test]
fn numbers_out_of_range(rt: HostRuntime) -> Result<(), Fail> {
    let mut build = SceneBuild::new(rt.alloc(), 2);
    assert!(rt; answers(&mut build, outside()));
    assert!(rt; build.finish().is_ok());
    Ok(())
}

#[test]
fn too_many_partitions_and_sessions(rt: HostRuntime) -> Result<(), Fail> {
    let mut build = SceneBuild::new(rt.alloc(), 1);
    assert!(rt; answers(&mut build, &[(Item::Nodes(5), Ok(0))]));
    assert!(rt; repeat(&mut build, Item::Part(&[1]), 32));
    assert!(rt; answers(&mut build, &[(Item::Part(&[1]), COUNT)]));
    for node in 1..5 {
        assert!(rt; repeat(&mut build, Item::Session(node), 16));
        assert!(rt; answers(&mut build, &[(Item::Session(node), COUNT)]));
    }
    assert!(rt; answers(&mut build, &[(Item::Session(5), COUNT)]));
    Ok(())
}

#[test]
fn too_many_transactions_and_entries(rt: HostRuntime) -> Result<(), Fail> {
    let mut build = SceneBuild::new(rt.alloc(), 1);
    assert!(rt; answers(&mut build, begun()));
    assert!(rt; repeat(&mut build, Item::Tx(Op::Abort), 1024));
    assert!(rt; answers(&mut build, &[(Item::Tx(Op::Abort), COUNT)]));
    assert!(rt; repeat(&mut build, Item::Client(1), 65_536));
    assert!(rt; answers(&mut build, &[(Item::Client(1), COUNT)]));
    Ok(())
}

fn many_keys(build: &mut SceneBuild, first: u8, letters: &[u8]) {
    for second in letters {
        for third in letters {
            let name = [first, *second, *third];
            let _ = key(build, &name, 1);
            let _ = text(build, &name);
        }
    }
}

#[test]
fn too_many_keys_and_texts(rt: HostRuntime) -> Result<(), Fail> {
    let mut build = SceneBuild::new(rt.alloc(), 1);
    assert!(rt; answers(&mut build, begun()));
    let letters = b"abcdefghijklmnopqrstuvwxyz";
    for first in letters {
        many_keys(&mut build, *first, letters);
    }
    assert_eq!(rt; build.keys().len(), 16_384);
    assert_eq!(rt; build.keys().texts(), 16_384);
    assert!(rt; answers(&mut build, full()));
    Ok(())
}

/// Whether the items are taken and a scene ends with them.
fn is_ended(rt: &HostRuntime, items: &[Row]) -> bool {
    let mut build = SceneBuild::new(rt.alloc(), 1);
    answers(&mut build, begun()) && answers(&mut build, items) && build.finish().is_ok()
}

#[test]
fn ends_of_no_scene(rt: HostRuntime) -> Result<(), Fail> {
    for (items, ended) in ends() {
        assert_eq!(rt; is_ended(&rt, items), *ended);
    }
    Ok(())
}
