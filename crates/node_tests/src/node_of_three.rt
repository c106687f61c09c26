//! A slave among three nodes, and messages that no node sent.

use crate::drives::{IDLE, Row, check, node_of};
use crate::letters::{Given, LIMIT, Letter};
use node_core::Node;
use std::process::Abort;
use std::test::Fail;
use str_base::{KeyId, Value};

/// Node 2 is a slave of partition 1 alone. Session 3 is its own.
static SCENE: [u8; 124] =
    *b"str 1\nnodes 3\npart 1 1 2\npart 2 3\nsession 1\ntx\nput a@1 1\nput b@2 1\n\
    session 3\ntx\nput b@2 2\nsession 2\ntx\nget a@1\nschedule\nend\n";

const A: KeyId = KeyId(0);

const B: KeyId = KeyId(1);

const ONE: Value = Value::Num(1);

/// What node 2 is given where the Abort of 1.1 comes before its Replicate, and that twice.
static ROWS: [Row; 6] = [
    (Given::Sent(1, 2, Letter::Abort((1, 1), 1)), b""),
    (
        Given::Sent(1, 2, Letter::Replicate((1, 1), 1, 10, 11, &[(A, ONE)])),
        IDLE,
    ),
    (
        Given::Sent(1, 2, Letter::Replicate((1, 1), 1, 10, 11, &[(A, ONE)])),
        IDLE,
    ),
    (Given::Client(3, 30), b""),
    (Given::Client(3, 0), b""),
    (
        Given::Client(3, 0),
        b"2.1 s3/1 commit rs=30 fc=- a@1=none\n",
    ),
];

/// Messages that node 2 never takes.
static STRANGERS: [Given; 9] = [
    Given::Sent(1, 3, Letter::Abort((1, 1), 1)),
    Given::Sent(1, 2, Letter::Replicate((1, 9), 1, 5, 6, &[])),
    Given::Sent(1, 2, Letter::Replicate((1, 9), 2, 5, 6, &[(B, ONE)])),
    Given::Sent(1, 2, Letter::Commit((2, 1), 1, 50, &[])),
    Given::Sent(1, 2, Letter::ReadReq((1, 9), B, 90)),
    Given::Sent(1, 2, Letter::Ack((2, 1), 1, 7)),
    Given::Sent(1, 2, Letter::Prepare((1, 9), 1, 5, LIMIT, &[(A, ONE)])),
    Given::Sent(1, 2, Letter::Commit((3, 9), 1, 7, &[(A, 90), (A, 90)])),
    Given::Sent(1, 2, Letter::Commit((3, 9), 1, 7, &[(B, 90)])),
];

/// A decision of a transaction that node 2 never heard of: nothing tells it from a true one, and it is taken once.
static UNHEARD: [Row; 2] = [
    (Given::Sent(3, 2, Letter::Commit((3, 7), 1, 50, &[])), b""),
    (Given::Sent(3, 2, Letter::Commit((3, 7), 1, 50, &[])), IDLE),
];

// The tables, each behind a call: a proof then has none of them in sight.

fn scene_text() -> &'static [u8] {
    &SCENE
}

fn rows() -> &'static [Row] {
    &ROWS
}

fn strangers() -> &'static [Given] {
    &STRANGERS
}

fn unheard() -> &'static [Row] {
    &UNHEARD
}

/// Gives node 2 its rows, others before and behind them, and strangers between all.
fn check_tables(
    rt: &(impl Abort + AllocGlobal),
    node: &mut Node,
    before: &[Row],
    behind: &[Row],
) -> Result<(), Fail> {
    check(rt, node, strangers(), before)?;
    check(rt, node, strangers(), rows())?;
    check(rt, node, strangers(), behind)
}

/// The same for a new node.
fn check_node_two(
    rt: &(impl Abort + AllocGlobal),
    before: &[Row],
    behind: &[Row],
) -> Result<(), Fail> {
    let mut node = node_of(rt.alloc(), scene_text(), 2)?;
    check_tables(rt, &mut node, before, behind)
}

#[test]
fn strangers_at_a_node_of_three(rt: HostRuntime) -> Result<(), Fail> {
    check_node_two(&rt, unheard(), &[])?;
    check_node_two(&rt, &[], unheard())
}
