//! A node that hosts two partitions, driven through every kind of message, and messages that it never takes.

use crate::drives::{IDLE, Row, check, node_of, step};
use crate::letters::{Given, LIMIT, Letter, input};
use node_core::{Node, Outbox};
use std::alloc::{AllocError, Global};
use std::process::Abort;
use std::test::Fail;
use str_base::{KeyId, TextId, Ts, Value};

/// Node 1 is the master of partition 1 and a slave of partition 2. It does not host partition 3.
static SCENE: [u8; 278] = *b"str 2\nnodes 3\npart 1 1 2 3\npart 2 2 1\npart 3 3\n\
    session 1\ntx\nget c@3\nput a@1 5\nput b@2 6\nsession 1\ntx\nput b@2 7\nsession 1\ntx\nget b@2\n\
    session 1\ntx\nget a@1\nsession 1\ntx\nput b@2 9\nsession 1\ntx\nputs a@1 x6869\n\
    session 1\ntx\nget a@1\nsession 1\ntx\nget a@1\nsession 2\ntx\nabort\nschedule\nend\n";

const C: KeyId = KeyId(0);

const A: KeyId = KeyId(1);

const B: KeyId = KeyId(2);

/// The scene's byte string.
const HI: Value = Value::Text(TextId(0));

/// An own transaction reads from afar, writes both partitions and commits; others read and propose meanwhile.
static OWN_COMMIT: [Row; 22] = [
    (Given::Client(1, 10), b""),
    (Given::Client(1, 0), b"1>3 read 1.1 c@3 rs=10\n"),
    (Given::Client(1, 0), IDLE),
    (
        Given::Sent(3, 1, Letter::ReadReply((1, 1), A, Value::Num(1), None, 0)),
        IDLE,
    ),
    (
        Given::Sent(
            3,
            1,
            Letter::ReadReply((1, 1), C, Value::Num(4), Some((3, 1)), 9),
        ),
        b"",
    ),
    (
        Given::Sent(
            3,
            1,
            Letter::ReadReply((1, 1), C, Value::Num(4), Some((3, 1)), 9),
        ),
        IDLE,
    ),
    (Given::Client(1, 0), b""),
    (Given::Client(1, 0), b""),
    (Given::Sent(2, 1, Letter::Ack((1, 1), 2, 12)), IDLE),
    (
        Given::Client(1, 0),
        b"1>2 replicate 1.1 p1 rs=10 lc=11 a@1=5\n1>3 replicate 1.1 p1 rs=10 lc=11 a@1=5\n1>2 prepare 1.1 p2 rs=10 lc=11 b@2=6\n",
    ),
    (Given::Sent(2, 1, Letter::ReadReq((2, 1), A, 14)), b""),
    (Given::Sent(2, 1, Letter::ReadReq((2, 1), A, 3)), IDLE),
    (
        Given::Sent(2, 1, Letter::ReadReq((2, 2), A, 10)),
        b"1>2 reply 2.2 a@1=none fc=0\n",
    ),
    (
        Given::Sent(3, 1, Letter::Prepare((3, 1), 1, 20, 21, &[(A, HI)])),
        b"1>3 refuse 3.1 p1 by 1.1 a@1\n",
    ),
    (
        Given::Sent(3, 1, Letter::Prepare((3, 1), 1, 20, 21, &[(A, HI)])),
        IDLE,
    ),
    (Given::Sent(2, 1, Letter::Ack((1, 1), 2, 12)), b""),
    (Given::Sent(2, 1, Letter::Ack((1, 1), 2, 12)), IDLE),
    (Given::Sent(3, 1, Letter::Ack((1, 1), 2, 12)), IDLE),
    (Given::Sent(3, 1, Letter::Ack((1, 1), 1, 13)), b""),
    (
        Given::Sent(2, 1, Letter::Ack((1, 1), 1, 11)),
        b"1>2 commit 1.1 p1 fc=13 a@1<14\n1>3 commit 1.1 p1 fc=13 a@1<14\n1>2 commit 1.1 p2 fc=13 b@2<0\n\
        1>2 reply 2.1 a@1=5 by 1.1 fc=13\n1.1 s1/1 commit rs=10 fc=13 c@3=4\n",
    ),
    (
        Given::Sent(2, 1, Letter::ReadReq((2, 1), A, 14)),
        b"1>2 reply 2.1 a@1=5 by 1.1 fc=13\n",
    ),
    (
        Given::Sent(2, 1, Letter::Refuse((1, 1), 2, (3, 1), B)),
        IDLE,
    ),
];

/// A Replicate evicts an own transaction, and with it one that has read from it. Decisions come before what they decide, and again.
static AT_A_SLAVE: [Row; 17] = [
    (Given::Client(2, 20), b""),
    (Given::Client(2, 0), b""),
    (
        Given::Client(2, 0),
        b"1>2 prepare 1.2 p2 rs=20 lc=21 b@2=7\n",
    ),
    (Given::Client(3, 25), b""),
    (Given::Client(3, 0), b""),
    (
        Given::Sent(2, 1, Letter::Replicate((2, 3), 2, 8, 9, &[(B, HI)])),
        b"1>2 abort 1.2 p2\n1>2 ack 2.3 p2 ts=26\n\
        1.2 s2/1 abort rs=20 conflict 2.3 b@2 at=1\n1.3 s3/1 abort rs=25 lost 1.2\n",
    ),
    (
        Given::Sent(2, 1, Letter::Replicate((2, 3), 2, 8, 9, &[(B, HI)])),
        IDLE,
    ),
    (Given::Sent(2, 1, Letter::Ack((1, 2), 2, 21)), IDLE),
    (Given::Sent(3, 1, Letter::ReadReq((3, 2), B, 27)), b""),
    (
        Given::Sent(2, 1, Letter::Commit((2, 3), 2, 28, &[(B, 26)])),
        b"1>3 reply 3.2 b@2=6 by 1.1 fc=13\n",
    ),
    (
        Given::Sent(2, 1, Letter::Commit((2, 3), 2, 28, &[(B, 26)])),
        IDLE,
    ),
    (
        Given::Sent(3, 1, Letter::Commit((3, 3), 2, 29, &[(B, 29)])),
        b"",
    ),
    (
        Given::Sent(3, 1, Letter::Commit((3, 3), 2, 29, &[(B, 29)])),
        IDLE,
    ),
    (
        Given::Sent(2, 1, Letter::Replicate((3, 3), 2, 15, 16, &[(B, HI)])),
        IDLE,
    ),
    (Given::Sent(3, 1, Letter::Abort((3, 4), 2)), b""),
    (
        Given::Sent(2, 1, Letter::Replicate((3, 4), 2, 15, 16, &[(B, HI)])),
        IDLE,
    ),
    (
        Given::Sent(3, 1, Letter::ReadReq((3, 5), B, 28)),
        b"1>3 reply 3.5 b@2=x6869 by 2.3 fc=28\n",
    ),
];

/// The master accepts, parks and refuses. What is parked is judged again after a decision, and an own read goes on.
static AT_A_MASTER: [Row; 13] = [
    (
        Given::Sent(
            2,
            1,
            Letter::Prepare((2, 4), 1, 20, 21, &[(A, Value::Num(8))]),
        ),
        b"1>2 ack 2.4 p1 ts=21\n1>3 replicate 2.4 p1 rs=20 lc=21 a@1=8\n",
    ),
    (
        Given::Sent(2, 1, Letter::Prepare((2, 5), 1, 22, 23, &[(A, HI)])),
        b"",
    ),
    (
        Given::Sent(2, 1, Letter::Prepare((2, 5), 1, 22, 23, &[(A, HI)])),
        IDLE,
    ),
    (
        Given::Sent(2, 1, Letter::Prepare((2, 6), 1, 24, 25, &[(A, HI)])),
        b"",
    ),
    (
        Given::Sent(2, 1, Letter::Prepare((2, 7), 1, 20, 21, &[(A, HI)])),
        b"",
    ),
    (Given::Sent(2, 1, Letter::Abort((2, 6), 1)), b""),
    (Given::Client(4, 30), b""),
    (Given::Client(4, 0), b""),
    (Given::Client(4, 0), IDLE),
    (
        Given::Sent(2, 1, Letter::Commit((2, 4), 1, 22, &[(A, 21)])),
        b"1>2 ack 2.5 p1 ts=31\n1>3 replicate 2.5 p1 rs=22 lc=23 a@1=x6869\n1>2 refuse 2.7 p1 by 2.4 a@1\n",
    ),
    (Given::Client(4, 0), b"1.4 s4/1 commit rs=30 fc=- a@1=8\n"),
    (
        Given::Sent(3, 1, Letter::Prepare((3, 6), 1, 21, 22, &[(A, HI)])),
        b"1>3 refuse 3.6 p1 by 2.4 a@1\n",
    ),
    (Given::Sent(2, 1, Letter::Abort((2, 5), 1)), b""),
];

/// An own transaction is refused. Another one commits, above the snapshot of one that has read from it and below that of a second.
static OWN_ENDS: [Row; 19] = [
    (Given::Client(5, 0), b""),
    (Given::Client(5, 0), b""),
    (
        Given::Client(5, 0),
        b"1>2 prepare 1.5 p2 rs=30 lc=31 b@2=9\n",
    ),
    (
        Given::Sent(3, 1, Letter::Refuse((1, 5), 2, (3, 9), B)),
        IDLE,
    ),
    (
        Given::Sent(2, 1, Letter::Refuse((1, 5), 1, (3, 9), B)),
        IDLE,
    ),
    (
        Given::Sent(2, 1, Letter::Refuse((1, 5), 2, (3, 9), B)),
        b"1>2 abort 1.5 p2\n1.5 s5/1 abort rs=30 conflict 3.9 b@2 at=2\n",
    ),
    (Given::Client(6, 40), b""),
    (Given::Client(6, 0), b""),
    (
        Given::Client(6, 0),
        b"1>2 replicate 1.6 p1 rs=40 lc=41 a@1=x6869\n1>3 replicate 1.6 p1 rs=40 lc=41 a@1=x6869\n",
    ),
    (Given::Client(7, 0), b""),
    (Given::Client(7, 0), b""),
    (Given::Client(7, 0), b""),
    (Given::Client(8, 50), b""),
    (Given::Client(8, 0), b""),
    (Given::Client(8, 0), b""),
    (Given::Sent(3, 1, Letter::Ack((1, 6), 1, 42)), b""),
    (
        Given::Sent(2, 1, Letter::Ack((1, 6), 1, 41)),
        b"1>2 commit 1.6 p1 fc=42 a@1<50\n1>3 commit 1.6 p1 fc=42 a@1<50\n1.6 s6/1 commit rs=40 fc=42\n\
        1.7 s7/1 abort rs=41 late 1.6 fc=42\n1.8 s8/1 commit rs=50 fc=- a@1=x6869\n",
    ),
    (Given::Client(8, 60), IDLE),
    (Given::Client(9, 60), IDLE),
];

/// Reads raise the marks so far that nothing is accepted or taken any more. A Commit needs no Prepare before it.
static AT_THE_LIMIT: [Row; 6] = [
    (
        Given::Sent(3, 1, Letter::ReadReq((3, 7), A, LIMIT - 1)),
        b"1>3 reply 3.7 a@1=x6869 by 1.6 fc=42\n",
    ),
    (
        Given::Sent(2, 1, Letter::Prepare((2, 8), 1, 60, 61, &[(A, HI)])),
        IDLE,
    ),
    (
        Given::Sent(3, 1, Letter::ReadReq((3, 7), B, LIMIT - 1)),
        b"1>3 reply 3.7 b@2=x6869 by 2.3 fc=28\n",
    ),
    (
        Given::Sent(2, 1, Letter::Replicate((2, 8), 2, 60, 61, &[(B, HI)])),
        IDLE,
    ),
    (
        Given::Sent(2, 1, Letter::Commit((2, 8), 1, LIMIT - 1, &[(A, 62)])),
        b"",
    ),
    (
        Given::Sent(2, 1, Letter::Commit((2, 8), 1, LIMIT - 1, &[(A, 62)])),
        IDLE,
    ),
];

/// Messages that node 1 never takes: to or from others, of its own transactions, or strange.
static STRANGERS: [Given; 24] = [
    Given::Sent(2, 2, Letter::Abort((2, 9), 1)),
    Given::Sent(4, 1, Letter::Abort((2, 9), 1)),
    Given::Sent(2, 1, Letter::Abort((4, 9), 1)),
    Given::Sent(2, 1, Letter::Abort((2, 9), 3)),
    Given::Sent(2, 1, Letter::Abort((2, 9), 4)),
    Given::Sent(2, 1, Letter::Replicate((2, 9), 2, 5, 6, &[])),
    Given::Sent(2, 1, Letter::Prepare((2, 9), 1, 5, 6, &[])),
    Given::Sent(2, 1, Letter::Replicate((2, 9), 4, 5, 6, &[(B, HI)])),
    Given::Sent(2, 1, Letter::Replicate((2, 9), 1, 5, 6, &[(A, HI)])),
    Given::Sent(2, 1, Letter::Prepare((2, 9), 2, 5, 6, &[(B, HI)])),
    Given::Sent(2, 1, Letter::Commit((1, 1), 1, 7, &[])),
    Given::Sent(2, 1, Letter::Prepare((1, 1), 1, 5, 6, &[(A, HI)])),
    Given::Sent(2, 1, Letter::ReadReq((1, 1), A, 90)),
    Given::Sent(2, 1, Letter::ReadReq((2, 9), C, 90)),
    Given::Sent(2, 1, Letter::ReadReq((2, 9), KeyId(3), 90)),
    Given::Sent(2, 1, Letter::ReadReq((2, 9), A, LIMIT)),
    Given::Sent(2, 1, Letter::Ack((2, 9), 1, 7)),
    Given::Sent(2, 1, Letter::Ack((1, 99), 1, 7)),
    Given::Sent(2, 1, Letter::Prepare((2, 9), 1, 5, LIMIT, &[(A, HI)])),
    Given::Sent(2, 1, Letter::Commit((2, 9), 1, LIMIT, &[])),
    Given::Sent(2, 1, Letter::Commit((2, 9), 1, 7, &[(A, 90), (A, 90)])),
    Given::Sent(2, 1, Letter::Commit((2, 9), 1, 7, &[(B, 90)])),
    Given::Sent(2, 1, Letter::Prepare((2, 9), 1, 5, 6, &[(A, HI), (A, HI)])),
    Given::Sent(
        2,
        1,
        Letter::Replicate((2, 9), 2, 5, 6, &[(B, Value::Text(TextId(1)))]),
    ),
];

// The tables, each behind a call: a proof then has none of them in sight.

fn own_commit() -> &'static [Row] {
    &OWN_COMMIT
}

fn at_a_slave() -> &'static [Row] {
    &AT_A_SLAVE
}

fn at_a_master() -> &'static [Row] {
    &AT_A_MASTER
}

fn own_ends() -> &'static [Row] {
    &OWN_ENDS
}

fn at_the_limit() -> &'static [Row] {
    &AT_THE_LIMIT
}

fn strangers_of_all_kinds() -> &'static [Given] {
    &STRANGERS
}

fn two_partitions() -> &'static [u8] {
    &SCENE
}

/// Gives a new node 1 the inputs of all tables, with strangers between them.
fn check_tables(
    rt: &(impl Abort + AllocGlobal),
    node: &mut Node,
    strangers: &[Given],
) -> Result<(), Fail> {
    check(rt, node, strangers, own_commit())?;
    check(rt, node, strangers, at_a_slave())?;
    check(rt, node, strangers, at_a_master())?;
    assert_eq!(rt; node.held(), 0);
    check(rt, node, strangers, own_ends())?;
    check(rt, node, strangers, at_the_limit())?;
    assert_eq!(rt; node.begun(), 8);
    assert_eq!(rt; node.held(), 0);
    Ok(())
}

#[test]
fn every_kind_of_message(rt: HostRuntime) -> Result<(), Fail> {
    let mut node = node_of(rt.alloc(), two_partitions(), 1)?;
    check_tables(&rt, &mut node, &[])
}

#[test]
fn strangers_change_nothing(rt: HostRuntime) -> Result<(), Fail> {
    let mut node = node_of(rt.alloc(), two_partitions(), 1)?;
    check_tables(&rt, &mut node, strangers_of_all_kinds())
}

/// One key is written three times.
static THREE_PUTS: [u8; 85] =
    *b"str 1\nnodes 1\npart 1 1\nsession 1\ntx\nput a@1 1\ntx\nput a@1 2\n\
    tx\nput a@1 3\nschedule\nend\n";

fn three_puts() -> &'static [u8] {
    &THREE_PUTS
}

/// All steps of the only session.
fn put_thrice(alloc: Global, node: &mut Node) -> Result<(), AllocError> {
    let mut out = Outbox::new(alloc);
    for _ in 0..9 {
        step(node, &input(Given::Client(1, 10)), &mut out)?;
    }
    Ok(())
}

/// Prunes a node that has three versions of a key, at rising marks.
fn check_pruning(rt: &(impl Abort + AllocGlobal), node: &mut Node) -> Result<(), Fail> {
    assert_eq!(rt; node.low(), Ts(13));
    assert_eq!(rt; node.versions(), 3);
    assert_eq!(rt; node.prune(Ts(11)), 0);
    assert_eq!(rt; node.prune(Ts(12)), 1);
    assert_eq!(rt; node.prune(Ts(13)), 1);
    assert_eq!(rt; node.versions(), 1);
    Ok(())
}

#[test]
fn old_versions_go(rt: HostRuntime) -> Result<(), Fail> {
    let mut node = node_of(rt.alloc(), three_puts(), 1)?;
    put_thrice(rt.alloc(), &mut node)?;
    check_pruning(&rt, &mut node)
}
