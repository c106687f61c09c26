//! Inputs in short for tables of tests, and the lines of what a node sends and releases.

use held_answer::push_line;
use node_core::Outbox;
use std::alloc::AllocError;
use str_base::{
    KeyId, NodeId, PartId, SessionId, Ts, TxId, Value, Write, Writes, push_i64, push_u64,
};
use str_model::{Body, Input, KeyMark, KeyMarks, Message};
use str_scene::KeyTable;

/// The first timestamp that is too great.
pub(crate) const LIMIT: u64 = (1 << 62) + (1 << 20);

/// A transaction: its node and its number there.
pub(crate) type Name = (u8, u32);

/// What a message says, with its parts in the order of `Body`.
#[derive(Clone, Copy)]
pub(crate) enum Letter {
    ReadReq(Name, KeyId, u64),
    ReadReply(Name, KeyId, Value, Option<Name>, u64),
    Prepare(Name, u8, u64, u64, &'static [(KeyId, Value)]),
    Refuse(Name, u8, Name, KeyId),
    Replicate(Name, u8, u64, u64, &'static [(KeyId, Value)]),
    Ack(Name, u8, u64),
    Commit(Name, u8, u64, &'static [(KeyId, u64)]),
    Abort(Name, u8),
}

/// A client step of a session with a reading, or a message from one node to another.
#[derive(Clone, Copy)]
pub(crate) enum Given {
    Client(u8, u64),
    Sent(u8, u8, Letter),
}

// ---- what is given

fn tx(name: Name) -> TxId {
    TxId {
        node: NodeId(name.0),
        seq: name.1,
    }
}

fn writes(pairs: &[(KeyId, Value)]) -> Writes {
    let mut writes = Writes::new();
    for (key, value) in pairs {
        if writes.len() < 16 {
            writes.push(Write {
                key: *key,
                value: *value,
            });
        }
    }
    writes
}

fn marks(pairs: &[(KeyId, u64)]) -> KeyMarks {
    let mut marks = KeyMarks::new();
    for (key, mark) in pairs {
        if marks.len() < 16 {
            marks.push(KeyMark {
                key: *key,
                mark: Ts(*mark),
            });
        }
    }
    marks
}

fn read_reply(name: Name, key: KeyId, value: Value, writer: Option<Name>, fc: u64) -> Body {
    let by = match writer {
        Some(writer) => Some(tx(writer)),
        None => None,
    };
    Body::ReadReply {
        tx: tx(name),
        key,
        value,
        by,
        fc: Ts(fc),
    }
}

pub(crate) fn body(letter: Letter) -> Body {
    match letter {
        Letter::ReadReq(name, key, rs) => Body::ReadReq {
            tx: tx(name),
            key,
            rs: Ts(rs),
        },
        Letter::ReadReply(name, key, value, writer, fc) => read_reply(name, key, value, writer, fc),
        Letter::Prepare(name, part, rs, lc, pairs) => Body::Prepare {
            tx: tx(name),
            part: PartId(part),
            rs: Ts(rs),
            lc: Ts(lc),
            writes: writes(pairs),
        },
        Letter::Refuse(name, part, by, key) => Body::Refuse {
            tx: tx(name),
            part: PartId(part),
            by: tx(by),
            key,
        },
        Letter::Replicate(name, part, rs, lc, pairs) => Body::Replicate {
            tx: tx(name),
            part: PartId(part),
            rs: Ts(rs),
            lc: Ts(lc),
            writes: writes(pairs),
        },
        Letter::Ack(name, part, ts) => Body::Ack {
            tx: tx(name),
            part: PartId(part),
            ts: Ts(ts),
        },
        Letter::Commit(name, part, fc, pairs) => Body::Commit {
            tx: tx(name),
            part: PartId(part),
            fc: Ts(fc),
            marks: marks(pairs),
        },
        Letter::Abort(name, part) => Body::Abort {
            tx: tx(name),
            part: PartId(part),
        },
    }
}

/// The input in full.
pub(crate) fn input(given: Given) -> Input {
    match given {
        Given::Client(session, reading) => Input::Client {
            session: SessionId(session),
            reading,
        },
        Given::Sent(sender, receiver, letter) => Input::Deliver(Message {
            sender: NodeId(sender),
            receiver: NodeId(receiver),
            body: body(letter),
        }),
    }
}

// ---- what comes of it

fn push_number(text: &[u8], n: u64, out: &mut Vec<u8>) -> Result<(), AllocError> {
    out.extend_from_slice(text)?;
    push_u64(out, n)
}

fn push_tx(text: &[u8], tx: TxId, out: &mut Vec<u8>) -> Result<(), AllocError> {
    push_number(text, u64::from(tx.node.0), out)?;
    push_number(b".", u64::from(tx.seq), out)
}

fn push_pair(text: &[u8], tx: TxId, part: PartId, out: &mut Vec<u8>) -> Result<(), AllocError> {
    push_tx(text, tx, out)?;
    push_number(b" p", u64::from(part.0), out)
}

fn push_key(key: KeyId, keys: &KeyTable, out: &mut Vec<u8>) -> Result<(), AllocError> {
    out.push(b' ')?;
    keys.push_key(key, out)
}

fn push_value(
    key: KeyId,
    value: Value,
    keys: &KeyTable,
    out: &mut Vec<u8>,
) -> Result<(), AllocError> {
    push_key(key, keys, out)?;
    out.push(b'=')?;
    match value {
        Value::Absent => out.extend_from_slice(b"none"),
        Value::Num(n) => push_i64(out, n),
        Value::Text(text) => keys.push_text(text, out),
    }
}

fn push_writes(
    times: [Ts; 2],
    writes: &Writes,
    keys: &KeyTable,
    out: &mut Vec<u8>,
) -> Result<(), AllocError> {
    push_number(b" rs=", times[0].0, out)?;
    push_number(b" lc=", times[1].0, out)?;
    for write in writes.as_slice() {
        push_value(write.key, write.value, keys, out)?;
    }
    Ok(())
}

fn push_marks(marks: &KeyMarks, keys: &KeyTable, out: &mut Vec<u8>) -> Result<(), AllocError> {
    for mark in marks.as_slice() {
        push_key(mark.key, keys, out)?;
        push_number(b"<", mark.mark.0, out)?;
    }
    Ok(())
}

/// Appends what a message says.
fn push_body(body: &Body, keys: &KeyTable, out: &mut Vec<u8>) -> Result<(), AllocError> {
    match body {
        Body::ReadReq { tx, key, rs } => {
            push_tx(b" read ", *tx, out)?;
            push_key(*key, keys, out)?;
            push_number(b" rs=", rs.0, out)
        }
        Body::ReadReply {
            tx,
            key,
            value,
            by,
            fc,
        } => {
            push_tx(b" reply ", *tx, out)?;
            push_value(*key, *value, keys, out)?;
            if let Some(writer) = by {
                push_tx(b" by ", *writer, out)?;
            }
            push_number(b" fc=", fc.0, out)
        }
        Body::Prepare {
            tx,
            part,
            rs,
            lc,
            writes,
        } => {
            push_pair(b" prepare ", *tx, *part, out)?;
            push_writes([*rs, *lc], writes, keys, out)
        }
        Body::Refuse { tx, part, by, key } => {
            push_pair(b" refuse ", *tx, *part, out)?;
            push_tx(b" by ", *by, out)?;
            push_key(*key, keys, out)
        }
        Body::Replicate {
            tx,
            part,
            rs,
            lc,
            writes,
        } => {
            push_pair(b" replicate ", *tx, *part, out)?;
            push_writes([*rs, *lc], writes, keys, out)
        }
        Body::Ack { tx, part, ts } => {
            push_pair(b" ack ", *tx, *part, out)?;
            push_number(b" ts=", ts.0, out)
        }
        Body::Commit {
            tx,
            part,
            fc,
            marks,
        } => {
            push_pair(b" commit ", *tx, *part, out)?;
            push_number(b" fc=", fc.0, out)?;
            push_marks(marks, keys, out)
        }
        Body::Abort { tx, part } => push_pair(b" abort ", *tx, *part, out),
    }
}

/// Appends the lines of all messages.
pub(crate) fn push_messages(
    out: &Outbox,
    keys: &KeyTable,
    lines: &mut Vec<u8>,
) -> Result<(), AllocError> {
    for message in out.messages() {
        push_number(b"", u64::from(message.sender.0), lines)?;
        push_number(b">", u64::from(message.receiver.0), lines)?;
        push_body(&message.body, keys, lines)?;
        lines.push(b'\n')?;
    }
    Ok(())
}

/// Appends the lines of all answers.
pub(crate) fn push_answers(
    out: &Outbox,
    keys: &KeyTable,
    lines: &mut Vec<u8>,
) -> Result<(), AllocError> {
    for answer in out.answers() {
        push_line(answer, keys, lines)?;
    }
    Ok(())
}
