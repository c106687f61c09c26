//! What a transaction has read, the marks that a Commit carries, and the entries of a journal.

use std::marker::{Send, Sync};
use str_base::{KeyId, ShortList, Ts, TxId, Value};
use str_scene::Event;

/// The mark of a key: the greatest snapshot timestamp that has read it at a node.
#[derive(Clone, Copy, Debug, Default, PartialEq, Eq)]
pub struct KeyMark {
    pub key: KeyId,
    pub mark: Ts,
}

/// The marks that a Commit carries.
pub type KeyMarks = ShortList<KeyMark, 16>;

/// A read that is done: the key, its value, and the transaction that wrote it.
#[derive(Clone, Copy, Debug, Default, PartialEq, Eq)]
pub struct ReadDone {
    pub key: KeyId,
    pub value: Value,
    pub by: Option<TxId>,
}

/// What a `get` of a script gave.
#[derive(Clone, Copy, Debug, Default, PartialEq, Eq)]
pub struct Got {
    pub key: KeyId,
    pub value: Value,
}

/// What the `get`s of a script gave, in order.
pub type Gets = ShortList<Got, 16>;

/// A journal entry: an event, whether it was idle, and how many answers it released.
#[derive(Clone, Copy, Debug, PartialEq, Eq)]
pub struct Done {
    pub event: Event,
    pub idle: bool,
    pub answers: u32,
}

fn sendable<T: Send + Sync>(_: &T) {}

fn all_sendable(marks: &KeyMarks, gets: &Gets, done: &Done) {
    sendable(marks);
    sendable(gets);
    sendable(done);
}
