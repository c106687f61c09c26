//! Operations, events and the places of transactions.

use std::marker::{Send, Sync};
use str_base::limits::OPERATIONS;
use str_base::{KeyId, SessionId, ShortList, TextId};

/// An operation of a script.
#[derive(Clone, Copy, Debug, Default, PartialEq, Eq)]
pub enum Op {
    /// The key's value is read and answered.
    Get(KeyId),
    /// The key becomes the number.
    Put(KeyId, i64),
    /// The key becomes the byte string.
    Puts(KeyId, TextId),
    /// The key becomes the sum of its value and the number, wrapped to 64 bits.
    Add(KeyId, i64),
    /// The key loses its value.
    Del(KeyId),
    /// The transaction goes on only where the key's value reaches the number.
    Need(KeyId, i64),
    /// The transaction aborts.
    #[default]
    Abort,
}

/// A script: from 1 to 16 operations.
pub type OpList = ShortList<Op, OPERATIONS>;

/// The `index`-th transaction of a session, counted from 1.
#[derive(Clone, Copy, Debug, Default, PartialEq, Eq)]
pub struct TxPlace {
    pub session: SessionId,
    pub index: u32,
}

/// An entry of a schedule: a client step of a session with a clock reading, or the delivery of the message
/// with a number, counted from 1.
#[derive(Clone, Copy, Debug, PartialEq, Eq)]
pub enum Event {
    Client { session: SessionId, reading: u64 },
    Deliver { index: u64 },
}

fn sendable<T: Send + Sync>(_: &T) {}

fn all_sendable(ops: &OpList, place: &TxPlace, event: &Event) {
    sendable(ops);
    sendable(place);
    sendable(event);
}
