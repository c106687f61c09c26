//! The entries of a node's log.

use std::marker::{Send, Sync};
use str_base::{NodeId, SessionId};

/// What a node stepped on: a client step with a clock reading, or the message with a number of another node, counted from 1.
#[derive(Clone, Copy, Debug, PartialEq, Eq)]
pub enum LogInput {
    Client { session: SessionId, reading: u64 },
    Taken { sender: NodeId, number: u64 },
}

/// A step of a node: its stamp, what it stepped on, whether it was idle, and how many messages and answers it gave.
#[derive(Clone, Copy, Debug, PartialEq, Eq)]
pub struct LogEntry {
    pub stamp: u64,
    pub input: LogInput,
    pub idle: bool,
    pub sent: u64,
    pub answers: u32,
}

fn sendable<T: Send + Sync>(_: &T) {}

fn all_sendable(input: &LogInput, entry: &LogEntry) {
    sendable(input);
    sendable(entry);
}
