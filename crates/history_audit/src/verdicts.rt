//! What an audit finds.

use std::marker::{Send, Sync};

/// What an audit finds of a list of answers.
#[derive(Clone, Copy, Debug, PartialEq, Eq)]
pub enum Verdict {
    /// They are a run of the snapshot isolation machine.
    Yes,
    /// Snapshot isolation fails of the first `answer` answers and of no fewer, and of its clauses, numbered 1 to 5, `clause` is the
    /// least that fails there.
    No { answer: u64, clause: u8 },
}

fn sendable<T: Send + Sync>(_: &T) {}

fn all_sendable(verdict: &Verdict) {
    sendable(verdict);
}
