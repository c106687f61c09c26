//! What an operation comes to.

use std::marker::{Send, Sync};
use str_base::{KeyId, Value};

/// What the next operation of a script comes to.
#[derive(Clone, Copy, Debug, PartialEq, Eq)]
pub enum Turn {
    /// It needs the value of a key that is neither written nor read yet, and nothing changed.
    Ask { key: KeyId },
    /// A get is done.
    Got { key: KeyId, value: Value },
    /// Another operation is done.
    Moved,
    /// A need is not met, and nothing changed.
    Unmet,
    /// The script aborts, and nothing changed.
    Wished,
    /// There is no operation left.
    End,
}

fn sendable<T: Send + Sync>(_: &T) {}

fn all_sendable(turn: &Turn) {
    sendable(turn);
}
