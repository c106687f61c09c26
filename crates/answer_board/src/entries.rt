//! What is shown at a board.
ghost use Rattle.std.specs.Prelude.{◌≡◌};

use std::marker::{Send, Sync};
use str_model::{Answer, Done};

/// An event that was done, or an answer that was released.
#[derive(Drop)]
pub enum Entry {
    Did(Done),
    Gave(Answer),
}

impl Entry {
    /// An equal entry.
    pub fn copy(&self) -> Entry
        ensures { result ≡ self.now }
    {
        match self {
            Entry::Did(done) => Entry::Did(*done),
            Entry::Gave(answer) => Entry::Gave(answer.copy()),
        }
    }
}

fn sendable<T: Send + Sync>(_: &T) {}

fn all_sendable(entry: &Entry) {
    sendable(entry);
}
