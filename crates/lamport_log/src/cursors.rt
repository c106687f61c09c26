//! How far a log is merged.
ghost use Rattle.std.specs.Prelude.{◌≡◌, ◌<◌, ◌+◌, ◌++◌, ◌^◌, [], OnOk, Some, ℕ};
ghost use Rattle.std.specs.List.{range_with_len};
ghost use Rattle.lamport_log.specs.Merging.{or_zero};
ghost use Rattle.str_scene.specs.Scenes.{nth};

use std::alloc::{AllocError, Global};
use std::marker::Model;

/// How many of a log's entries, messages and answers are merged, and the new numbers of these messages.
#[derive(Drop)]
pub(crate) struct Cursor {
    entry: usize,
    message: usize,
    answer: usize,
    numbers: Vec<u64>,
}

impl Model for Cursor {
    ghost use Rattle.lamport_log.specs.Merging.{Cursor};

    ghost Value = { Cursor };

    ghost view = { λ c. record { entry = c.entry; message = c.message; answer = c.answer; numbers = c.numbers.items } };
}

impl Cursor {
    /// The beginning of a log.
    pub fn new(alloc: Global) -> Cursor
        ensures { result ≡ record { entry = 0; message = 0; answer = 0; numbers = [] } }
    {
        Cursor {
            entry: 0,
            message: 0,
            answer: 0,
            numbers: Vec::new(alloc),
        }
    }

    /// How many entries are merged.
    pub fn entry(&self) -> usize
        ensures { result ≡ self.now.entry }
    {
        self.entry
    }

    /// How many messages are merged.
    pub fn message(&self) -> usize
        ensures { result ≡ self.now.message }
    {
        self.message
    }

    /// How many answers are merged.
    pub fn answer(&self) -> usize
        ensures { result ≡ self.now.answer }
    {
        self.answer
    }

    /// The new number of a message.
    pub fn number(&self, number: u64) -> u64
        requires { (i : ℕ) × (nth self.now.numbers number ≡ Some i) }
        ensures { result ≡ or_zero (nth self.now.numbers number) }
    {
        self.numbers[number as usize - 1]
    }

    /// One entry more is merged: its messages have the numbers from `first` on, and the first `message` messages and `answer` answers are merged.
    pub fn advance(
        &mut self,
        first: u64,
        sent: usize,
        message: usize,
        answer: usize,
    ) -> Result<(), AllocError>
        requires entry { self.old.entry + 1 < 2 ^ 64 }
        requires numbers { first + sent < 2 ^ 64 }
        ensures { OnOk result (self.new ≡ record { entry = self.old.entry + 1; message = message; answer = answer; numbers = self.old.numbers ++ range_with_len first sent }) }
    {
        append_numbers(first, sent, &mut self.numbers)?;
        self.entry += 1;
        self.message = message;
        self.answer = answer;
        Ok(())
    }
}

/// Appends the numbers from `first` on.
fn append_numbers(first: u64, count: usize, to: &mut Vec<u64>) -> Result<(), AllocError>
    requires { first + count < 2 ^ 64 }
    ensures { OnOk result (to.new.items ≡ to.old.items ++ range_with_len first count) }
{
    for i in 0..count {
        to.push(first + i as u64)?;
    }
    Ok(())
}
