//! Which messages were given.
ghost use Rattle.cluster_run.specs.Flags.{AreUp, IsOldest};
ghost use Rattle.std.specs.Prelude.{◌≡◌, ◌<◌, ◌≤◌, ◌-◌, ◌++◌, [], OnOk, false, length, replicate, slice_set, true, vec_capacity, vec_len};
ghost use Rattle.str_model.specs.Drains.{first_missing};

use std::alloc::{AllocError, Global};
use std::marker::{Model, Send, Sync};

/// A flag for each message, in order of sending: whether it was given. The oldest that was never given is known without a search.
#[derive(Drop)]
pub struct GivenFlags {
    flags: Vec<bool>,
    oldest: usize,
}

impl Model for GivenFlags {
    ghost use Rattle.cluster_run.specs.Flags.{FlagState, IsOldest};
    ghost use Rattle.std.specs.Prelude.{◌-◌, vec_capacity, vec_len};

    ghost Value = { FlagState };

    ghost view = { λ g. record { flags = g.flags.items; spare = vec_capacity g.flags - vec_len g.flags } };

    ghost invariant = { λ g. IsOldest g.flags.items g.oldest };
}

impl GivenFlags {
    /// No message.
    pub fn new(alloc: Global) -> GivenFlags
        ensures { result.flags ≡ [] }
    {
        GivenFlags {
            flags: Vec::new(alloc),
            oldest: 0,
        }
    }

    /// These flags. The oldest that is down is looked for once.
    pub fn holding(flags: Vec<bool>) -> GivenFlags
        ensures { result.flags ≡ flags.items }
    {
        let oldest = first_down(&flags, 0);
        GivenFlags { flags, oldest }
    }

    /// How many messages there are.
    pub fn len(&self) -> usize
        ensures { result ≡ length self.now.flags }
    {
        self.flags.len()
    }

    /// The number, from 1, of the oldest message that was never given.
    pub fn next(&self) -> Option<u64>
        ensures { result ≡ first_missing 1 self.now.flags }
    {
        if self.oldest < self.flags.len() {
            Some(self.oldest as u64 + 1)
        } else {
            None
        }
    }

    /// Makes space for `n` more messages. The flags stay, also after an error.
    pub fn reserve(&mut self, n: usize) -> Result<(), AllocError>
        ensures space { OnOk result (n ≤ self.new.spare) }
        ensures flags { self.new.flags ≡ self.old.flags }
    {
        self.flags.reserve(n)
    }

    /// `n` more messages, none of which was given.
    pub fn extend(&mut self, n: usize)
        requires { n ≤ self.old.spare }
        ensures { self.new.flags ≡ self.old.flags ++ replicate n false }
    {
        push_down(&mut self.flags, n);
    }

    /// The message at this place, from 0, counts as given.
    pub fn give(&mut self, place: usize)
        requires { place < length self.old.flags }
        ensures flags { self.new.flags ≡ slice_set self.old.flags place true }
        ensures spare { self.new.spare ≡ self.old.spare }
    {
        self.flags[place] = true;
        self.oldest = first_down(self.flags.as_slice(), self.oldest);
    }
}

/// Appends flags that are down.
fn push_down(flags: &mut Vec<bool>, n: usize)
    requires { n ≤ vec_capacity flags.old - vec_len flags.old }
    ensures { flags.new.items ≡ flags.old.items ++ replicate n false }
{
    for _i in 0..n {
        flags.push_reserved(false);
    }
}

/// The place of the first flag that is down, where all before `start` are up; the length where there is none.
fn first_down(flags: &[bool], start: usize) -> usize
    requires { AreUp flags.now start }
    ensures { IsOldest flags.now result }
{
    for i in start..flags.len() {
        if !flags[i] {
            return i;
        }
    }
    flags.len()
}

fn sendable<T: Send + Sync>(_: &T) {}

fn all_sendable(flags: &GivenFlags) {
    sendable(flags);
}
