//! The log of a node.
ghost use Rattle.std.specs.Prelude.{◌≡◌, ◌<◌, ◌≤◌, ◌+◌, ◌^◌, ◌++◌, ◌∷◌, [], OnOk, length, vec_capacity, vec_len};
ghost use Rattle.lamport_log.specs.Logs.{IsSameLog, step_entry};

use crate::logs::{LogEntry, LogInput};
use std::alloc::{AllocError, Global};
use std::marker::{Model, Send, Sync};
use str_base::NodeId;
use str_model::{Answer, Message};

/// The entries of a node, with all messages and answers of its steps, and space for more of each that takes no memory.
#[derive(Drop)]
pub struct NodeLog {
    node: NodeId,
    entries: Vec<LogEntry>,
    messages: Vec<Message>,
    released: Vec<Answer>,
}

impl Model for NodeLog {
    ghost use Rattle.std.specs.Prelude.{◌-◌, min, vec_capacity, vec_len};
    ghost use Rattle.lamport_log.specs.Logs.{Log};

    ghost Value = { Log };

    ghost view = { λ l. record { node = l.node; entries = l.entries.items; messages = l.messages.items; released = l.released.items; space = min (vec_capacity l.entries - vec_len l.entries) (min (vec_capacity l.messages - vec_len l.messages) (vec_capacity l.released - vec_len l.released)) } };
}

impl NodeLog {
    /// The log of a node that has made no step.
    pub fn new(alloc: Global, node: NodeId) -> NodeLog
        ensures node { result.node ≡ node }
        ensures entries { result.entries ≡ [] }
        ensures messages { result.messages ≡ [] }
        ensures released { result.released ≡ [] }
    {
        NodeLog {
            node,
            entries: Vec::new(alloc),
            messages: Vec::new(alloc),
            released: Vec::new(alloc),
        }
    }

    /// The node.
    pub fn node(&self) -> NodeId
        ensures { result ≡ self.now.node }
    {
        self.node
    }

    /// The entries in order.
    pub fn entries(&self) -> &[LogEntry]
        ensures { result.now ≡ self.now.entries }
    {
        self.entries.as_slice()
    }

    /// The messages in the order in which they were sent.
    pub fn messages(&self) -> &[Message]
        ensures { result.now ≡ self.now.messages }
    {
        self.messages.as_slice()
    }

    /// The answers in the order in which they were released.
    pub fn released(&self) -> &[Answer]
        ensures { result.now ≡ self.now.released }
    {
        self.released.as_slice()
    }

    /// Makes space for `n` more entries, messages and answers. The log stays, also after an error.
    pub fn reserve(&mut self, n: usize) -> Result<(), AllocError>
        ensures log { IsSameLog self.old self.new }
        ensures space { OnOk result (n ≤ self.new.space) }
    {
        self.entries.reserve(n)?;
        self.messages.reserve(n)?;
        self.released.reserve(n)
    }

    /// Enters a step with its messages and answers. It takes no memory.
    pub fn enter(
        &mut self,
        stamp: u64,
        input: LogInput,
        idle: bool,
        messages: &[Message],
        answers: &[Answer],
    )
        requires entry { 0 < self.old.space }
        requires messages { length messages.now ≤ self.old.space }
        requires answers { length answers.now ≤ self.old.space }
        requires few { length answers.now < 2 ^ 32 }
        ensures node { self.new.node ≡ self.old.node }
        ensures entries { self.new.entries ≡ self.old.entries ++ step_entry stamp input idle messages.now answers.now ∷ [] }
        ensures messages { self.new.messages ≡ self.old.messages ++ messages.now }
        ensures released { self.new.released ≡ self.old.released ++ answers.now }
    {
        self.entries.push_reserved(LogEntry {
            stamp,
            input,
            idle,
            sent: messages.len() as u64,
            answers: answers.len() as u32,
        });
        put_messages(messages, &mut self.messages);
        put_answers(answers, &mut self.released);
    }
}

/// Appends messages for which there is space.
fn put_messages(from: &[Message], to: &mut Vec<Message>)
    requires { vec_len to.old + length from.now ≤ vec_capacity to.old }
    ensures { to.new.items ≡ to.old.items ++ from.now }
{
    for message in from {
        to.push_reserved(message.copy());
    }
}

/// Appends answers for which there is space.
fn put_answers(from: &[Answer], to: &mut Vec<Answer>)
    requires { vec_len to.old + length from.now ≤ vec_capacity to.old }
    ensures { to.new.items ≡ to.old.items ++ from.now }
{
    for answer in from {
        to.push_reserved(answer.copy());
    }
}

fn sendable<T: Send + Sync>(_: &T) {}

fn all_sendable(log: &NodeLog) {
    sendable(log);
}
