//! What the steps of a node have sent and released.
ghost use Rattle.node_parts.specs.Sending.{OutState};
ghost use Rattle.std.specs.Prelude.{◌≡◌, ◌≤◌, [], OnOk};

use std::alloc::{AllocError, Global};
use std::marker::{Model, Send, Sync};
use str_model::{Answer, Message};

/// Messages and answers in order, and space for more of each that takes no memory.
#[derive(Drop)]
pub struct Outbox {
    pub(crate) messages: Vec<Message>,
    pub(crate) answers: Vec<Answer>,
}

impl Model for Outbox {
    ghost use Rattle.std.specs.Prelude.{◌-◌, min, vec_len, vec_capacity};
    ghost use Rattle.node_parts.specs.Sending.{OutState as Value_};

    ghost Value = { Value_ };

    ghost view = { λ o. record { messages = o.messages.items; answers = o.answers.items; space = min (vec_capacity o.messages - vec_len o.messages) (vec_capacity o.answers - vec_len o.answers) } };
}

impl Outbox {
    /// An empty outbox.
    pub fn new(alloc: Global) -> Outbox
        ensures messages { result.messages ≡ [] }
        ensures answers { result.answers ≡ [] }
    {
        Outbox {
            messages: Vec::new(alloc),
            answers: Vec::new(alloc),
        }
    }

    /// An outbox that has these messages and answers.
    pub fn holding(messages: Vec<Message>, answers: Vec<Answer>) -> Outbox
        ensures messages { result.messages ≡ messages.items }
        ensures answers { result.answers ≡ answers.items }
    {
        Outbox { messages, answers }
    }

    /// The messages in the order in which they were sent.
    pub fn messages(&self) -> &Vec<Message>
        ensures { result.now.items ≡ self.now.messages }
    {
        &self.messages
    }

    /// The answers in the order in which they were released.
    pub fn answers(&self) -> &Vec<Answer>
        ensures { result.now.items ≡ self.now.answers }
    {
        &self.answers
    }

    /// Takes all messages and answers out. The space stays.
    pub fn clear(&mut self)
        ensures messages { self.new.messages ≡ [] }
        ensures answers { self.new.answers ≡ [] }
        ensures space { self.old.space ≤ self.new.space }
    {
        self.messages.clear();
        self.answers.clear();
    }

    /// Makes space for `n` more messages and `n` more answers. The lists stay, also after an error.
    pub fn reserve(&mut self, n: usize) -> Result<(), AllocError>
        ensures messages { self.new.messages ≡ self.old.messages }
        ensures answers { self.new.answers ≡ self.old.answers }
        ensures space { OnOk result (n ≤ self.new.space) }
        ensures kept { self.old.space ≤ self.new.space }
    {
        self.messages.reserve(n)?;
        self.answers.reserve(n)
    }
}

fn sendable<T: Send + Sync>(_: &T) {}

fn all_sendable(outbox: &Outbox) {
    sendable(outbox);
}
