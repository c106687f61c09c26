//! What a step sends and releases.
ghost use Rattle.node_parts.specs.Sending.{OutState, Outgoing};
ghost use Rattle.std.specs.Prelude.{◌≡◌, ◌<◌, ◌≤◌, ◌+◌, ◌++◌, ◌∷◌, [], drop, length, take};
ghost use Rattle.std.specs.List.{insert};
ghost use Rattle.str_model.specs.Views.{release as released};

use crate::outbox::Outbox;
use std::alloc::Global;
use std::marker::{Model, Send, Sync};
use std::mem::swap;
use str_model::{Answer, Message};

/// What a step sends and releases, after what stood before it. It is seen as the messages and answers before the step, those of the step, and
/// the space for more of each that takes no memory.
#[derive(Drop)]
pub struct Sending {
    messages: Vec<Message>,
    answers: Vec<Answer>,
    sent_from: usize,
    released_from: usize,
}

impl Model for Sending {
    ghost use Rattle.std.specs.Prelude.{◌-◌, ◌≤◌, drop, length, min, take, vec_len, vec_capacity};
    ghost use Rattle.node_parts.specs.Sending.{Outgoing as Value_};

    ghost Value = { Value_ };

    ghost view = { λ s. record { earlier = take s.sent_from s.messages.items; sent = drop s.sent_from s.messages.items; answered = take s.released_from s.answers.items; released = drop s.released_from s.answers.items; space = min (vec_capacity s.messages - vec_len s.messages) (vec_capacity s.answers - vec_len s.answers) } };

    ghost invariant = { λ s. (s.sent_from ≤ length s.messages.items) × (s.released_from ≤ length s.answers.items) };
}

impl Sending {
    /// Nothing, and no step.
    pub fn new(alloc: Global) -> Sending
        ensures earlier { (result.earlier ≡ []) × (result.answered ≡ []) }
        ensures of_step { (result.sent ≡ []) × (result.released ≡ []) }
    {
        Sending {
            messages: Vec::new(alloc),
            answers: Vec::new(alloc),
            sent_from: 0,
            released_from: 0,
        }
    }

    /// A step begins: what stood in the outbox stands before it.
    pub fn begin(&mut self, out: &mut Outbox)
        requires earlier { (self.old.earlier ≡ []) × (self.old.answered ≡ []) }
        requires of_step { (self.old.sent ≡ []) × (self.old.released ≡ []) }
        ensures earlier { (self.new.earlier ≡ out.old.messages) × (self.new.answered ≡ out.old.answers) }
        ensures of_step { (self.new.sent ≡ []) × (self.new.released ≡ []) }
        ensures space { self.new.space ≡ out.old.space }
        ensures out { (out.new.messages ≡ []) × (out.new.answers ≡ []) }
    {
        swap(&mut self.messages, &mut out.messages);
        swap(&mut self.answers, &mut out.answers);
        self.sent_from = self.messages.len();
        self.released_from = self.answers.len();
    }

    /// A step ends: all goes to the outbox, which was empty.
    pub fn end(&mut self, out: &mut Outbox)
        requires { (out.old.messages ≡ []) × (out.old.answers ≡ []) }
        ensures messages { out.new.messages ≡ self.old.earlier ++ self.old.sent }
        ensures answers { out.new.answers ≡ self.old.answered ++ self.old.released }
        ensures space { out.new.space ≡ self.old.space }
        ensures earlier { (self.new.earlier ≡ []) × (self.new.answered ≡ []) }
        ensures of_step { (self.new.sent ≡ []) × (self.new.released ≡ []) }
    {
        self.sent_from = 0;
        self.released_from = 0;
        swap(&mut self.messages, &mut out.messages);
        swap(&mut self.answers, &mut out.answers);
    }

    /// Sends a message. There is space.
    pub fn send(&mut self, message: Message)
        requires { 0 < self.old.space }
        ensures sent { self.new.sent ≡ self.old.sent ++ message ∷ [] }
        ensures stays { (self.new.earlier ≡ self.old.earlier) × (self.new.answered ≡ self.old.answered) × (self.new.released ≡ self.old.released) }
        ensures space { self.old.space ≤ self.new.space + 1 }
    {
        self.messages.push_reserved(message);
    }

    /// Releases an answer: those of a step stand by rising number. There is space.
    pub fn release(&mut self, answer: Answer)
        requires { 0 < self.old.space }
        ensures released { self.new.released ≡ released answer self.old.released }
        ensures stays { (self.new.earlier ≡ self.old.earlier) × (self.new.answered ≡ self.old.answered) × (self.new.sent ≡ self.old.sent) }
        ensures space { self.old.space ≤ self.new.space + 1 }
    {
        let k = place_of(&self.answers, self.released_from, &answer);
        match self.answers.insert(k, answer) {
            Ok(()) => {}
            Err(_) => unreachable!(),
        }
    }
}

/// The place of an answer among those from `first` on: before the first of a greater number.
fn place_of(answers: &[Answer], first: usize, answer: &Answer) -> usize
    requires { first ≤ length answers.now }
    ensures within { result ≤ length answers.now }
    ensures place { insert answers.now result answer.now ≡ take first answers.now ++ released answer.now (drop first answers.now) }
{
    for k in first..answers.len() {
        if answer.tx.seq < answers[k].tx.seq {
            return k;
        }
    }
    answers.len()
}

fn sendable<T: Send + Sync>(_: &T) {}

fn all_sendable(sending: &Sending) {
    sendable(sending);
}
