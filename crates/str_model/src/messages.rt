//! Messages, inputs and answers. Each has a copy that takes no memory.
ghost use Rattle.std.specs.Prelude.{◌≡◌};

use crate::names::{Gets, KeyMarks};
use std::marker::{Send, Sync};
use str_base::{Cause, KeyId, NodeId, PartId, SessionId, Ts, TxId, Value, Writes};
use str_scene::TxPlace;

/// What a message says.
#[derive(Drop)]
pub enum Body {
    ReadReq {
        tx: TxId,
        key: KeyId,
        rs: Ts,
    },
    ReadReply {
        tx: TxId,
        key: KeyId,
        value: Value,
        by: Option<TxId>,
        fc: Ts,
    },
    Prepare {
        tx: TxId,
        part: PartId,
        rs: Ts,
        lc: Ts,
        writes: Writes,
    },
    Refuse {
        tx: TxId,
        part: PartId,
        by: TxId,
        key: KeyId,
    },
    Replicate {
        tx: TxId,
        part: PartId,
        rs: Ts,
        lc: Ts,
        writes: Writes,
    },
    Ack {
        tx: TxId,
        part: PartId,
        ts: Ts,
    },
    Commit {
        tx: TxId,
        part: PartId,
        fc: Ts,
        marks: KeyMarks,
    },
    Abort {
        tx: TxId,
        part: PartId,
    },
}

impl Body {
    /// An equal body.
    pub fn copy(&self) -> Body
        ensures { result ≡ self.now }
    {
        match self {
            Body::ReadReq { tx, key, rs } => Body::ReadReq {
                tx: *tx,
                key: *key,
                rs: *rs,
            },
            Body::ReadReply {
                tx,
                key,
                value,
                by,
                fc,
            } => Body::ReadReply {
                tx: *tx,
                key: *key,
                value: *value,
                by: *by,
                fc: *fc,
            },
            Body::Prepare {
                tx,
                part,
                rs,
                lc,
                writes,
            } => Body::Prepare {
                tx: *tx,
                part: *part,
                rs: *rs,
                lc: *lc,
                writes: writes.copy(),
            },
            Body::Refuse { tx, part, by, key } => Body::Refuse {
                tx: *tx,
                part: *part,
                by: *by,
                key: *key,
            },
            Body::Replicate {
                tx,
                part,
                rs,
                lc,
                writes,
            } => Body::Replicate {
                tx: *tx,
                part: *part,
                rs: *rs,
                lc: *lc,
                writes: writes.copy(),
            },
            Body::Ack { tx, part, ts } => Body::Ack {
                tx: *tx,
                part: *part,
                ts: *ts,
            },
            Body::Commit {
                tx,
                part,
                fc,
                marks,
            } => Body::Commit {
                tx: *tx,
                part: *part,
                fc: *fc,
                marks: marks.copy(),
            },
            Body::Abort { tx, part } => Body::Abort {
                tx: *tx,
                part: *part,
            },
        }
    }
}

/// A message from one node to another.
#[derive(Drop)]
pub struct Message {
    pub sender: NodeId,
    pub receiver: NodeId,
    pub body: Body,
}

impl Message {
    /// An equal message.
    pub fn copy(&self) -> Message
        ensures { result ≡ self.now }
    {
        Message {
            sender: self.sender,
            receiver: self.receiver,
            body: self.body.copy(),
        }
    }
}

/// What a node steps on: a client step with a clock reading, or a message.
#[derive(Drop)]
pub enum Input {
    Client { session: SessionId, reading: u64 },
    Deliver(Message),
}

impl Input {
    /// An equal input.
    pub fn copy(&self) -> Input
        ensures { result ≡ self.now }
    {
        match self {
            Input::Client { session, reading } => Input::Client {
                session: *session,
                reading: *reading,
            },
            Input::Deliver(message) => Input::Deliver(message.copy()),
        }
    }
}

/// How a transaction ended: committed, with its final timestamp where it wrote, or aborted.
#[derive(Drop)]
pub enum Outcome {
    Committed { fc: Option<Ts>, gets: Gets },
    Aborted { cause: Cause },
}

impl Outcome {
    /// An equal outcome.
    pub fn copy(&self) -> Outcome
        ensures { result ≡ self.now }
    {
        match self {
            Outcome::Committed { fc, gets } => Outcome::Committed {
                fc: *fc,
                gets: gets.copy(),
            },
            Outcome::Aborted { cause } => Outcome::Aborted { cause: *cause },
        }
    }
}

/// The answer of a transaction: its name, its place in the scene, its snapshot timestamp and how it ended.
#[derive(Drop)]
pub struct Answer {
    pub tx: TxId,
    pub place: TxPlace,
    pub rs: Ts,
    pub outcome: Outcome,
}

impl Answer {
    /// An equal answer.
    pub fn copy(&self) -> Answer
        ensures { result ≡ self.now }
    {
        Answer {
            tx: self.tx,
            place: self.place,
            rs: self.rs,
            outcome: self.outcome.copy(),
        }
    }
}

/// A Prepare or a Replicate as it came.
#[derive(Drop)]
pub struct Arrived {
    pub tx: TxId,
    pub part: PartId,
    pub rs: Ts,
    pub lc: Ts,
    pub writes: Writes,
}

impl Arrived {
    /// An equal one.
    pub fn copy(&self) -> Arrived
        ensures { result ≡ self.now }
    {
        Arrived {
            tx: self.tx,
            part: self.part,
            rs: self.rs,
            lc: self.lc,
            writes: self.writes.copy(),
        }
    }
}

/// What waits at a node for others: a read of another node, or a parked Prepare.
#[derive(Drop)]
pub enum Waiter {
    Read { tx: TxId, key: KeyId, rs: Ts },
    Held(Arrived),
}

impl Waiter {
    /// An equal one.
    pub fn copy(&self) -> Waiter
        ensures { result ≡ self.now }
    {
        match self {
            Waiter::Read { tx, key, rs } => Waiter::Read {
                tx: *tx,
                key: *key,
                rs: *rs,
            },
            Waiter::Held(arrived) => Waiter::Held(arrived.copy()),
        }
    }
}

fn sendable<T: Send + Sync>(_: &T) {}

fn all_sendable(message: &Message, input: &Input, answer: &Answer, waiter: &Waiter) {
    sendable(message);
    sendable(input);
    sendable(answer);
    sendable(waiter);
}
