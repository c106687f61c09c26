//! An answer that is held until its transaction is decided.
ghost use Rattle.held_answer.specs.Answers.{aborted, committed, noted, opened};
ghost use Rattle.std.specs.Prelude.{◌≡◌, ◌<◌, length};

use std::marker::{Model, Send, Sync};
use str_base::{Cause, KeyId, Ts, TxId, Value};
use str_model::{Answer, Gets, Got, Outcome};
use str_scene::TxPlace;

/// An answer that is held: whose it is, and what its gets gave. Nothing shows the gets before the commit.
#[derive(Drop)]
pub struct HeldAnswer {
    tx: TxId,
    place: TxPlace,
    rs: Ts,
    gets: Gets,
}

impl Model for HeldAnswer {
    ghost use Rattle.held_answer.specs.Answers.{HeldAnswer as Held};

    ghost Value = { Held };

    ghost view = { λ h. record { tx = h.tx; place = h.place; rs = h.rs; gets = h.gets } };
}

impl HeldAnswer {
    /// An answer without gets.
    pub fn new(tx: TxId, place: TxPlace, rs: Ts) -> HeldAnswer
        ensures { result ≡ opened tx place rs }
    {
        HeldAnswer {
            tx,
            place,
            rs,
            gets: Gets::new(),
        }
    }

    /// Notes what a get gave.
    pub fn note(&mut self, key: KeyId, value: Value)
        requires { length self.old.gets < 16 }
        ensures { self.new ≡ noted key value self.old }
    {
        self.gets.push(Got { key, value });
    }

    /// The answer of a commit, with all gets in order and the final timestamp where the transaction wrote.
    pub fn commit(self, fc: Option<Ts>) -> Answer
        ensures { result ≡ committed fc self }
    {
        Answer {
            tx: self.tx,
            place: self.place,
            rs: self.rs,
            outcome: Outcome::Committed {
                fc,
                gets: self.gets,
            },
        }
    }

    /// The answer of an abort with this cause.
    pub fn abort(self, cause: Cause) -> Answer
        ensures { result ≡ aborted cause self }
    {
        Answer {
            tx: self.tx,
            place: self.place,
            rs: self.rs,
            outcome: Outcome::Aborted { cause },
        }
    }
}

fn sendable<T: Send + Sync>(_: &T) {}

fn all_sendable(held: &HeldAnswer) {
    sendable(held);
}
