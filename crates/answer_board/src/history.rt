//! The history of a board. It exists in the proofs alone; what is kept of it is a word, the number of versions so far.
ghost use Rattle.std.specs.Prelude.{◌≡◌, ◌+◌, ◌==◌, ◌<◌, ◌^◌, ◌++◌, ◌∷◌, [], List, None, length, MatchBool, IsTrue, IsFalse};
ghost use mathlib.Core.List.{IsPrefix};
ghost use Rattle.answer_board.specs.History.{Rises, front_of, head_of};

use crate::entries::Entry;
use logbook::{Gain, Offer, Plain, Play, Rule, Seen, Start, Word};
use std::marker::Model;

/// A list of entries. No value of it is made, and a clause reads it as a list of any length.
pub type Version = [Entry; 0];

/// The rule of the history.
pub struct Law;

impl Rule<Version, ()> for Law {
    ghost use Rattle.std.specs.Prelude.{[]};
    ghost use base.Fml.{ftrue};
    ghost use Rattle.answer_board.specs.History.{IsKept};

    ghost holds = { λ cells log. IsKept cells log };

    ghost first = { [] };

    ghost hinted = { λ n log. Unit {0} };

    ghost shows = { λ log. [] };

    ghost keeps = { λ names log. ftrue };

    ghost moves = { λ ask before after answer. Unit {0} };
}

/// Callers trade nothing.
pub struct Nothing;

impl Gain<Version, ()> for Nothing {
    ghost use base.Fml.{ftrue};

    ghost after = { λ names about answer. ftrue };
}

/// A step that adds a version.
pub struct Add;

impl Play<Version, ()> for Add {
    ghost use Rattle.answer_board.specs.History.{Adds};

    ghost then = { Adds };
}

pub type Head = Word<Version, (), Law>;

/// A beginning of the history that was seen. Contracts see it as its book and its versions.
#[derive(Drop)]
pub struct Front {
    count: u64,
    seen: Seen<Version, (), Law>,
}

impl Model for Front {
    ghost use Rattle.std.specs.Prelude.{◌≡◌, [], length};
    ghost use Rattle.answer_board.specs.History.{Rises};
    ghost use Rattle.answer_board.specs.Views.{FrontView};

    ghost Value = { FrontView };

    ghost view = { λ f. record { book = f.seen.book; log = f.seen.log } };

    ghost invariant = { λ f. (f.count ≡ length f.seen.log) × Rises [] f.seen.log };
}

impl Front {
    /// A new history with no version, and its word.
    pub fn open() -> (Head, Front)
        ensures { (result.0 ≡ head_of result.1.book) × (result.1.log ≡ []) }
    {
        let (seen, mut first, _second) = Seen::open(Start::alone(), 0, 0);
        (Word::tracked(0, &mut first), Front { count: 0, seen })
    }

    /// A copy.
    pub fn again(&self) -> Front
        ensures copy { result ≡ self.now }
        ensures rises { Rises [] self.now.log }
    {
        Front {
            count: self.count,
            seen: self.seen.again(),
        }
    }

    /// Whether the other begins with this one; else this one begins with the other.
    pub fn begins(&self, other: &Front) -> bool
        requires { other.now.book ≡ self.now.book }
        ensures yes { IsTrue result → IsPrefix self.now.log other.now.log × IsPrefix (front_of self.now.log) (front_of other.now.log) }
        ensures no { IsFalse result → IsPrefix other.now.log self.now.log × IsPrefix (front_of other.now.log) (front_of self.now.log) }
    {
        let mut both = self.seen.again();
        both.learn(&other.seen);
        self.count <= other.count
    }

    /// Adds a version, and says whether it did. It does not where the history is longer.
    pub fn add<X, M: Plain<X, Version, ()>>(&mut self, head: &Head, about: &X) -> bool
        requires head { head.now ≡ head_of self.old.book }
        requires plain { M.state about.now ≡ None }
        requires follows { IsPrefix (front_of self.old.log) (M.ask about.now) }
        ensures book { self.new.book ≡ self.old.book }
        ensures added { IsTrue result → self.new.log ≡ self.old.log ++ M.ask about.now ∷ [] }
        ensures same { IsFalse result → self.new ≡ self.old }
        ensures rises { Rises [] self.new.log }
    {
        if self.count == u64::MAX {
            return false;
        }
        let next = self.count + 1;
        let mut seen = self.seen.again();
        let mut offer: Offer<Version, (), Law, Nothing> = seen.plain::<Nothing, X, M>(about);
        let mut pen = seen.no_pen();
        let found = head.compare_exchange::<Add, Nothing>(
            self.count, next, &mut seen, &mut offer, &mut pen,
        );
        if found != self.count {
            return false;
        }
        self.seen = seen;
        self.count = next;
        true
    }
}
