//! The rule of a board: what a seat knows is a beginning of what is shown.

use crate::history::{Front, Version};
use crate::shelf::{Change, Shelf};
use atomic_table::{Join, Split};
use crossbeam_utils::rule::{Outcome, Protocol};
use left_right::reader::Reader;
use left_right::writer::Writer;
use logbook::Plain;

/// What a seat knows is a beginning of the history, or nothing.
pub struct Prefixes;

impl Protocol<Shelf, Option<Front>> for Prefixes {
    ghost use Rattle.std.specs.Prelude.{None};
    ghost use Rattle.answer_board.specs.Rule.{Keeps};

    ghost holds = { Keeps };

    ghost first = { None };
}

/// Who enters or publishes knows all that is shown then.
pub struct Sees;

impl Outcome<Shelf, Option<Front>> for Sees {
    ghost use Rattle.answer_board.specs.Rule.{Enters};

    ghost then = { Enters };
}

/// A note has all that its giver knows, and its taker knows it then.
pub struct Notes;

impl Split<Option<Front>> for Notes {
    ghost left = { λ v. v };

    ghost right = { λ v. v };
}

impl Join<Option<Front>> for Notes {
    ghost use Rattle.std.specs.Prelude.{None};

    ghost both = { λ v w. w };

    ghost spent = { None };
}

/// The seat of a reader or a note.
pub type Seat = Reader<Shelf, Option<Front>, Prefixes>;

/// The writer's side.
pub type Desk = Writer<Shelf, Change, Option<Front>, Prefixes>;

/// The version that has all that is shown and all that is held.
pub struct Next;

impl Plain<Desk, Version, ()> for Next {
    ghost use Rattle.std.specs.Prelude.{◌++◌, drop, None};
    ghost use Rattle.answer_board.specs.Changes.{puts};

    ghost ask = { λ w. w.desk.shown.value.entries.items ++ puts (drop w.behind w.log.items) };

    ghost state = { λ w. None };
}
