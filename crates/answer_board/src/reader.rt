//! The readers of a board.
ghost use Rattle.std.specs.Prelude.{◌≡◌, IfNone, IfSome, IsFalse, false};
ghost use Rattle.answer_board.specs.Entries.{answer_at};
ghost use Rattle.answer_board.specs.Rule.{Entered};
ghost use Rattle.left_right.specs.Sides.{view as known};
ghost use mathlib.Core.List.{IsPrefix};

use crate::history::Front;
use crate::rules::{Seat, Sees};
use crate::writer::Shown;
use core::mem::replace_with;
use std::marker::{Model, Send};
use str_base::SessionId;
use str_model::Answer;
use str_scene::TxPlace;

/// A reader of a board. It is seen as the board's name, the list that it knows, and whether its last look found the board ended.
#[derive(Drop)]
pub struct BoardReader {
    seat: Seat,
    front: Front,
    ended: bool,
}

impl Model for BoardReader {
    ghost use Rattle.std.specs.Prelude.{◌≡◌, Some};
    ghost use Rattle.left_right.specs.Sides.{view as known};
    ghost use Rattle.answer_board.specs.History.{front_of};
    ghost use Rattle.answer_board.specs.Views.{ReaderView};

    ghost Value = { ReaderView };

    ghost view = { λ r. record { board = r.front.book; list = front_of r.front.log; ended = r.ended } };

    ghost invariant = { λ r. known r.seat.place ≡ Some r.front };
}

/// Enters what is shown, and finds the answer at the place. It has nothing where the writer is gone.
fn enter(seat: Seat, place: TxPlace) -> (Seat, Option<(Front, Option<Answer>)>)
    ensures entered { IfSome result.1 (λ e. Entered place (known seat.place) (known result.0.place) e.0 e.1) }
    ensures gone { IfNone result.1 (known result.0.place ≡ known seat.place) }
{
    match seat.enter_as::<Sees>() {
        Ok(reading) => {
            let shelf = reading.get();
            let front = shelf.front.again();
            let found = shelf.find(place);
            (reading.leave(), Some((front, found)))
        }
        Err(seat) => (seat, None),
    }
}

impl BoardReader {
    /// A reader that knows what the note says. It has the note's seat.
    pub fn new(shown: Shown) -> BoardReader
        ensures board { result.board ≡ shown.board }
        ensures list { result.list ≡ shown.list }
        ensures ended { result.ended ≡ false }
    {
        let Shown { seat, front } = shown;
        BoardReader {
            seat,
            front,
            ended: false,
        }
    }

    /// Whether the last look found the board ended.
    pub fn ended(&self) -> bool
        ensures { result ≡ self.now.ended }
    {
        self.ended
    }

    /// The answer at this place in the list that is shown now, which begins with all that this reader had seen or was told of. It takes no
    /// lock, no memory and no wait, and one look into the table of places. Where the board was ended it finds nothing, and the reader says so.
    #[tactic(auto, using(crate::proofs::Keeping::entered_grows))]
    pub fn look(&mut self, place: TxPlace) -> Option<Answer>
        ensures board { self.new.board ≡ self.old.board }
        ensures grows { IsPrefix self.old.list self.new.list }
        ensures value { IsFalse self.new.ended → result ≡ answer_at place self.new.list }
    {
        match replace_with(&mut self.seat, place, enter) {
            Some((front, found)) => {
                self.front = front;
                self.ended = false;
                found
            }
            None => {
                self.ended = true;
                None
            }
        }
    }

    /// Has the note's seat for its own where the note knows more.
    #[tactic(auto, using(crate::proofs::Rising::prefix_self))]
    fn adopt(&mut self, shown: Shown)
        requires { shown.board ≡ self.old.board }
        ensures board { self.new.board ≡ self.old.board }
        ensures grows { IsPrefix self.old.list self.new.list }
        ensures told { IsPrefix shown.list self.new.list }
    {
        let Shown { seat, front } = shown;
        if self.front.begins(&front) {
            self.seat = seat;
            self.front = front;
        }
    }

    /// Takes a note of this reader's board, and then enters what is shown, as a look does. It takes no lock, no memory and no wait.
    #[tactic(auto, using(crate::proofs::Rising::prefix_trans))]
    pub fn learn(&mut self, shown: Shown)
        requires { shown.board ≡ self.old.board }
        ensures board { self.new.board ≡ self.old.board }
        ensures grows { IsPrefix self.old.list self.new.list }
        ensures told { IsPrefix shown.list self.new.list }
    {
        self.adopt(shown);
        let _found = self.look(TxPlace {
            session: SessionId(0),
            index: 0,
        });
    }
}

fn sendable<T: Send>(_: &T) {}

fn all_sendable(reader: &BoardReader) {
    sendable(reader);
}
