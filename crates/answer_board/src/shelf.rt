//! The value that is shown, of which there are two copies.
ghost use Rattle.std.specs.Prelude.{◌≡◌, IfOk, []};
ghost use Rattle.answer_board.specs.Entries.{answer_at};
ghost use Rattle.answer_board.specs.Places.{places_of};

use crate::entries::Entry;
use crate::history::Front;
use crate::listing::Listing;
use left_right::Absorb;
use std::alloc::{AllocError, Global};
use str_model::Answer;
use str_scene::{Scene, TxPlace};

/// The entries, and the history that came to them.
#[derive(Drop)]
pub struct Shelf {
    pub entries: Listing,
    pub front: Front,
}

/// An entry to be shown, or the history with all that is to be shown.
#[derive(Drop)]
pub enum Change {
    Put(Entry),
    Mark(Front),
}

impl Absorb<Change> for Shelf {
    ghost use Rattle.answer_board.specs.Changes.{changed};

    type State = (Listing, Front);

    ghost state = { λ s. (s.entries, s.front) };

    ghost applied = { changed };

    fn absorb_first(&mut self, operation: &Change, _other: &Shelf) -> Result<(), AllocError> {
        match operation {
            Change::Put(entry) => match self.entries.put(entry.copy()) {
                Ok(()) => Ok(()),
                Err(_) => Err(AllocError),
            },
            Change::Mark(front) => {
                self.front = front.again();
                Ok(())
            }
        }
    }

    fn absorb_second(&mut self, operation: Change, _other: &Shelf) -> Result<(), Change> {
        match operation {
            Change::Put(entry) => match self.entries.put(entry) {
                Ok(()) => Ok(()),
                Err(entry) => Err(Change::Put(entry)),
            },
            Change::Mark(front) => {
                self.front = front;
                Ok(())
            }
        }
    }
}

impl Shelf {
    /// No entry, and an empty place for each transaction of the scene.
    pub fn new(alloc: Global, scene: &Scene, front: &Front) -> Result<Shelf, AllocError>
        ensures places { IfOk result (λ s. s.entries ≡ record { places = places_of scene.now; items = [] }) }
        ensures front { IfOk result (λ s. s.front ≡ front.now) }
    {
        Ok(Shelf {
            entries: Listing::new(alloc, scene)?,
            front: front.again(),
        })
    }

    /// The answer at this place.
    pub fn find(&self, place: TxPlace) -> Option<Answer>
        ensures { result ≡ answer_at place self.now.entries.items }
    {
        self.entries.find(place)
    }
}
