//! The entries that are shown, with a slot for each place that says where its answer stands.
ghost use Rattle.std.specs.Prelude.{◌≡◌, IfErr, IfOk, OnOk, [], slice_get};
ghost use Rattle.answer_board.specs.declared.entries.Entry.TheVariants.{Did, Gave};
ghost use Rattle.answer_board.specs.Entries.{answer_at, answer_in};
ghost use Rattle.answer_board.specs.Places.{is_free, places_of, with_entry};

use crate::entries::Entry;
use crate::places::PlaceTable;
use std::alloc::{AllocError, Global};
use std::marker::Model;
use str_model::{Answer, Done};
use str_scene::{Scene, TxPlace};

/// A list of entries, at most one answer a place. It is seen as how many places each session has, and its entries.
#[derive(Drop)]
pub struct Listing {
    table: PlaceTable,
    entries: Vec<Entry>,
}

impl Model for Listing {
    ghost use Rattle.std.specs.Prelude.{length, map};
    ghost use Rattle.answer_board.specs.Places.{Listed};
    ghost use Rattle.answer_board.specs.Slots.{IsListing};

    ghost Value = { Listed };

    ghost view = { λ l. record { places = map length l.table; items = l.entries.items } };

    ghost invariant = { λ l. IsListing l.table l.entries.items };
}

/// The answer at a position of the entries, if one stands there.
fn answer_there(entries: &[Entry], position: usize) -> Option<Answer>
    ensures { result ≡ answer_in (slice_get entries.now position) }
{
    match entries.get(position) {
        Some(Entry::Gave(answer)) => Some(answer.copy()),
        _ => None,
    }
}

impl Listing {
    /// No entry, and an empty place for each transaction of the scene.
    pub fn new(alloc: Global, scene: &Scene) -> Result<Listing, AllocError>
        ensures { IfOk result (λ l. l ≡ record { places = places_of scene.now; items = [] }) }
    {
        Ok(Listing {
            table: PlaceTable::new(alloc, scene)?,
            entries: Vec::new(alloc),
        })
    }

    /// The answer at this place. It takes one look into the table of places.
    pub fn find(&self, place: TxPlace) -> Option<Answer>
        ensures { result ≡ answer_at place self.now.items }
    {
        let position = self.table.slot(place)??;
        answer_there(self.entries.as_slice(), position)
    }

    /// Whether there is such a place, and no answer stands at it.
    fn is_free(&self, place: TxPlace) -> bool
        ensures { result ≡ is_free self.now place }
    {
        match self.table.slot(place) {
            Some(slot) => slot.is_none(),
            None => false,
        }
    }

    /// Appends an entry that is no answer.
    fn put_done(&mut self, done: Done) -> Result<(), Entry>
        ensures ok { OnOk result (self.new ≡ with_entry self.old (Did done)) }
        ensures err { IfErr result (λ e. (e ≡ Did done) × (self.new ≡ self.old)) }
    {
        match self.entries.push(Entry::Did(done)) {
            Ok(()) => Ok(()),
            Err(failed) => Err(failed.value),
        }
    }

    /// Appends an answer, where its place is free.
    fn put_answer(&mut self, answer: Answer) -> Result<(), Entry>
        ensures ok { OnOk result (self.new ≡ with_entry self.old (Gave answer)) }
        ensures err { IfErr result (λ e. (e ≡ Gave answer) × (self.new ≡ self.old)) }
    {
        let place = answer.place;
        if !self.is_free(place) {
            return Ok(());
        }
        let position = self.entries.len();
        match self.entries.push(Entry::Gave(answer)) {
            Ok(()) => {
                self.table.fill(place, position);
                Ok(())
            }
            Err(failed) => Err(failed.value),
        }
    }

    /// Appends an entry; an answer only where its place is free. The entry comes back where memory is wanting, and nothing has changed then.
    pub fn put(&mut self, entry: Entry) -> Result<(), Entry>
        ensures ok { OnOk result (self.new ≡ with_entry self.old entry) }
        ensures err { IfErr result (λ e. (e ≡ entry) × (self.new ≡ self.old)) }
    {
        match entry {
            Entry::Did(done) => self.put_done(done),
            Entry::Gave(answer) => self.put_answer(answer),
        }
    }
}
