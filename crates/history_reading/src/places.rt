//! Where texts stand in a list.
ghost use Rattle.history_reading.specs.Places.{place_in};
ghost use Rattle.indexmap.specs.IndexMap.{insert_entry};
ghost use Rattle.std.specs.Prelude.{IfOk, OnOk, [], ◌≡◌};
ghost use Rattle.std.specs.Str.{bytes_eq};

use indexmap::IndexMap;
use std::alloc::{AllocError, Global};
use std::marker::Model;

/// The number of each text. It is found by its hash.
#[derive(Drop)]
pub struct Places {
    numbers: IndexMap<Vec<u8>, u32>,
}

impl Model for Places {
    ghost use Rattle.std.specs.Prelude.{List, map, ℕ};

    ghost Value = { List (List ℕ × ℕ) };

    ghost view = { λ p. map (λ e. (e.0.items, e.1)) p.numbers.entries };
}

impl Places {
    /// No text.
    pub fn new(alloc: Global) -> Places
        ensures { result ≡ [] }
    {
        Places {
            numbers: IndexMap::new(alloc),
        }
    }

    /// Gives a text a number.
    pub fn put(&mut self, text: Vec<u8>, place: u32) -> Result<(), AllocError>
        ensures { OnOk result (self.new ≡ insert_entry bytes_eq self.old text.items place) }
    {
        self.numbers.insert(text, place)?;
        Ok(())
    }

    /// The number of a text.
    pub fn find(&self, text: &[u8]) -> Option<u32>
        ensures { result ≡ place_in self.now text.now }
    {
        match self.numbers.get(text) {
            Some(place) => Some(*place),
            None => None,
        }
    }
}
