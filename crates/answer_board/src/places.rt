//! A slot for each place of a scene.
ghost use Rattle.std.specs.Prelude.{◌≡◌, ◌<◌, IfOk, None, Some, length, map, replicate, slice_get, slice_set};
ghost use Rattle.answer_board.specs.Slots.{empty_rows, filled, slot_at};

use std::alloc::{AllocError, Global};
use std::marker::Model;
use str_scene::{Scene, TxPlace};

/// The slots of a session's places in order. A slot is empty, or has a position. It is seen as their list.
#[derive(Drop)]
pub(crate) struct Row {
    slots: Vec<Option<usize>>,
}

impl Model for Row {
    ghost use Rattle.std.specs.Prelude.{List, Option, ℕ};

    ghost Value = { List (Option ℕ) };

    ghost view = { λ r. r.slots.items };
}

impl Row {
    /// So many empty slots.
    fn new(alloc: Global, count: usize) -> Result<Row, AllocError>
        ensures { IfOk result (λ r. r ≡ replicate count None) }
    {
        let mut slots = Vec::new(alloc);
        for _ in 0..count {
            slots.push(None)?;
        }
        Ok(Row { slots })
    }

    /// The slot with this number, from 0.
    fn get(&self, number: usize) -> Option<Option<usize>>
        ensures { result ≡ slice_get self.now number }
    {
        self.slots.get(number).copied()
    }

    /// Puts a position into the slot.
    fn set(&mut self, number: usize, position: usize)
        requires { number < length self.old }
        ensures { self.new ≡ slice_set self.old number (Some position) }
    {
        self.slots[number] = Some(position);
    }
}

/// A slot for each place of a scene. It is seen as the rows of its sessions.
#[derive(Drop)]
pub(crate) struct PlaceTable {
    rows: Vec<Row>,
}

impl Model for PlaceTable {
    ghost use Rattle.std.specs.Prelude.{List, Option, ℕ};

    ghost Value = { List (List (Option ℕ)) };

    ghost view = { λ t. t.rows.items };
}

impl PlaceTable {
    /// An empty slot for each transaction of the scene.
    pub fn new(alloc: Global, scene: &Scene) -> Result<PlaceTable, AllocError>
        ensures { IfOk result (λ t. t ≡ empty_rows scene.now) }
    {
        let mut rows = Vec::new(alloc);
        for session in scene.sessions() {
            rows.push(Row::new(alloc, session.txs().len())?)?;
        }
        Ok(PlaceTable { rows })
    }

    /// The slot of a place, if there is such a place.
    pub fn slot(&self, place: TxPlace) -> Option<Option<usize>>
        ensures { result ≡ slot_at self.now place }
    {
        if place.session.0 == 0 || place.index == 0 {
            return None;
        }
        match self.rows.get(place.session.0 as usize - 1) {
            Some(row) => row.get(place.index as usize - 1),
            None => None,
        }
    }

    /// Puts a position into the slot of a place, which there is.
    pub fn fill(&mut self, place: TxPlace, position: usize)
        requires { slot_at self.old place ≡ Some None }
        ensures { self.new ≡ filled self.old place position }
    {
        let row = &mut self.rows[place.session.0 as usize - 1];
        row.set(place.index as usize - 1, position);
    }
}
