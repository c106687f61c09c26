//! Looks at a worker's places.
ghost use Rattle.answer_board.specs.Entries.{answer_at};
ghost use Rattle.door.specs.Places.{own_places};
ghost use Rattle.door.specs.Searching.{FoundAt, FoundThere, Full, FullTo, found_among};
ghost use Rattle.std.specs.Prelude.{◌≡◌, ◌<◌, ◌≤◌, ◌++◌, ◌-◌, ◌∷◌, [], IfOk, None, length, replicate, vec_capacity, vec_len};
ghost use mathlib.Core.List.{IsPrefix};

use crate::places::places_of_node;
use answer_board::BoardReader;
use std::alloc::{AllocError, Global};
use std::sync::Wait;
use std::thread;
use str_base::NodeId;
use str_model::Answer;
use str_scene::{Scene, TxPlace};

/// The places of a node, and what was found at each.
#[derive(Drop)]
pub(crate) struct Search {
    pub node: NodeId,
    pub places: Vec<TxPlace>,
    pub found: Vec<Option<Answer>>,
}

impl Search {
    /// A search that has found nothing.
    pub fn new(alloc: Global, scene: &Scene, node: NodeId) -> Result<Search, AllocError>
        ensures node { IfOk result (λ s. s.node ≡ node) }
        ensures places { IfOk result (λ s. s.places.items ≡ own_places scene.now node) }
        ensures found { IfOk result (λ s. FoundAt s.places.items s.found.items []) }
    {
        let places = places_of_node(alloc, scene, node)?;
        let found = nothing_found(alloc, places.len())?;
        Ok(Search {
            node,
            places,
            found,
        })
    }
}

/// Nothing, for each of so many places.
fn nothing_found(alloc: Global, count: usize) -> Result<Vec<Option<Answer>>, AllocError>
    ensures { IfOk result (λ found. found.items ≡ replicate count None) }
{
    let mut found = Vec::new(alloc);
    for _ in 0..count {
        found.push(None)?;
    }
    Ok(found)
}

/// The answer at the place. Where the board was ended it waits forever: a door's board is ended after all looks.
fn look<R: Wait>(rt: &R, reader: &mut BoardReader, place: TxPlace) -> Option<Answer>
    ensures board { reader.new.board ≡ reader.old.board }
    ensures grows { IsPrefix reader.old.list reader.new.list }
    ensures value { result ≡ answer_at place reader.new.list }
{
    let found = reader.look(place);
    if reader.ended() {
        for _ in rt.forever() {
            thread::yield_now();
        }
        unreachable!()
    }
    found
}

/// Looks at the place, where nothing was found there.
#[tactic(auto, using(crate::proofs::Searches::found_grows, crate::proofs::Searches::found_looked, crate::proofs::Searches::full_looked, crate::proofs::Searches::full_found))]
fn look_once<R: Wait>(rt: &R, reader: &mut BoardReader, place: TxPlace, slot: &mut Option<Answer>)
    requires found { FoundThere place slot.old reader.old.list }
    ensures board { reader.new.board ≡ reader.old.board }
    ensures grows { IsPrefix reader.old.list reader.new.list }
    ensures found { FoundThere place slot.new reader.new.list }
    ensures full { Full place slot.new reader.old.list }
{
    if slot.is_none() {
        *slot = look(rt, reader, place);
    }
}

/// Looks at each place where nothing was found.
pub(crate) fn look_at_all<R: Wait>(
    rt: &R,
    reader: &mut BoardReader,
    places: &[TxPlace],
    found: &mut Vec<Option<Answer>>,
)
    requires kept { FoundAt places.now found.old.items reader.old.list }
    ensures board { reader.new.board ≡ reader.old.board }
    ensures grows { IsPrefix reader.old.list reader.new.list }
    ensures kept { FoundAt places.now found.new.items reader.new.list }
    ensures all { FullTo (length places.now) places.now found.new.items reader.old.list }
{
    for index in 0..places.len() {
        look_once(rt, reader, places[index], &mut found[index]);
    }
}

/// Appends what was found at a place. There is room for it.
fn push_found(answers: &mut Vec<Answer>, slot: &Option<Answer>)
    requires { vec_len answers.old < vec_capacity answers.old }
    ensures items { answers.new.items ≡ answers.old.items ++ found_among (slot.now ∷ []) }
    ensures capacity { vec_capacity answers.new ≡ vec_capacity answers.old }
{
    if let Some(answer) = slot {
        answers.push_reserved(answer.copy());
    }
}

/// Appends all that was found. There is room for it.
pub(crate) fn push_all_found(answers: &mut Vec<Answer>, found: &[Option<Answer>])
    requires { length found.now ≤ vec_capacity answers.old - vec_len answers.old }
    ensures { answers.new.items ≡ answers.old.items ++ found_among found.now }
{
    for index in 0..found.len() {
        push_found(answers, &found[index]);
    }
}
