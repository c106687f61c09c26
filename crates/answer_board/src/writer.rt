//! The writer of a board, and notes of what it has shown.
ghost use Rattle.std.specs.Prelude.{◌≡◌, ◌<◌, ◌++◌, ◌∷◌, ◌^◌, [], Some, drop, IfOk, OnErr, OnOk};
ghost use Rattle.answer_board.specs.Changes.{marked, puts};
ghost use Rattle.answer_board.specs.History.{head_of};
ghost use Rattle.answer_board.specs.Places.{MayFollow, places_of};
ghost use Rattle.answer_board.specs.Rule.{IsReady, Ready, ShowsAll, Stands};
ghost use Rattle.left_right.specs.Sides.{view as known};

use crate::entries::Entry;
use crate::history::{Front, Head};
use crate::rules::{Desk, Next, Notes, Seat, Sees};
use crate::shelf::{Change, Shelf};
use core::mem::replace_with;
use left_right::writer::Writer;
use std::alloc::{AllocError, Global};
use std::marker::{Model, Send};
use std::sync::Wait;
use str_scene::Scene;

/// The writer of a board. It is seen as the board's name, how many places each session has, the list that is shown, and the
/// entries that are held and not yet shown. It is let go by `end` alone.
pub struct BoardWriter {
    desk: Desk,
    head: Head,
    front: Front,
}

impl Model for BoardWriter {
    ghost use Rattle.std.specs.Prelude.{◌≡◌, drop};
    ghost use Rattle.left_right.specs.Sides.{view as known};
    ghost use Rattle.answer_board.specs.Changes.{puts};
    ghost use Rattle.answer_board.specs.History.{head_of};
    ghost use Rattle.answer_board.specs.Rule.{Stands};
    ghost use Rattle.answer_board.specs.Views.{WriterView};

    ghost Value = { WriterView };

    ghost view = { λ w. record { board = w.front.book; places = w.desk.desk.shown.value.entries.places; list = w.desk.desk.shown.value.entries.items; held = puts (drop w.desk.behind w.desk.log.items) } };

    ghost invariant = { λ w. Stands w.desk.desk.shown.value (puts (drop w.desk.behind w.desk.log.items)) (known w.desk.desk.place) w.front × (w.head ≡ head_of w.front.book) };
}

/// A note of what was shown, which has a seat at the board. It is seen as the board's name and that list.
#[derive(Drop)]
pub struct Shown {
    pub(crate) seat: Seat,
    pub(crate) front: Front,
}

impl Model for Shown {
    ghost use Rattle.std.specs.Prelude.{◌≡◌, Some};
    ghost use Rattle.left_right.specs.Sides.{view as known};
    ghost use Rattle.answer_board.specs.History.{front_of};
    ghost use Rattle.answer_board.specs.Views.{ShownView};

    ghost Value = { ShownView };

    ghost view = { λ n. record { board = n.front.book; list = front_of n.front.log } };

    ghost invariant = { λ n. known n.seat.place ≡ Some n.front };
}

/// Makes an entry pending.
#[tactic(auto, using(crate::proofs::Standing::puts_put))]
fn put(desk: &mut Desk, entry: &Entry) -> Result<(), AllocError>
    ensures desk { desk.new.desk ≡ desk.old.desk }
    ensures ok { OnOk result (puts (drop desk.new.behind desk.new.log.items) ≡ puts (drop desk.old.behind desk.old.log.items) ++ entry.now ∷ []) }
    ensures err { OnErr result (puts (drop desk.new.behind desk.new.log.items) ≡ puts (drop desk.old.behind desk.old.log.items)) }
{
    match desk.append(Change::Put(entry.copy())) {
        Ok(()) => Ok(()),
        Err(_) => Err(AllocError),
    }
}

/// Makes it pending that the history is shown.
#[tactic(auto, using(crate::proofs::Standing::puts_mark, crate::proofs::Standing::marked_mark))]
fn mark(desk: &mut Desk, front: &Front) -> Result<(), AllocError>
    ensures desk { desk.new.desk ≡ desk.old.desk }
    ensures held { puts (drop desk.new.behind desk.new.log.items) ≡ puts (drop desk.old.behind desk.old.log.items) }
    ensures ok { OnOk result (marked desk.old.desk.shown.value.front (drop desk.new.behind desk.new.log.items) ≡ front.now) }
{
    match desk.append(Change::Mark(front.again())) {
        Ok(()) => Ok(()),
        Err(_) => Err(AllocError),
    }
}

/// Adds all that is shown and held to the history, and makes that pending.
#[tactic(auto, using(crate::proofs::Standing::stands_added, crate::proofs::Standing::ready_added))]
fn prepare(desk: &mut Desk, head: &Head, front: &mut Front) -> Result<(), AllocError>
    requires stands { Stands desk.old.desk.shown.value (puts (drop desk.old.behind desk.old.log.items)) (known desk.old.desk.place) front.old }
    requires head { head.now ≡ head_of front.old.book }
    ensures desk { desk.new.desk ≡ desk.old.desk }
    ensures book { front.new.book ≡ front.old.book }
    ensures held { puts (drop desk.new.behind desk.new.log.items) ≡ puts (drop desk.old.behind desk.old.log.items) }
    ensures stands { Stands desk.old.desk.shown.value (puts (drop desk.old.behind desk.old.log.items)) (known desk.old.desk.place) front.new }
    ensures ready { OnOk result (Ready desk.old.desk.shown.value (puts (drop desk.old.behind desk.old.log.items)) front.new) }
    ensures marked { OnOk result (marked desk.old.desk.shown.value.front (drop desk.new.behind desk.new.log.items) ≡ front.new) }
{
    if !front.add::<Desk, Next>(head, desk) {
        return Err(AllocError);
    }
    mark(desk, front)
}

/// Shows all that is pending.
fn show<R: Wait>(desk: Desk, rt: &R) -> (Desk, Result<(), AllocError>)
    requires { IsReady desk.desk.shown.value (drop desk.behind desk.log.items) }
    ensures shown { OnOk result.1 (ShowsAll desk.desk.shown.value (drop desk.behind desk.log.items) result.0.desk.shown.value) }
    ensures none { OnOk result.1 (drop result.0.behind result.0.log.items ≡ []) }
    ensures seen { OnOk result.1 (known result.0.desk.place ≡ Some result.0.desk.shown.value.front) }
    ensures same { OnErr result.1 (result.0.desk.shown.value ≡ desk.desk.shown.value) }
    ensures kept { OnErr result.1 (drop result.0.behind result.0.log.items ≡ drop desk.behind desk.log.items) }
    ensures told { OnErr result.1 (known result.0.desk.place ≡ known desk.desk.place) }
{
    desk.publish_as::<Sees, R>(rt)
}

impl BoardWriter {
    /// The writer of a board with a place for each transaction of the scene and nothing shown, which has so many seats for readers and
    /// notes. The error is want of memory.
    pub(crate) fn new<R: Wait>(
        rt: &R,
        alloc: Global,
        scene: &Scene,
        seats: usize,
    ) -> Result<BoardWriter, AllocError>
        requires { (0 < seats) × (seats < 2 ^ 32) }
        ensures places { IfOk result (λ w. w.places ≡ places_of scene.now) }
        ensures list { IfOk result (λ w. w.list ≡ []) }
        ensures held { IfOk result (λ w. w.held ≡ []) }
    {
        let (head, front) = Front::open();
        let first = Shelf::new(alloc, scene, &front)?;
        let second = Shelf::new(alloc, scene, &front)?;
        let desk: Desk = Writer::new(alloc, first, second, seats)?;
        let (desk, shown) = show(desk, rt);
        if let Err(refused) = shown {
            desk.take(rt);
            return Err(refused);
        }
        Ok(BoardWriter { desk, head, front })
    }

    /// Keeps an entry to be shown. An answer's place is one of the board's, and no answer that is shown or held stands at it.
    ///
    /// # Errors
    ///
    /// Where memory is wanting nothing has changed.
    #[tactic(auto, using(crate::proofs::Standing::stands_put))]
    pub fn hold(&mut self, entry: &Entry) -> Result<(), AllocError>
        requires { MayFollow self.old.places (self.old.list ++ self.old.held) entry.now }
        ensures board { self.new.board ≡ self.old.board }
        ensures places { self.new.places ≡ self.old.places }
        ensures list { self.new.list ≡ self.old.list }
        ensures ok { OnOk result (self.new.held ≡ self.old.held ++ entry.now ∷ []) }
        ensures err { OnErr result (self.new.held ≡ self.old.held) }
    {
        put(&mut self.desk, entry)
    }

    /// Shows all that is held. It may wait for readers.
    ///
    /// # Errors
    ///
    /// Where memory is wanting nothing has changed.
    pub fn publish<R: Wait>(&mut self, rt: &R) -> Result<(), AllocError>
        ensures board { self.new.board ≡ self.old.board }
        ensures places { self.new.places ≡ self.old.places }
        ensures ok { OnOk result ((self.new.list ≡ self.old.list ++ self.old.held) × (self.new.held ≡ [])) }
        ensures err { OnErr result (self.new ≡ self.old) }
    {
        prepare(&mut self.desk, &self.head, &mut self.front)?;
        replace_with(&mut self.desk, rt, |desk, rt| show(desk, rt))
    }

    /// A note of all that is shown. It has a seat of the board.
    ///
    /// # Errors
    ///
    /// Where no seat is free, or memory is wanting, there is no note. The writer is as it was either way.
    pub fn tell(&mut self) -> Result<Shown, AllocError>
        ensures same { self.new ≡ self.old }
        ensures board { IfOk result (λ n. n.board ≡ self.old.board) }
        ensures list { IfOk result (λ n. n.list ≡ self.old.list) }
    {
        let mut seat = self.desk.factory().reader()?;
        seat.learn::<Notes>(self.desk.tell::<Notes>());
        let front = self.desk.published().front.again();
        Ok(Shown { seat, front })
    }

    /// Lets the writer go. It takes no memory, and may wait for readers. No look and no `learn` comes after it.
    pub fn end<R: Wait>(self, rt: &R) {
        let BoardWriter {
            desk,
            head: _head,
            front: _front,
        } = self;
        desk.take(rt);
    }
}

fn sendable<T: Send>(_: &T) {}

fn all_sendable(writer: &BoardWriter, shown: &Shown) {
    sendable(writer);
    sendable(shown);
}
