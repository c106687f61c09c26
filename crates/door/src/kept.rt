//! What lies under the lock of a door.
ghost use Rattle.answer_board.specs.Places.{places_of};
ghost use Rattle.cluster_run.specs.Clusters.{Entered, PartlyDrained, drained_from};
ghost use Rattle.door.specs.Following.{run_entries};
ghost use Rattle.door.specs.Keeping.{BoardFollows, IsClosed, KeepsRun, FaultLeaves, ShownOrNot};
ghost use Rattle.spsi_laws.specs.Laws.Ends.{Ended};
ghost use Rattle.std.specs.Prelude.{◌≡◌, ◌++◌, IfErr, IfOk, None, OnErr, OnOk, [], not};
ghost use Rattle.str_model.specs.Drains.{next_event};
ghost use Rattle.str_model.specs.Runs.{happens, opening};

use crate::closing::Closing;
use crate::extents::Extent;
use crate::faults::DoorFault;
use crate::naming::Naming;
use answer_board::{BoardWriter, Shown};
use cluster_run::Cluster;
use std::alloc::{AllocError, Global};
use std::marker::{Model, PhantomData};
use std::mem::ManuallyDrop;
use std::sync::Wait;
use str_model::{Answer, Done};
use str_scene::Event;

/// A cluster, and the writer of a board that shows what it did. It is seen as the board's name, the scene, all that has happened, the list that
/// is shown, and the entries that are held and not yet shown. What has happened is the run of its journal, and what is shown and held begins
/// the cluster's entries: each journal entry with the answers that it released behind it.
pub struct Kept<J: Naming> {
    cluster: Cluster,
    // The lock lets no value go, so a guard that is let go owes nothing to the writer.
    writer: ManuallyDrop<BoardWriter>,
    extent: Extent,
    of: PhantomData<J>,
}

impl<J: Naming> Model for Kept<J> {
    ghost use Rattle.door.specs.Keeping.{BoardFollows, KeptView};
    ghost use Rattle.std.specs.Mem.{manually_drop_value};
    ghost use Rattle.std.specs.Prelude.{◌≡◌, ◌++◌};

    ghost Value = { KeptView };

    ghost view = { λ k. let w = manually_drop_value k.writer in record { board = w.board; scene = k.cluster.scene; world = k.cluster.world; shown = w.list; held = w.held } };

    ghost invariant = { λ k. let w = manually_drop_value k.writer in (w.board ≡ J.board) × BoardFollows k.cluster.scene k.cluster.world w.places (w.list ++ w.held) k.extent };
}

/// Holds the entries that the board lacks.
fn hold_all(
    writer: &mut BoardWriter,
    cluster: &Cluster,
    extent: &mut Extent,
) -> Result<(), AllocError>
    requires { BoardFollows cluster.now.scene cluster.now.world writer.old.places (writer.old.list ++ writer.old.held) extent.old }
    ensures board { writer.new.board ≡ writer.old.board }
    ensures list { writer.new.list ≡ writer.old.list }
    ensures follows { BoardFollows cluster.now.scene cluster.now.world writer.new.places (writer.new.list ++ writer.new.held) extent.new }
    ensures ok { OnOk result (writer.new.list ++ writer.new.held ≡ run_entries cluster.now.world) }
{
    let mut further = *extent;
    while let Some(entry) = further.next(cluster) {
        writer.hold(&entry)?;
        *extent = further;
    }
    Ok(())
}

/// Shows all entries of the cluster. Where memory is wanting the board shows what it showed.
fn show_all<R: Wait>(
    rt: &R,
    writer: &mut BoardWriter,
    cluster: &Cluster,
    extent: &mut Extent,
) -> Result<(), AllocError>
    requires { BoardFollows cluster.now.scene cluster.now.world writer.old.places (writer.old.list ++ writer.old.held) extent.old }
    ensures board { writer.new.board ≡ writer.old.board }
    ensures follows { BoardFollows cluster.now.scene cluster.now.world writer.new.places (writer.new.list ++ writer.new.held) extent.new }
    ensures list { OnOk result (writer.new.list ≡ run_entries cluster.now.world) }
    ensures held { OnOk result (writer.new.held ≡ []) }
    ensures err { OnErr result (writer.new.list ≡ writer.old.list) }
{
    hold_all(writer, cluster, extent)?;
    writer.publish(rt)
}

/// An equal journal.
fn copied_dones(alloc: Global, dones: &[Done]) -> Result<Vec<Done>, AllocError>
    ensures { IfOk result (λ copy. copy.items ≡ dones.now) }
{
    let mut copy = Vec::new(alloc);
    for done in dones {
        copy.push(*done)?;
    }
    Ok(copy)
}

/// Equal answers.
fn copied_answers(alloc: Global, answers: &[Answer]) -> Result<Vec<Answer>, AllocError>
    ensures { IfOk result (λ copy. copy.items ≡ answers.now) }
{
    let mut copy = Vec::new(alloc);
    for answer in answers {
        copy.push(answer.copy())?;
    }
    Ok(copy)
}

impl<J: Naming> Kept<J> {
    /// A fresh cluster, and the fresh writer of a board with the places of its scene.
    pub fn new(cluster: Cluster, writer: BoardWriter) -> Kept<J>
        requires board { writer.board ≡ J.board }
        requires places { writer.places ≡ places_of cluster.scene }
        requires world { cluster.world ≡ opening cluster.scene }
        requires list { writer.list ≡ [] }
        requires held { writer.held ≡ [] }
        ensures { result ≡ record { board = J.board; scene = cluster.scene; world = opening cluster.scene; shown = []; held = [] } }
    {
        let _scene = cluster.scene();
        Kept {
            cluster,
            writer: unsafe { ManuallyDrop::new_unchecked(writer) },
            extent: Extent::default(),
            of: PhantomData,
        }
    }

    /// Does an event and shows all entries of the cluster. False exactly where the event was idle.
    ///
    /// # Errors
    ///
    /// Where memory is wanting the event was done, and what is shown is as it was, or nothing has changed; the fault says which. What was not
    /// shown then is shown by the next call that answers `Ok`, or sooner.
    pub fn act<R: Wait>(&mut self, rt: &R, event: Event) -> Result<bool, DoorFault>
        ensures board { self.new.board ≡ J.board }
        ensures scene { self.new.scene ≡ self.old.scene }
        ensures world { OnOk result (self.new.world ≡ happens self.old.scene self.old.world event) }
        ensures idle { IfOk result (λ moves. Entered event (not moves) self.old.world self.new.world) }
        ensures shown { OnOk result (self.new.shown ≡ run_entries self.new.world) }
        ensures held { OnOk result (self.new.held ≡ []) }
        ensures err { IfErr result (λ fault. FaultLeaves fault
            ((self.new.world ≡ happens self.old.scene self.old.world event) × (self.new.shown ≡ self.old.shown)) (self.new ≡ self.old)) }
        ensures kept { KeepsRun self.new }
    {
        let Ok(moves) = self.cluster.event(event) else {
            return Err(DoorFault::Memory { done: false });
        };
        match show_all(rt, &mut self.writer, &self.cluster, &mut self.extent) {
            Ok(()) => Ok(moves),
            Err(_) => Err(DoorFault::Memory { done: true }),
        }
    }

    /// A note of all that is shown.
    ///
    /// # Errors
    ///
    /// Where no seat of the board is free, or memory is wanting, there is no note. What is kept is as it was either way.
    pub fn tell(&mut self) -> Result<Shown, AllocError>
        ensures same { self.new ≡ self.old }
        ensures board { IfOk result (λ note. note.board ≡ J.board) }
        ensures list { IfOk result (λ note. note.list ≡ self.old.shown) }
    {
        self.writer.tell()
    }

    /// Drains the cluster, shows all its entries, and gives its journal, its answers, its numbers and a note of what is shown.
    ///
    /// # Errors
    ///
    /// Where memory is wanting the drain came to its stop, and what is shown is as it was or is all; or some of the drain's events were
    /// done, and what is shown is as it was. The fault says which. The call may be made again.
    pub fn close<R: Wait>(&mut self, rt: &R, alloc: Global) -> Result<Closing, DoorFault>
        ensures board { self.new.board ≡ J.board }
        ensures scene { self.new.scene ≡ self.old.scene }
        ensures world { OnOk result (self.new.world ≡ drained_from self.old.scene self.old.world) }
        ensures stop { OnOk result (next_event self.new.scene self.new.world ≡ None) }
        ensures shown { OnOk result (self.new.shown ≡ run_entries self.new.world) }
        ensures held { OnOk result (self.new.held ≡ []) }
        ensures closing { IfOk result (λ closing. IsClosed self.new closing) }
        ensures err { IfErr result (λ fault. FaultLeaves fault
            ((self.new.world ≡ drained_from self.old.scene self.old.world) × ShownOrNot self.old self.new)
            (PartlyDrained self.old.scene self.old.world self.new.world × (self.new.shown ≡ self.old.shown))) }
        ensures kept { KeepsRun self.new }
    {
        match self.cluster.drain() {
            Ok(()) => match self.closing(rt, alloc) {
                Ok(closing) => Ok(closing),
                Err(_) => Err(DoorFault::Memory { done: true }),
            },
            Err(_) => Err(DoorFault::Memory { done: false }),
        }
    }

    /// Shows all entries of a cluster at the stop of its drain, and gives its closing. Where memory is wanting what is shown is as it was, or is all.
    fn closing<R: Wait>(&mut self, rt: &R, alloc: Global) -> Result<Closing, AllocError>
        requires { Ended self.old.scene self.old.world }
        ensures board { self.new.board ≡ J.board }
        ensures scene { self.new.scene ≡ self.old.scene }
        ensures world { self.new.world ≡ self.old.world }
        ensures shown { OnOk result (self.new.shown ≡ run_entries self.new.world) }
        ensures held { OnOk result (self.new.held ≡ []) }
        ensures closing { IfOk result (λ closing. IsClosed self.new closing) }
        ensures err { OnErr result (ShownOrNot self.old self.new) }
        ensures kept { KeepsRun self.new }
    {
        let journal = copied_dones(alloc, self.cluster.journal())?;
        let answers = copied_answers(alloc, self.cluster.answers())?;
        let counts = self.cluster.counts();
        show_all(rt, &mut self.writer, &self.cluster, &mut self.extent)?;
        let shown = self.writer.tell()?;
        Ok(Closing {
            journal,
            answers,
            counts,
            shown,
        })
    }

    /// Lets the board's writer go. It takes no memory, and may wait for readers. No look and no `learn` comes after it.
    pub fn end<R: Wait>(self, rt: &R) {
        let Kept {
            cluster: _,
            writer,
            extent: _,
            of: _,
        } = self;
        ManuallyDrop::into_inner(writer).end(rt);
    }
}
