//! A door: callers act on one cluster under a lock.
ghost use Rattle.answer_board.specs.Places.{places_of};
ghost use Rattle.door.specs.Acting.{EndsWith};
ghost use Rattle.door.specs.Keeping.{FaultLeaves};
ghost use Rattle.std.specs.Prelude.{◌≡◌, All, IfErr, IfOk, [], false};

use crate::closing::Closing;
use crate::faults::DoorFault;
use crate::kept::Kept;
use crate::naming::Naming;
use answer_board::boards::Board;
use answer_board::{BoardReader, BoardWriter, Shown};
use cluster_run::Cluster;
use std::alloc::Global;
use std::sync::{Mutex, Wait};
use str_scene::{Event, Scene};

/// A cluster and its board under a lock. Its type carries the board's name. It is let go by `end` alone.
pub struct Door<J: Naming> {
    kept: Mutex<Kept<J>>,
}

/// A door, and the readers of its board.
pub struct DoorParts<J: Naming> {
    pub door: Door<J>,
    pub readers: Vec<BoardReader>,
}

/// What an act tells: whether its event was idle, and a note of all that was shown right after it.
#[derive(Drop)]
pub struct Told {
    pub idle: bool,
    pub shown: Shown,
}

impl<J: Naming> Door<J> {
    /// A door with the cluster of a scene at its beginning, over a fresh board with the places of that scene and the name of this type.
    ///
    /// # Errors
    ///
    /// The error is want of memory, and says that nothing was done. The board was ended then.
    pub fn new<R: Wait>(
        rt: &R,
        alloc: Global,
        scene: Scene,
        board: Board,
    ) -> Result<DoorParts<J>, DoorFault>
        requires board { board.writer.board ≡ J.board }
        requires places { board.writer.places ≡ places_of scene }
        requires list { board.writer.list ≡ [] }
        requires held { board.writer.held ≡ [] }
        ensures readers { IfOk result (λ parts. parts.readers ≡ board.readers) }
        ensures fault { IfErr result (λ fault. fault ≡ DoorFault.Memory false) }
    {
        let Board { writer, readers } = board;
        match Cluster::new(alloc, scene) {
            Ok(cluster) => Ok(DoorParts {
                door: Door {
                    kept: Mutex::new(Kept::new(cluster, writer)),
                },
                readers,
            }),
            Err(_) => {
                writer.end(rt);
                Err(DoorFault::Memory { done: false })
            }
        }
    }

    /// Does an event under the lock, and shows it. The last journal entry in the list of the note is of the event.
    ///
    /// # Errors
    ///
    /// The fault says whether the event was done. It was also where no seat of the board is free for a note.
    pub fn act<R: Wait>(&self, rt: &R, event: Event) -> Result<Told, DoorFault>
        ensures board { IfOk result (λ told. told.shown.board ≡ J.board) }
        ensures last { IfOk result (λ told. EndsWith told.shown.list event told.idle) }
    {
        let mut kept = self.kept.lock(rt);
        let moves = kept.act(rt, event)?;
        match kept.tell() {
            Ok(shown) => Ok(Told {
                idle: !moves,
                shown,
            }),
            Err(_) => Err(DoorFault::Memory { done: true }),
        }
    }

    /// Drains the cluster, shows all, and gives what the cluster did. The borrow shuts out all callers. A later `act` goes on from there.
    ///
    /// # Errors
    ///
    /// The fault says whether the drain came to its stop. Else some of its events were done. The call may be made again.
    pub fn close<R: Wait>(&mut self, rt: &R, alloc: Global) -> Result<Closing, DoorFault>
        ensures { IfOk result (λ closing. closing.shown.board ≡ J.board) }
    {
        self.kept.get_mut().close(rt, alloc)
    }

    /// Lets the board's writer go. It takes no memory, and may wait for readers. No look and no `learn` comes after it.
    pub fn end<R: Wait>(self, rt: &R) {
        let Door { kept } = self;
        kept.into_inner().end(rt);
    }
}
