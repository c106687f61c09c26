//! A scene, an answer in it, an entry, and what the jobs came to.
ghost use Rattle.answer_board.specs.Places.{places_of};
ghost use Rattle.std.specs.Prelude.{◌≡◌, ◌∷◌, [], IfOk};

use partition_map::PartRow;
use std::alloc::Global;
use std::io;
use std::time::{Clock, Instant};
use str_base::{Cause, NodeId, SessionId, Ts, TxId};
use str_model::{Answer, Done, Outcome};
use str_scene::{Event, Op, OpList, Scene, SceneBuild, SceneFault, TxPlace};

/// The session and the number of the transaction whose answer is looked for.
pub const PLACE: TxPlace = TxPlace {
    session: SessionId(1),
    index: 1,
};

/// What a job came to: the answers that a reader found and the nanoseconds that its looks took, or the nanoseconds of the writer.
#[derive(Clone, Copy)]
pub enum Came {
    Looked { found: u64, nanos: u64 },
    Showed { nanos: u64 },
}

/// What all jobs came to: the answers found, the longest time of a reader, and the time of the writer.
#[derive(Clone, Copy, Default)]
pub struct Took {
    pub found: u64,
    pub looks: u64,
    pub entries: u64,
}

impl Took {
    /// With one job more.
    pub fn with(self, came: Came) -> Took {
        match came {
            Came::Looked { found, nanos } => Took {
                found: self.found.saturating_add(found),
                looks: self.looks.max(nanos),
                ..self
            },
            Came::Showed { nanos } => Took {
                entries: nanos,
                ..self
            },
        }
    }
}

/// The nanoseconds since then.
pub fn nanos_since<R: Clock>(rt: &R, then: Instant) -> io::Result<u64> {
    Ok(u64::try_from(then.elapsed(rt)?.as_nanos()).unwrap_or(u64::MAX))
}

/// A scene of one transaction.
pub fn scene(alloc: Global) -> Result<Scene, SceneFault>
    ensures { IfOk result (λ s. places_of s ≡ 1 ∷ []) }
{
    let mut script = OpList::new();
    script.push(Op::Abort);
    let mut row = PartRow::new();
    row.push(NodeId(1));
    let mut build = SceneBuild::new(alloc, 1);
    build.nodes(1)?;
    build.part(row)?;
    build.session(NodeId(1))?;
    build.tx(script)?;
    build.finish()
}

/// The answer of its transaction.
pub fn answer() -> Answer
    ensures { result.place ≡ record { session = record { 0 = 1 }; index = 1 } }
{
    Answer {
        tx: TxId {
            node: NodeId(1),
            seq: 1,
        },
        place: PLACE,
        rs: Ts(7),
        outcome: Outcome::Aborted { cause: Cause::Wish },
    }
}

/// An event that was idle.
pub fn idle() -> Done {
    Done {
        event: Event::Deliver { index: 1 },
        idle: true,
        answers: 0,
    }
}
