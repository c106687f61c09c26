//! What a board shows.
ghost use Rattle.std.specs.Prelude.{◌≡◌, ◌∷◌, [], IfOk};
ghost use Rattle.answer_board.specs.Places.{places_of};

use crate::boards::Board;
use crate::{BoardReader, BoardWriter, Entry, board};
use partition_map::PartRow;
use std::alloc::{AllocError, Global};
use std::sync::Wait;
use std::test::Fail;
use str_base::{Cause, NodeId, SessionId, Ts, TxId};
use str_model::{Answer, Done, Outcome};
use str_scene::{Event, Op, OpList, Scene, SceneBuild, SceneFault, TxPlace};

/// Looks: each with a session, an index, and whether an answer stands there.
type Looks = [(u8, u32, bool); 7];

const NOTHING: Looks = [
    (1, 1, false),
    (1, 2, false),
    (2, 1, false),
    (0, 1, false),
    (1, 0, false),
    (1, 3, false),
    (3, 1, false),
];

const ONE: Looks = [
    (1, 1, false),
    (1, 2, true),
    (2, 1, false),
    (0, 1, false),
    (1, 0, false),
    (1, 3, false),
    (3, 1, false),
];

fn script() -> OpList {
    let mut ops = OpList::new();
    ops.push(Op::Abort);
    ops
}

fn row() -> PartRow {
    let mut row = PartRow::new();
    row.push(NodeId(1));
    row
}

// A session of two transactions, and one of one.
fn two_sessions(alloc: Global) -> Result<Scene, SceneFault>
    ensures { IfOk result (λ s. places_of s ≡ 2 ∷ 1 ∷ []) }
{
    let mut build = SceneBuild::new(alloc, 1);
    build.nodes(1)?;
    build.part(row())?;
    build.session(NodeId(1))?;
    build.tx(script())?;
    build.tx(script())?;
    build.session(NodeId(1))?;
    build.tx(script())?;
    build.finish()
}

fn place(session: u8, index: u32) -> TxPlace
    ensures { result ≡ record { session = record { 0 = session }; index = index } }
{
    TxPlace {
        session: SessionId(session),
        index,
    }
}

fn answer(session: u8, index: u32) -> Answer
    ensures { result.place ≡ record { session = record { 0 = session }; index = index } }
{
    Answer {
        tx: TxId {
            node: NodeId(1),
            seq: index,
        },
        place: place(session, index),
        rs: Ts(7),
        outcome: Outcome::Aborted { cause: Cause::Wish },
    }
}

fn idle() -> Done {
    Done {
        event: Event::Deliver { index: 1 },
        idle: true,
        answers: 0,
    }
}

// Whether the reader finds just these, each the answer of its place.
fn finds(reader: &mut BoardReader, looks: &[(u8, u32, bool)]) -> bool
    ensures { reader.new.board ≡ reader.old.board }
{
    let mut all = true;
    for (session, index, there) in looks {
        let place = place(*session, *index);
        let found = reader.look(place);
        all = all && found.is_some() == *there && found.is_none_or(|a| a.place == place);
    }
    all
}

// Whether the reader finds all that is shown: before anything is held, while it is held, once it is shown, and after a note.
fn shows<R: Wait>(
    rt: &R,
    writer: &mut BoardWriter,
    reader: &mut BoardReader,
) -> Result<[bool; 4], AllocError>
    requires board { reader.old.board ≡ writer.old.board }
    requires places { writer.old.places ≡ 2 ∷ 1 ∷ [] }
    requires list { writer.old.list ≡ [] }
    requires held { writer.old.held ≡ [] }
{
    let empty = finds(reader, &NOTHING);
    writer.hold(&Entry::Gave(answer(1, 2)))?;
    writer.hold(&Entry::Did(idle()))?;
    let held = finds(reader, &NOTHING);
    writer.publish(rt)?;
    let shown = finds(reader, &ONE);
    reader.learn(writer.tell()?);
    Ok([empty, held, shown, finds(reader, &ONE)])
}

// Makes a note and lets it go, more often than there are seats.
fn tells(writer: &mut BoardWriter) -> Result<(), AllocError> {
    for _ in 0..100 {
        drop(writer.tell()?);
    }
    Ok(())
}

#[test]
fn what_is_shown_is_found(rt: HostRuntime) -> Result<(), Fail> {
    let scene = two_sessions(rt.alloc())?;
    let Board {
        mut writer,
        mut readers,
    } = board(&rt, rt.alloc(), &scene, 2)?;
    let mut seen = Ok([false; 4]);
    let mut ended = (false, false);
    let mut told = Ok(());
    if let Some(mut reader) = readers.pop() {
        seen = shows(&rt, &mut writer, &mut reader);
        told = tells(&mut writer);
        writer.end(&rt);
        ended = (finds(&mut reader, &NOTHING), reader.ended());
    } else {
        writer.end(&rt);
    }
    assert_eq!(rt; seen?, [true; 4]);
    told?;
    assert_eq!(rt; ended, (true, true));
    Ok(())
}
