//! A worker of a node at a door.
ghost use Rattle.door.specs.Acting.{AllStand};
ghost use Rattle.door.specs.Places.{PlacesRise, own_places};
ghost use Rattle.door.specs.Searching.{Acted, FoundAt};
ghost use Rattle.door.specs.Working.{AreFound, AreOwn, HasClient, HasClients, HasDelivers, IsSessionOf, delivery};
ghost use Rattle.partition_map.specs.Maps.{Exists};
ghost use Rattle.std.specs.Prelude.{◌≡◌, ◌+◌, ◌<◌, ◌≤◌, IfOk, OnOk, map};
ghost use Rattle.str_scene.specs.declared.names.Event.TheVariants.{Client};
ghost use mathlib.Core.List.{IsPrefix};

use crate::doors::Door;
use crate::faults::DoorFault;
use crate::looking::{Search, look_at_all, push_all_found};
use crate::naming::Naming;
use answer_board::BoardReader;
use std::alloc::Global;
use std::sync::Wait;
use str_base::{NodeId, SessionId};
use str_model::Answer;
use str_outer::{Clock, Gate};
use str_scene::{Event, Scene, SessionText};

/// Does the event, learns of it, and looks at each place where nothing was found.
fn act<J: Naming, R: Wait>(
    rt: &R,
    door: &Door<J>,
    reader: &mut BoardReader,
    search: &mut Search,
    event: Event,
) -> Result<(), DoorFault>
    requires board { reader.old.board ≡ J.board }
    requires kept { FoundAt search.old.places.items search.old.found.items reader.old.list }
    ensures node { search.new.node ≡ search.old.node }
    ensures places { search.new.places.items ≡ search.old.places.items }
    ensures board { reader.new.board ≡ J.board }
    ensures grows { IsPrefix reader.old.list reader.new.list }
    ensures kept { FoundAt search.new.places.items search.new.found.items reader.new.list }
    ensures acted { OnOk result (Acted search.new.places.items search.new.found.items reader.new.list event) }
{
    let told = door.act(rt, event)?;
    reader.learn(told.shown);
    look_at_all(rt, reader, search.places.as_slice(), &mut search.found);
    Ok(())
}

/// Acts a client step of the session with one reading of the clock, where it is of the node.
fn client<J: Naming, C: Clock, R: Wait>(
    rt: &R,
    door: &Door<J>,
    reader: &mut BoardReader,
    search: &mut Search,
    session: SessionId,
    text: &SessionText,
    clock: &mut C,
) -> Result<(), DoorFault>
    requires board { reader.old.board ≡ J.board }
    requires kept { FoundAt search.old.places.items search.old.found.items reader.old.list }
    ensures node { search.new.node ≡ search.old.node }
    ensures places { search.new.places.items ≡ search.old.places.items }
    ensures board { reader.new.board ≡ J.board }
    ensures grows { IsPrefix reader.old.list reader.new.list }
    ensures kept { FoundAt search.new.places.items search.new.found.items reader.new.list }
    ensures acted { OnOk result (text.now.node ≡ search.old.node → HasClient reader.new.list session.0) }
{
    if text.node() != search.node {
        return Ok(());
    }
    let reading = clock.now();
    act(rt, door, reader, search, Event::Client { session, reading })
}

/// Acts a client step of each session of the node upwards.
fn clients<J: Naming, C: Clock, R: Wait>(
    rt: &R,
    door: &Door<J>,
    reader: &mut BoardReader,
    search: &mut Search,
    scene: &Scene,
    clock: &mut C,
) -> Result<(), DoorFault>
    requires board { reader.old.board ≡ J.board }
    requires kept { FoundAt search.old.places.items search.old.found.items reader.old.list }
    ensures node { search.new.node ≡ search.old.node }
    ensures places { search.new.places.items ≡ search.old.places.items }
    ensures board { reader.new.board ≡ J.board }
    ensures grows { IsPrefix reader.old.list reader.new.list }
    ensures kept { FoundAt search.new.places.items search.new.found.items reader.new.list }
    ensures acted { OnOk result (HasClients reader.new.list scene.now search.old.node) }
{
    for i in 0..scene.sessions().len() {
        let session = SessionId(i as u8 + 1);
        client(
            rt,
            door,
            reader,
            search,
            session,
            &scene.sessions()[i],
            clock,
        )?;
    }
    Ok(())
}

/// The delivery of a turn, counted from 0.
fn delivery(scene: &Scene, node: NodeId, turn: u64) -> Event
    requires { turn < 8 }
    ensures { result ≡ delivery scene.now.nodes node turn }
{
    Event::Deliver {
        index: turn * u64::from(scene.nodes()) + u64::from(node.0),
    }
}

/// Makes 8 turns.
fn turns<J: Naming, C: Clock, G: Gate, R: Wait>(
    rt: &R,
    door: &Door<J>,
    reader: &mut BoardReader,
    search: &mut Search,
    scene: &Scene,
    clock: &mut C,
    gate: &mut G,
) -> Result<(), DoorFault>
    requires board { reader.old.board ≡ J.board }
    requires kept { FoundAt search.old.places.items search.old.found.items reader.old.list }
    ensures places { search.new.places.items ≡ search.old.places.items }
    ensures board { reader.new.board ≡ J.board }
    ensures grows { IsPrefix reader.old.list reader.new.list }
    ensures kept { FoundAt search.new.places.items search.new.found.items reader.new.list }
    ensures delivers { OnOk result (HasDelivers reader.new.list scene.now.nodes search.old.node 8) }
    ensures clients { OnOk result (HasClients reader.new.list scene.now search.old.node) }
    ensures last { OnOk result (Acted search.new.places.items search.new.found.items reader.new.list (delivery scene.now.nodes search.old.node 7)) }
{
    for turn in 0..8u64 {
        gate.before(search.node);
        clients(rt, door, reader, search, scene, clock)?;
        act(rt, door, reader, search, delivery(scene, search.node, turn))?;
    }
    Ok(())
}

/// One worker of a node. It makes 8 turns: it passes the gate, acts a client step of each session of its node upwards with one reading of its
/// clock each, and then the delivery of the message with the number `(turn - 1) * nodes + node`. After each act it learns the note, and looks at
/// the place of each transaction of its node's sessions at which it has found no answer yet. It gives the answers that it found, each once, in
/// the order of their places.
///
/// # Errors
///
/// Where memory is wanting the acts before stand. `done` says whether the last act that it tried was done, and is false where it tried none.
pub fn work<J: Naming, C: Clock, G: Gate, R: Wait>(
    rt: &R,
    alloc: Global,
    door: &Door<J>,
    reader: &mut BoardReader,
    scene: &Scene,
    node: NodeId,
    clock: &mut C,
    gate: &mut G,
) -> Result<Vec<Answer>, DoorFault>
    requires board { reader.old.board ≡ J.board }
    requires node { Exists node.0 scene.now.nodes }
    ensures board { reader.new.board ≡ J.board }
    ensures grows { IsPrefix reader.old.list reader.new.list }
    ensures delivers { OnOk result (HasDelivers reader.new.list scene.now.nodes node 8) }
    ensures clients { OnOk result (HasClients reader.new.list scene.now node) }
    ensures stand { IfOk result (λ found. AllStand reader.new.list found.items) }
    ensures own { IfOk result (λ found. AreOwn scene.now node found.items) }
    ensures all { IfOk result (λ found. AreFound scene.now node reader.new.list found.items) }
    ensures once { IfOk result (λ found. PlacesRise (map (λ a. a.place) found.items)) }
{
    let Ok(mut search) = Search::new(alloc, scene, node) else {
        return Err(DoorFault::Memory { done: false });
    };
    let mut answers = Vec::new(alloc);
    if answers.reserve(search.found.len()).is_err() {
        return Err(DoorFault::Memory { done: false });
    }
    turns(rt, door, reader, &mut search, scene, clock, gate)?;
    push_all_found(&mut answers, search.found.as_slice());
    Ok(answers)
}
