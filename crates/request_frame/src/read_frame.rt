//! A frame, taken to the scene that is being read.
ghost use Rattle.std.specs.Prelude.{◌≡◌, ◌≤◌, ◌++◌, map, IfErr, IfSome, IsNone, IsTrue, ◌↔◌, None as Nothing, OnOk, length};
ghost use Rattle.request_frame.specs.FirstBad.{sized_frame};
ghost use Rattle.request_frame.specs.FrameBytes.{sized};
ghost use Rattle.request_frame.specs.FrameOrder.{opening};
ghost use Rattle.request_frame.specs.Reading.{IsBadBytes, IsOpeningRefused, IsShortScript, RefusesOps, TakesBytes, TakesOps};
ghost use Rattle.scene_text.specs.Reading.{IsReached};
ghost use Rattle.scene_text.specs.Taking.{scene_limits, take_lines};
ghost use Rattle.scene_text.specs.Taking.Taken.{Now};
ghost use Rattle.str_base.specs.declared.limits.TheConstants.{REPLICAS};

use crate::ops::{read_op, whole_number};
use crate::script::check_script;
use partition_map::PartRow;
use scene_text::{Line, Place, Reader, Word, follows};
use str_base::limits::REPLICAS;
use str_base::{NodeId, PartId, SessionId};
use str_scene::SceneFault;

/// The kind and the payload of the frame with which the bytes begin, and what follows it; `None` where they end inside it.
pub fn split_frame(bytes: &[u8]) -> Option<(u8, &[u8], &[u8])>
    ensures frame { IfSome result (λ p. bytes.now ≡ sized p.0 p.1.now ++ p.2.now) }
    ensures none { IsNone result → sized_frame bytes.now ≡ Nothing }
{
    let [kind, high, low, rest @ ..] = bytes else {
        return None;
    };
    let size = usize::from(*high) * 256 + usize::from(*low);
    if rest.len() < size {
        return None;
    }
    Some((*kind, &rest[..size], &rest[size..]))
}

/// The frame of the number of nodes.
fn nodes_frame(reader: &mut Reader, payload: &[u8]) -> Result<(), SceneFault>
    requires { IsReached reader.old }
    ensures taken { OnOk result (TakesBytes (sized 1 payload.now) reader.old reader.new) }
    ensures reached { OnOk result (IsReached reader.new) }
    ensures bad { IfErr result (λ f. IsBadBytes (sized 1 payload.now) reader.old f) }
{
    let [nodes] = payload else {
        return Err(SceneFault::Form);
    };
    reader.step(Line::Nodes(*nodes))
}

/// The nodes with these numbers.
fn row_of(bytes: &[u8]) -> PartRow
    requires { length bytes.now ≤ REPLICAS }
    ensures { map (λ r. r.0) result ≡ bytes.now }
{
    let mut row = PartRow::new();
    for byte in bytes {
        row.push(NodeId(*byte));
    }
    row
}

/// The frame of a partition.
fn part_frame(reader: &mut Reader, payload: &[u8]) -> Result<(), SceneFault>
    requires { IsReached reader.old }
    ensures taken { OnOk result (TakesBytes (sized 2 payload.now) reader.old reader.new) }
    ensures reached { OnOk result (IsReached reader.new) }
    ensures bad { IfErr result (λ f. IsBadBytes (sized 2 payload.now) reader.old f) }
{
    if payload.is_empty() {
        return Err(SceneFault::Form);
    }
    let Some(_) = follows(reader.version(), reader.place(), Word::Part) else {
        return Err(SceneFault::Form);
    };
    if payload.len() > REPLICAS {
        return Err(SceneFault::Range);
    }
    let number = PartId((reader.parts() + 1) as u8);
    reader.step(Line::Part(number, row_of(payload)))
}

/// The frame of a session.
fn session_frame(reader: &mut Reader, payload: &[u8]) -> Result<(), SceneFault>
    requires { IsReached reader.old }
    ensures taken { OnOk result (TakesBytes (sized 3 payload.now) reader.old reader.new) }
    ensures reached { OnOk result (IsReached reader.new) }
    ensures bad { IfErr result (λ f. IsBadBytes (sized 3 payload.now) reader.old f) }
{
    let [node] = payload else {
        return Err(SceneFault::Form);
    };
    reader.step(Line::Session(NodeId(*node)))
}

/// The operations of a transaction, one after the other.
fn take_ops(reader: &mut Reader, payload: &[u8]) -> Result<(), SceneFault>
    requires reached { IsReached reader.old }
    requires script { IsShortScript payload.now }
    ensures taken { OnOk result (TakesOps payload.now reader.old reader.new) }
    ensures reached { OnOk result (IsReached reader.new) }
    ensures refused { IfErr result (λ f. RefusesOps payload.now reader.old f) }
{
    let mut left = payload;
    while !left.is_empty() {
        let Some((op, rest)) = read_op(left) else {
            unreachable!();
        };
        let Some(op) = op else {
            unreachable!();
        };
        reader.step(op)?;
        left = rest;
    }
    Ok(())
}

/// The frame of a transaction.
fn tx_frame(reader: &mut Reader, payload: &[u8]) -> Result<(), SceneFault>
    requires { IsReached reader.old }
    ensures taken { OnOk result (TakesBytes (sized 4 payload.now) reader.old reader.new) }
    ensures reached { OnOk result (IsReached reader.new) }
    ensures bad { IfErr result (λ f. IsBadBytes (sized 4 payload.now) reader.old f) }
{
    let Some(ranged) = check_script(reader.version(), reader.parts(), payload) else {
        return Err(SceneFault::Form);
    };
    let Some(_) = follows(reader.version(), reader.place(), Word::Tx) else {
        return Err(SceneFault::Form);
    };
    if !ranged {
        return Err(SceneFault::Range);
    }
    reader.step(Line::Tx)?;
    take_ops(reader, payload)
}

/// The schedule begins, where it has not yet.
fn begin_schedule(reader: &mut Reader) -> Result<(), SceneFault>
    requires { IsReached reader.old }
    ensures begun { OnOk result (take_lines scene_limits reader.old (opening reader.old.place) ≡ Now reader.new) }
    ensures reached { OnOk result (IsReached reader.new) }
    ensures refused { IfErr result (λ f. IsOpeningRefused reader.old f) }
{
    match reader.place() {
        Place::InSchedule | Place::AfterDrain | Place::AfterEnd => Ok(()),
        _ => reader.step(Line::Schedule),
    }
}

/// The frame of a client step.
fn client_frame(reader: &mut Reader, payload: &[u8]) -> Result<(), SceneFault>
    requires { IsReached reader.old }
    ensures taken { OnOk result (TakesBytes (sized 5 payload.now) reader.old reader.new) }
    ensures reached { OnOk result (IsReached reader.new) }
    ensures bad { IfErr result (λ f. IsBadBytes (sized 5 payload.now) reader.old f) }
{
    let [session, rest @ ..] = payload else {
        return Err(SceneFault::Form);
    };
    let Some(reading) = whole_number(rest) else {
        return Err(SceneFault::Form);
    };
    begin_schedule(reader)?;
    reader.step(Line::Client(SessionId(*session), reading))
}

/// The frame of a delivery.
fn deliver_frame(reader: &mut Reader, payload: &[u8]) -> Result<(), SceneFault>
    requires { IsReached reader.old }
    ensures taken { OnOk result (TakesBytes (sized 6 payload.now) reader.old reader.new) }
    ensures reached { OnOk result (IsReached reader.new) }
    ensures bad { IfErr result (λ f. IsBadBytes (sized 6 payload.now) reader.old f) }
{
    let Some(index) = whole_number(payload) else {
        return Err(SceneFault::Form);
    };
    begin_schedule(reader)?;
    reader.step(Line::Deliver(index))
}

/// The frame of the drain.
fn drain_frame(reader: &mut Reader, payload: &[u8]) -> Result<(), SceneFault>
    requires { IsReached reader.old }
    ensures taken { OnOk result (TakesBytes (sized 7 payload.now) reader.old reader.new) }
    ensures reached { OnOk result (IsReached reader.new) }
    ensures bad { IfErr result (λ f. IsBadBytes (sized 7 payload.now) reader.old f) }
{
    if !payload.is_empty() {
        return Err(SceneFault::Form);
    }
    begin_schedule(reader)?;
    reader.step(Line::Drain)
}

/// The frame of the end.
fn end_frame(reader: &mut Reader, payload: &[u8]) -> Result<(), SceneFault>
    requires { IsReached reader.old }
    ensures taken { OnOk result (TakesBytes (sized 8 payload.now) reader.old reader.new) }
    ensures reached { OnOk result (IsReached reader.new) }
    ensures bad { IfErr result (λ f. IsBadBytes (sized 8 payload.now) reader.old f) }
{
    if !payload.is_empty() {
        return Err(SceneFault::Form);
    }
    begin_schedule(reader)?;
    reader.step(Line::End)
}

/// The next frame.
pub fn take_frame(reader: &mut Reader, kind: u8, payload: &[u8]) -> Result<(), SceneFault>
    requires { IsReached reader.old }
    ensures taken { OnOk result (TakesBytes (sized kind payload.now) reader.old reader.new) }
    ensures reached { OnOk result (IsReached reader.new) }
    ensures bad { IfErr result (λ f. IsBadBytes (sized kind payload.now) reader.old f) }
{
    match kind {
        1 => nodes_frame(reader, payload),
        2 => part_frame(reader, payload),
        3 => session_frame(reader, payload),
        4 => tx_frame(reader, payload),
        5 => client_frame(reader, payload),
        6 => deliver_frame(reader, payload),
        7 => drain_frame(reader, payload),
        8 => end_frame(reader, payload),
        _ => Err(SceneFault::Form),
    }
}
