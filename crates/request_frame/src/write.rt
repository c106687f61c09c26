//! The frames of a scene, written exactly.
ghost use Rattle.std.specs.Prelude.{◌≡◌, ◌≤◌, ◌<◌, ◌+◌, ◌*◌, ◌++◌, ◌∷◌, flat_map, length, map, IfOk, OnOk};
ghost use Rattle.request_frame.specs.FrameBytes.{key_bytes, op_bytes, script_bytes, sized, string_bytes, value_bytes};
ghost use Rattle.request_frame.specs.Frames.{frames_of};
ghost use Rattle.request_frame.specs.Spelling.{bytes_of};
ghost use Rattle.request_frame.specs.Writing.{IsSpelled, end_bytes, entry_bytes, part_bytes, session_bytes, tx_bytes};
ghost use Rattle.scene_text.specs.SceneLines.{key_at, op_line, text_at};
ghost use Rattle.str_base.specs.declared.limits.TheConstants.{OPERATIONS, REPLICAS};

use partition_map::PartRow;
use scene_text::Line;
use scene_text::keys::read_bytes;
use scene_text::parting::split_at_byte;
use std::alloc::{AllocError, Global};
use str_base::{KeyId, NodeId, PartId, TextId};
use str_scene::{ByteText, Event, KeyTable, Name, Op, OpList, Scene, SessionText, short_name};

/// The frames of a scene.
pub fn write_frames(alloc: Global, scene: &Scene) -> Result<Vec<u8>, AllocError>
    ensures { IfOk result (λ bytes. bytes.items ≡ bytes_of (frames_of scene.now)) }
{
    let mut out = Vec::new(alloc);
    out.extend_from_slice(b"STRF")?;
    out.push(scene.version())?;
    push_frame(&mut out, 1, &[scene.nodes()])?;
    push_parts(&mut out, scene.parts())?;
    push_sessions(alloc, &mut out, scene.keys(), scene.sessions())?;
    push_events(&mut out, scene.schedule())?;
    push_end(&mut out, scene.drain())?;
    Ok(out)
}

/// Appends a frame of a kind.
fn push_frame(out: &mut Vec<u8>, kind: u8, payload: &[u8]) -> Result<(), AllocError>
    requires { length payload.now < 65536 }
    ensures { OnOk result (out.new.items ≡ out.old.items ++ sized kind payload.now) }
{
    let size = payload.len();
    out.extend_from_slice(&[kind, (size / 256) as u8, (size % 256) as u8])?;
    out.extend_from_slice(payload)
}

/// Appends the frame of a partition.
fn push_part(out: &mut Vec<u8>, row: &[NodeId]) -> Result<(), AllocError>
    requires { length row.now ≤ REPLICAS }
    ensures { OnOk result (out.new.items ≡ out.old.items ++ part_bytes row.now) }
{
    out.extend_from_slice(&[2, 0, row.len() as u8])?;
    for node in row {
        out.push(node.0)?;
    }
    Ok(())
}

/// Appends the frames of the partitions.
fn push_parts(out: &mut Vec<u8>, parts: &[PartRow]) -> Result<(), AllocError>
    ensures { OnOk result (out.new.items ≡ out.old.items ++ flat_map part_bytes parts.now) }
{
    for row in parts {
        push_part(out, row.as_slice())?;
    }
    Ok(())
}

/// The name and the partition of a key of the table. There is no name where the table has no such key.
fn key_of(alloc: Global, keys: &KeyTable, key: KeyId) -> Result<(Name, PartId), AllocError>
    requires { IsSpelled keys.now }
    ensures name { IfOk result (λ k. k.0 ≡ (key_at keys.now key).0) }
    ensures part { IfOk result (λ k. k.1 ≡ (key_at keys.now key).1) }
{
    if key.0 >= keys.len() {
        return Ok((Name::new(), PartId(0)));
    }
    let part = keys.part(key);
    let mut text = Vec::new(alloc);
    keys.push_key(key, &mut text)?;
    match split_at_byte(text.as_slice(), b'@') {
        Some((name, _)) => Ok((short_name(name), part)),
        None => unreachable!(),
    }
}

/// A byte string of the table, which is empty where the table has no such string.
fn text_of(alloc: Global, keys: &KeyTable, text: TextId) -> Result<ByteText, AllocError>
    requires { IsSpelled keys.now }
    ensures { IfOk result (λ bytes. bytes ≡ text_at keys.now text) }
{
    let mut spelled = Vec::new(alloc);
    keys.push_text(text, &mut spelled)?;
    match read_bytes(spelled.as_slice()) {
        Some(Some(bytes)) => Ok(bytes),
        Some(None) => unreachable!(),
        None => Ok(ByteText::new()),
    }
}

/// The line of an operation.
fn op_line(alloc: Global, keys: &KeyTable, op: Op) -> Result<Line, AllocError>
    requires { IsSpelled keys.now }
    ensures { IfOk result (λ l. l ≡ op_line keys.now op) }
{
    match op {
        Op::Get(key) => {
            let (name, part) = key_of(alloc, keys, key)?;
            Ok(Line::Get(name, part))
        }
        Op::Put(key, number) => {
            let (name, part) = key_of(alloc, keys, key)?;
            Ok(Line::Put(name, part, number))
        }
        Op::Puts(key, text) => {
            let (name, part) = key_of(alloc, keys, key)?;
            let bytes = text_of(alloc, keys, text)?;
            Ok(Line::Puts(name, part, bytes))
        }
        Op::Add(key, number) => {
            let (name, part) = key_of(alloc, keys, key)?;
            Ok(Line::Add(name, part, number))
        }
        Op::Del(key) => {
            let (name, part) = key_of(alloc, keys, key)?;
            Ok(Line::Del(name, part))
        }
        Op::Need(key, number) => {
            let (name, part) = key_of(alloc, keys, key)?;
            Ok(Line::Need(name, part, number))
        }
        Op::Abort => Ok(Line::Abort),
    }
}

/// Appends a code and a key.
fn push_key(out: &mut Vec<u8>, code: u8, name: &Name, part: PartId) -> Result<(), AllocError>
    ensures key { OnOk result (out.new.items ≡ out.old.items ++ code ∷ key_bytes name.now part) }
    ensures few { length name.now ≤ 16 }
{
    let name = name.as_slice();
    out.extend_from_slice(&[code, part.0, name.len() as u8])?;
    out.extend_from_slice(name)
}

/// Appends a code, a key and a number.
fn push_number(
    out: &mut Vec<u8>,
    code: u8,
    name: &Name,
    part: PartId,
    number: i64,
) -> Result<(), AllocError>
    ensures op { OnOk result (out.new.items ≡ out.old.items ++ code ∷ (key_bytes name.now part ++ value_bytes number)) }
    ensures few { length name.now ≤ 16 }
{
    push_key(out, code, name, part)?;
    out.extend_from_slice(&number.to_be_bytes())
}

/// Appends a code, a key and a byte string.
fn push_puts(
    out: &mut Vec<u8>,
    name: &Name,
    part: PartId,
    bytes: &ByteText,
) -> Result<(), AllocError>
    ensures op { OnOk result (out.new.items ≡ out.old.items ++ 7 ∷ (key_bytes name.now part ++ string_bytes bytes.now)) }
    ensures few { OnOk result (length name.now + length bytes.now ≤ 80) }
{
    let bytes = bytes.as_slice();
    push_key(out, 7, name, part)?;
    out.push(bytes.len() as u8)?;
    out.extend_from_slice(bytes)
}

/// Appends an operation, which has 84 bytes at most.
fn push_op(out: &mut Vec<u8>, op: &Line) -> Result<(), AllocError>
    ensures op { OnOk result (out.new.items ≡ out.old.items ++ op_bytes op.now) }
    ensures few { OnOk result (length (op_bytes op.now) ≤ 84) }
{
    match op {
        Line::Get(name, part) => push_key(out, 1, name, *part),
        Line::Put(name, part, number) => push_number(out, 2, name, *part, *number),
        Line::Add(name, part, number) => push_number(out, 3, name, *part, *number),
        Line::Del(name, part) => push_key(out, 4, name, *part),
        Line::Need(name, part, number) => push_number(out, 5, name, *part, *number),
        Line::Abort => out.extend_from_slice(&[6]),
        Line::Puts(name, part, bytes) => push_puts(out, name, *part, bytes),
        _ => Ok(()),
    }
}

/// The bytes of the operations of a transaction.
fn script_of(alloc: Global, keys: &KeyTable, ops: &OpList) -> Result<Vec<u8>, AllocError>
    requires { IsSpelled keys.now }
    ensures script { IfOk result (λ bytes. bytes.items ≡ script_bytes (map (op_line keys.now) ops.now)) }
    ensures few { IfOk result (λ bytes. length bytes.items ≤ 84 * OPERATIONS) }
{
    let mut bytes = Vec::new(alloc);
    let ops = ops.as_slice();
    for op in ops {
        let line = op_line(alloc, keys, *op)?;
        push_op(&mut bytes, &line)?;
    }
    Ok(bytes)
}

/// Appends the frame of a transaction.
fn push_tx(
    alloc: Global,
    out: &mut Vec<u8>,
    keys: &KeyTable,
    ops: &OpList,
) -> Result<(), AllocError>
    requires { IsSpelled keys.now }
    ensures { OnOk result (out.new.items ≡ out.old.items ++ tx_bytes keys.now ops.now) }
{
    let payload = script_of(alloc, keys, ops)?;
    push_frame(out, 4, payload.as_slice())
}

/// Appends the frames of transactions.
fn push_txs(
    alloc: Global,
    out: &mut Vec<u8>,
    keys: &KeyTable,
    txs: &[OpList],
) -> Result<(), AllocError>
    requires { IsSpelled keys.now }
    ensures { OnOk result (out.new.items ≡ out.old.items ++ flat_map (tx_bytes keys.now) txs.now) }
{
    for ops in txs {
        push_tx(alloc, out, keys, ops)?;
    }
    Ok(())
}

/// Appends the frames of a session.
fn push_session(
    alloc: Global,
    out: &mut Vec<u8>,
    keys: &KeyTable,
    session: &SessionText,
) -> Result<(), AllocError>
    requires { IsSpelled keys.now }
    ensures { OnOk result (out.new.items ≡ out.old.items ++ session_bytes keys.now session.now) }
{
    push_frame(out, 3, &[session.node().0])?;
    push_txs(alloc, out, keys, session.txs())
}

/// Appends the frames of the sessions.
fn push_sessions(
    alloc: Global,
    out: &mut Vec<u8>,
    keys: &KeyTable,
    sessions: &[SessionText],
) -> Result<(), AllocError>
    requires { IsSpelled keys.now }
    ensures { OnOk result (out.new.items ≡ out.old.items ++ flat_map (session_bytes keys.now) sessions.now) }
{
    for session in sessions {
        push_session(alloc, out, keys, session)?;
    }
    Ok(())
}

/// Appends the frame of an entry of the schedule.
fn push_event(out: &mut Vec<u8>, event: Event) -> Result<(), AllocError>
    ensures { OnOk result (out.new.items ≡ out.old.items ++ entry_bytes event) }
{
    match event {
        Event::Client { session, reading } => {
            out.extend_from_slice(&[5, 0, 9, session.0])?;
            out.extend_from_slice(&reading.to_be_bytes())
        }
        Event::Deliver { index } => {
            out.extend_from_slice(&[6, 0, 8])?;
            out.extend_from_slice(&index.to_be_bytes())
        }
    }
}

/// Appends the frames of the entries of the schedule.
fn push_events(out: &mut Vec<u8>, events: &[Event]) -> Result<(), AllocError>
    ensures { OnOk result (out.new.items ≡ out.old.items ++ flat_map entry_bytes events.now) }
{
    for event in events {
        push_event(out, *event)?;
    }
    Ok(())
}

/// Appends the frame of the drain, where there is one, and that of the end.
fn push_end(out: &mut Vec<u8>, drain: bool) -> Result<(), AllocError>
    ensures { OnOk result (out.new.items ≡ out.old.items ++ end_bytes drain) }
{
    if drain {
        return out.extend_from_slice(&[7, 0, 0, 8, 0, 0]);
    }
    out.extend_from_slice(&[8, 0, 0])
}
