//! The text of a scene, written exactly.
ghost use Rattle.std.specs.Prelude.{◌≡◌, ◌++◌, codes, flat_map, IfOk, OnOk};
ghost use Rattle.std.specs.Fmt.{signed_decimal};
ghost use Rattle.str_scene.specs.declared.names.Op.TheVariants.{Puts};
ghost use Rattle.scene_text.specs.Writing.{end_text, event_text, head_text, session_text, tx_text, written_row};
ghost use Rattle.str_scene.specs.Spelling.{ended, event_spelled, key_spelled, op_spelled, part_lines, part_spelled, spelling};

use partition_map::PartRow;
use std::alloc::{AllocError, Global};
use str_base::{KeyId, NodeId, TextId, push_i64, push_u64};
use str_scene::{Event, KeyTable, Op, OpList, Scene, SessionText};

/// The text of a scene.
pub fn write_scene(alloc: Global, scene: &Scene) -> Result<Vec<u8>, AllocError>
    ensures { IfOk result (λ text. text.items ≡ spelling scene.now) }
{
    let mut out = Vec::new(alloc);
    push_head(&mut out, scene.version(), scene.nodes())?;
    push_parts(&mut out, scene.parts())?;
    push_sessions(&mut out, scene.keys(), scene.sessions())?;
    out.extend_from_slice(b"schedule\n")?;
    push_events(&mut out, scene.schedule())?;
    push_end(&mut out, scene.drain())?;
    Ok(out)
}

/// Appends the lines of the version and of the nodes.
fn push_head(out: &mut Vec<u8>, version: u8, nodes: u8) -> Result<(), AllocError>
    ensures { OnOk result (out.new.items ≡ out.old.items ++ head_text version nodes) }
{
    out.extend_from_slice(b"str ")?;
    push_u64(out, u64::from(version))?;
    out.extend_from_slice(b"\nnodes ")?;
    push_u64(out, u64::from(nodes))?;
    out.extend_from_slice(b"\n")
}

/// Appends the line of the drain, where there is one, and the last line.
fn push_end(out: &mut Vec<u8>, drain: bool) -> Result<(), AllocError>
    ensures { OnOk result (out.new.items ≡ out.old.items ++ end_text drain) }
{
    if drain {
        return out.extend_from_slice(b"drain\nend\n");
    }
    out.extend_from_slice(b"end\n")
}

/// Appends replicas, each after a space.
fn push_row(out: &mut Vec<u8>, row: &[NodeId]) -> Result<(), AllocError>
    ensures { OnOk result (out.new.items ≡ out.old.items ++ written_row row.now) }
{
    for node in row {
        out.extend_from_slice(b" ")?;
        push_u64(out, u64::from(node.0))?;
    }
    Ok(())
}

/// Appends the line of a partition.
fn push_part(out: &mut Vec<u8>, number: u64, row: &[NodeId]) -> Result<(), AllocError>
    ensures { OnOk result (out.new.items ≡ out.old.items ++ ended (part_spelled number row.now)) }
{
    out.extend_from_slice(b"part ")?;
    push_u64(out, number)?;
    push_row(out, row)?;
    out.extend_from_slice(b"\n")
}

/// Appends the lines of the partitions, numbered from 1.
fn push_parts(out: &mut Vec<u8>, parts: &[PartRow]) -> Result<(), AllocError>
    ensures { OnOk result (out.new.items ≡ out.old.items ++ flat_map ended (part_lines 1 parts.now)) }
{
    let mut number = 1;
    for row in parts {
        push_part(out, number, row.as_slice())?;
        number += 1;
    }
    Ok(())
}

/// Appends the line of an operation on a key.
fn push_key_line(
    out: &mut Vec<u8>,
    word: &[u8],
    keys: &KeyTable,
    key: KeyId,
) -> Result<(), AllocError>
    ensures { OnOk result (out.new.items ≡ out.old.items ++ ended (word.now ++ key_spelled keys.now key)) }
{
    out.extend_from_slice(word)?;
    keys.push_key(key, out)?;
    out.extend_from_slice(b"\n")
}

/// Appends the line of an operation on a key with a number.
fn push_number_line(
    out: &mut Vec<u8>,
    word: &[u8],
    keys: &KeyTable,
    key: KeyId,
    number: i64,
) -> Result<(), AllocError>
    ensures { OnOk result (out.new.items
        ≡ out.old.items ++ ended (word.now ++ key_spelled keys.now key ++ codes " " ++ signed_decimal number)) }
{
    out.extend_from_slice(word)?;
    keys.push_key(key, out)?;
    out.extend_from_slice(b" ")?;
    push_i64(out, number)?;
    out.extend_from_slice(b"\n")
}

/// Appends the line of an operation that writes a byte string.
fn push_puts(out: &mut Vec<u8>, keys: &KeyTable, key: KeyId, text: TextId) -> Result<(), AllocError>
    ensures { OnOk result (out.new.items ≡ out.old.items ++ ended (op_spelled keys.now (Puts key text))) }
{
    out.extend_from_slice(b"puts ")?;
    keys.push_key(key, out)?;
    out.extend_from_slice(b" ")?;
    keys.push_text(text, out)?;
    out.extend_from_slice(b"\n")
}

/// Appends the line of an operation.
fn push_op(out: &mut Vec<u8>, keys: &KeyTable, op: Op) -> Result<(), AllocError>
    ensures { OnOk result (out.new.items ≡ out.old.items ++ ended (op_spelled keys.now op)) }
{
    match op {
        Op::Get(key) => push_key_line(out, b"get ", keys, key),
        Op::Put(key, number) => push_number_line(out, b"put ", keys, key, number),
        Op::Puts(key, text) => push_puts(out, keys, key, text),
        Op::Add(key, number) => push_number_line(out, b"add ", keys, key, number),
        Op::Del(key) => push_key_line(out, b"del ", keys, key),
        Op::Need(key, number) => push_number_line(out, b"need ", keys, key, number),
        Op::Abort => out.extend_from_slice(b"abort\n"),
    }
}

/// Appends the lines of a transaction.
fn push_tx(out: &mut Vec<u8>, keys: &KeyTable, ops: &[Op]) -> Result<(), AllocError>
    ensures { OnOk result (out.new.items ≡ out.old.items ++ tx_text keys.now ops.now) }
{
    out.extend_from_slice(b"tx\n")?;
    for op in ops {
        push_op(out, keys, *op)?;
    }
    Ok(())
}

/// Appends the lines of transactions.
fn push_txs(out: &mut Vec<u8>, keys: &KeyTable, txs: &[OpList]) -> Result<(), AllocError>
    ensures { OnOk result (out.new.items ≡ out.old.items ++ flat_map (tx_text keys.now) txs.now) }
{
    for ops in txs {
        push_tx(out, keys, ops.as_slice())?;
    }
    Ok(())
}

/// Appends the lines of a session.
fn push_session(out: &mut Vec<u8>, keys: &KeyTable, session: &SessionText) -> Result<(), AllocError>
    ensures { OnOk result (out.new.items ≡ out.old.items ++ session_text keys.now session.now) }
{
    out.extend_from_slice(b"session ")?;
    push_u64(out, u64::from(session.node().0))?;
    out.extend_from_slice(b"\n")?;
    push_txs(out, keys, session.txs())
}

/// Appends the lines of the sessions.
fn push_sessions(
    out: &mut Vec<u8>,
    keys: &KeyTable,
    sessions: &[SessionText],
) -> Result<(), AllocError>
    ensures { OnOk result (out.new.items ≡ out.old.items ++ flat_map (session_text keys.now) sessions.now) }
{
    for session in sessions {
        push_session(out, keys, session)?;
    }
    Ok(())
}

/// Appends the line of an entry of the schedule.
fn push_event(out: &mut Vec<u8>, event: Event) -> Result<(), AllocError>
    ensures { OnOk result (out.new.items ≡ out.old.items ++ ended (event_spelled event)) }
{
    match event {
        Event::Client { session, reading } => {
            out.extend_from_slice(b"c ")?;
            push_u64(out, u64::from(session.0))?;
            out.extend_from_slice(b" ")?;
            push_u64(out, reading)?;
        }
        Event::Deliver { index } => {
            out.extend_from_slice(b"d ")?;
            push_u64(out, index)?;
        }
    }
    out.extend_from_slice(b"\n")
}

/// Appends the lines of the entries of the schedule.
fn push_events(out: &mut Vec<u8>, events: &[Event]) -> Result<(), AllocError>
    ensures { OnOk result (out.new.items ≡ out.old.items ++ flat_map event_text events.now) }
{
    for event in events {
        push_event(out, *event)?;
    }
    Ok(())
}
