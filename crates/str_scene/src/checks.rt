//! What is tested of an item before it is taken.
ghost use Rattle.std.specs.List.{list_all, list_any};
ghost use Rattle.std.specs.Prelude.{◌≡◌, ℕ, Some, slice_get, IsTrue};
ghost use Rattle.str_base.specs.Versions.{same_node};
ghost use Rattle.str_scene.specs.DraftLimits.{HasNumber, HasReading};
ghost use Rattle.str_scene.specs.Refusals.{are_distinct, first_fault, is_entry, is_known, is_puts, is_row, is_script, is_up_to, sessions_at};
ghost use Rattle.str_scene.specs.declared.names.Op.{Op as AnyOp};

use crate::faults::SceneFault;
use crate::keys::KeyTable;
use crate::names::{Event, Op};
use crate::scenes::SessionText;
use str_base::NodeId;

/// The first that fails, as a fault.
pub(crate) fn first_fault(stands: bool, in_range: bool, has_room: bool) -> Option<SceneFault>
    ensures { result ≡ first_fault stands in_range has_room }
{
    if !stands {
        return Some(SceneFault::Form);
    }
    if !in_range {
        return Some(SceneFault::Range);
    }
    if !has_room {
        return Some(SceneFault::Count);
    }
    None
}

/// Whether a number is from 1 to the last.
pub(crate) fn is_up_to(last: usize, n: u8) -> bool
    ensures { result ≡ is_up_to last n }
{
    1 <= n && usize::from(n) <= last
}

/// Whether the node is one of these.
fn is_among(n: NodeId, nodes: &[NodeId]) -> bool
    ensures { result ≡ list_any (same_node n) nodes.now }
{
    nodes.iter().any(|m| n.0 == m.0)
}

/// Whether no node stands twice.
fn are_distinct(row: &[NodeId]) -> bool
    ensures { result ≡ are_distinct row.now }
{
    for i in 0..row.len() {
        if is_among(row[i], &row[i + 1..]) {
            return false;
        }
    }
    true
}

/// Whether these are nodes of the scene, none twice.
pub(crate) fn is_row(nodes: u8, row: &[NodeId]) -> bool
    ensures { result ≡ is_row nodes row.now }
{
    are_nodes(nodes, row) && are_distinct(row)
}

/// Whether these are nodes of the scene.
fn are_nodes(nodes: u8, row: &[NodeId]) -> bool
    ensures { result ≡ list_all (λ n. is_up_to nodes n.0) row.now }
{
    let last = usize::from(nodes);
    row.iter().all(|n| is_up_to(last, n.0))
}

/// How many sessions are at a node.
pub(crate) fn sessions_at(n: NodeId, sessions: &[SessionText]) -> usize
    ensures { result ≡ sessions_at n sessions.now }
{
    sessions.iter().filter(|s| s.node().0 == n.0).count()
}

/// Whether an operation writes a byte string.
fn is_puts(op: Op) -> bool
    ensures { result ≡ is_puts op }
{
    matches!(op, Op::Puts(..))
}

/// Whether the operations are some, and write byte strings in version 2 alone.
pub(crate) fn is_script(version: u8, ops: &[Op]) -> bool
    ensures { result ≡ is_script version ops.now }
{
    !ops.is_empty() && (version == 2 || !has_puts(ops))
}

/// Whether one of the operations writes a byte string.
fn has_puts(ops: &[Op]) -> bool
    ensures { result ≡ list_any is_puts ops.now }
{
    ops.iter().any(|op| is_puts(*op))
}

/// Whether the keys and byte strings that an operation names are in the table.
fn is_known(table: &KeyTable, op: Op) -> bool
    ensures known { result ≡ is_known table.now op }
    ensures number { HasNumber op }
{
    match op {
        Op::Get(k) | Op::Del(k) => k.0 < table.len(),
        Op::Put(k, _) | Op::Add(k, _) | Op::Need(k, _) => k.0 < table.len(),
        Op::Puts(k, t) => k.0 < table.len() && t.0 < table.texts(),
        Op::Abort => true,
    }
}

/// Whether the keys and byte strings that the operations name are in the table.
pub(crate) fn are_known(table: &KeyTable, ops: &[Op]) -> bool
    ensures known { result ≡ list_all (is_known table.now) ops.now }
    ensures numbers { IsTrue result → (i : ℕ) (op : AnyOp) → slice_get ops.now i ≡ Some op → HasNumber op }
{
    for op in ops {
        if !is_known(table, *op) {
            return false;
        }
    }
    true
}

/// Whether what an entry names is in range, with so many sessions.
pub(crate) fn is_entry(sessions: usize, event: Event) -> bool
    ensures entry { result ≡ is_entry sessions event }
    ensures numbers { HasReading event }
{
    match event {
        Event::Client { session, .. } => is_up_to(sessions, session.0),
        Event::Deliver { index } => 1 <= index,
    }
}
