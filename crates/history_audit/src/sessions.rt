//! The order of snapshots, and of the final timestamps of those who wrote one key.
ghost use Rattle.history_audit.specs.Tests.{are_apart, are_ordered, final_time, is_after, is_after_at_node, is_after_in_session, is_final_below, is_key, is_written, is_written_in, share_key, written_key};
ghost use Rattle.std.specs.List.{list_all, list_any};
ghost use Rattle.std.specs.Prelude.{◌≡◌};
ghost use Rattle.str_scene.specs.Scenes.{script_at};

use crate::places::script_at;
use str_base::{KeyId, Ts};
use str_model::{Answer, Outcome};
use str_scene::{Op, OpList, Scene};

/// Whether a final timestamp, where there is one, is at or below a snapshot.
fn is_final_below(outcome: &Outcome, rs: Ts) -> bool
    ensures { result ≡ is_final_below outcome.now rs.0 }
{
    match outcome {
        Outcome::Committed { fc: Some(fc), .. } => fc.0 <= rs.0,
        Outcome::Committed { fc: None, .. } | Outcome::Aborted { .. } => true,
    }
}

/// Whether in one session a snapshot is at least all that was answered before.
fn is_after_in_session(answer: &Answer, earlier: &Answer) -> bool
    ensures { result ≡ is_after_in_session answer.now earlier.now }
{
    earlier.place.session.0 != answer.place.session.0
        || (earlier.rs.0 <= answer.rs.0 && is_final_below(&earlier.outcome, answer.rs))
}

/// Whether at one node the snapshots of two do not fall with their numbers.
fn is_after_at_node(answer: &Answer, earlier: &Answer) -> bool
    ensures { result ≡ is_after_at_node answer.now earlier.now }
{
    earlier.tx.node.0 != answer.tx.node.0
        || ((answer.tx.seq <= earlier.tx.seq || earlier.rs.0 <= answer.rs.0)
            && (earlier.tx.seq <= answer.tx.seq || answer.rs.0 <= earlier.rs.0))
}

/// Whether an answer keeps both orders after an earlier one.
fn is_after(answer: &Answer, earlier: &Answer) -> bool
    ensures { result ≡ is_after answer.now earlier.now }
{
    is_after_in_session(answer, earlier) && is_after_at_node(answer, earlier)
}

/// Whether an answer keeps the order of sessions and nodes.
pub fn keeps_order(earlier: &[Answer], answer: &Answer) -> bool
    ensures { result ≡ list_all (is_after answer.now) earlier.now }
{
    for other in earlier {
        if !is_after(answer, other) {
            return false;
        }
    }
    true
}

/// The key that an operation writes.
fn written_key(op: Op) -> Option<KeyId>
    ensures { result ≡ written_key op }
{
    match op {
        Op::Put(key, _) | Op::Puts(key, _) | Op::Add(key, _) | Op::Del(key) => Some(key),
        Op::Get(_) | Op::Need(..) | Op::Abort => None,
    }
}

/// Whether an operation writes the key.
fn writes_key(op: Op, key: KeyId) -> bool
    ensures { result ≡ is_key key (written_key op) }
{
    match written_key(op) {
        Some(written) => written.0 == key.0,
        None => false,
    }
}

/// Whether an operation of a script writes the key.
fn is_written(ops: &OpList, key: KeyId) -> bool
    ensures { result ≡ is_written key ops.now }
{
    for op in ops.as_slice() {
        if writes_key(*op, key) {
            return true;
        }
    }
    false
}

/// Whether an operation writes a key that a script writes.
fn is_shared(op: Op, others: &OpList) -> bool
    ensures { result ≡ is_written_in others.now (written_key op) }
{
    match written_key(op) {
        Some(key) => is_written(others, key),
        None => false,
    }
}

/// Whether two scripts write one key.
fn share_key(ops: &OpList, others: &OpList) -> bool
    ensures { result ≡ share_key ops.now others.now }
{
    for op in ops.as_slice() {
        if is_shared(*op, others) {
            return true;
        }
    }
    false
}

/// The final timestamp of a commit that has one.
fn final_time(outcome: &Outcome) -> Option<Ts>
    ensures { result ≡ final_time outcome.now }
{
    match outcome {
        Outcome::Committed { fc, .. } => *fc,
        Outcome::Aborted { .. } => None,
    }
}

/// Whether one is final at or below the other's snapshot, where both are final.
fn are_ordered(answer: &Answer, earlier: &Answer) -> bool
    ensures { result ≡ are_ordered answer.now.rs.0 answer.now.outcome earlier.now.rs.0 earlier.now.outcome }
{
    match final_time(&answer.outcome) {
        None => true,
        Some(fc) => match final_time(&earlier.outcome) {
            None => true,
            Some(gc) => fc.0 <= earlier.rs.0 || gc.0 <= answer.rs.0,
        },
    }
}

/// Whether an answer and an earlier one are ordered, or write no key both.
fn are_apart(scene: &Scene, answer: &Answer, ops: &OpList, earlier: &Answer) -> bool
    requires { ops.now ≡ script_at scene.now answer.now.place }
    ensures { result ≡ are_apart scene.now answer.now earlier.now }
{
    are_ordered(answer, earlier) || !share_key(ops, &script_at(scene, earlier.place))
}

/// Whether no earlier answer that wrote a key of the answer overlaps with it.
pub fn overlaps_none(scene: &Scene, earlier: &[Answer], answer: &Answer) -> bool
    ensures { result ≡ list_all (are_apart scene.now answer.now) earlier.now }
{
    let ops = script_at(scene, answer.place);
    for other in earlier {
        if !are_apart(scene, answer, &ops, other) {
            return false;
        }
    }
    true
}
