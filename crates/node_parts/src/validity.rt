//! Which messages are strange: what they name does not exist, or a number of theirs is out of its range.
ghost use Rattle.std.specs.List.{list_all, list_any};
ghost use Rattle.std.specs.Prelude.{◌≡◌, ◌&&◌, map};
ghost use Rattle.str_model.specs.declared.names.KeyMark.{KeyMark as AMark};
ghost use Rattle.str_base.specs.declared.names.Write.{Write as AWrite};
ghost use Rattle.str_model.specs.Strange.{below_limit, has_key, has_named, has_named_writes, has_node, has_part, has_value, has_values, has_writer, is_valid, keys_in};
ghost use Rattle.str_scene.specs.Scenes.{part_of};
ghost use Rattle.str_base.specs.Versions.{same_key, same_part};

use crate::sites::Site;
use str_base::{KeyId, NodeId, PartId, Ts, TxId, Value, Write, Writes};
use str_model::{Body, KeyMark, KeyMarks, Message};

/// No timestamp of a run reaches this.
pub const TS_LIMIT: u64 = (1 << 62) + (1 << 20);

/// Whether a message is for the node and is not strange.
pub fn is_valid(site: &Site, message: &Message) -> bool
    ensures { result ≡ is_valid site.now message.now }
{
    if message.receiver != site.id() || !has_node(site, message.sender) {
        return false;
    }
    has_named(site, &message.body)
}

/// Whether all that a message names exists, and its timestamps are below the limit.
fn has_named(site: &Site, body: &Body) -> bool
    ensures { result ≡ has_named site.now body.now }
{
    match body {
        Body::ReadReq { tx, key, rs } => {
            has_node(site, tx.node) && has_key(site, *key) && is_below(*rs)
        }
        Body::ReadReply {
            tx,
            key,
            value,
            by,
            fc,
        } => has_node(site, tx.node) && has_reply(site, *key, *value, *by, *fc),
        Body::Prepare {
            tx,
            part,
            rs,
            lc,
            writes,
        } => has_writes(site, *tx, *part, *rs, *lc, writes),
        Body::Refuse { tx, part, by, key } => {
            has_pair(site, *tx, *part) && has_node(site, by.node) && has_key(site, *key)
        }
        Body::Replicate {
            tx,
            part,
            rs,
            lc,
            writes,
        } => has_writes(site, *tx, *part, *rs, *lc, writes),
        Body::Ack { tx, part, ts } => has_pair(site, *tx, *part) && is_below(*ts),
        Body::Commit {
            tx,
            part,
            fc,
            marks,
        } => has_pair(site, *tx, *part) && is_below(*fc) && has_marks(site, *part, marks),
        Body::Abort { tx, part } => has_pair(site, *tx, *part),
    }
}

/// Whether a node exists.
fn has_node(site: &Site, node: NodeId) -> bool
    ensures { result ≡ has_node site.now node }
{
    0 < node.0 && node.0 <= site.scene().nodes()
}

/// Whether a partition exists.
fn has_part(site: &Site, part: PartId) -> bool
    ensures { result ≡ has_part site.now part }
{
    0 < part.0 && part.0 as usize <= site.scene().parts().len()
}

/// Whether a key exists.
fn has_key(site: &Site, key: KeyId) -> bool
    ensures { result ≡ has_key site.now key }
{
    key.0 < site.scene().keys().len()
}

/// Whether a byte string is one of the scene's list.
fn has_value(site: &Site, value: Value) -> bool
    ensures { result ≡ has_value site.now value }
{
    match value {
        Value::Absent | Value::Num(_) => true,
        Value::Text(text) => text.0 < site.scene().keys().texts(),
    }
}

/// Whether the transaction's node and the partition exist.
fn has_pair(site: &Site, tx: TxId, part: PartId) -> bool
    ensures { result ≡ (has_node site.now tx.node && has_part site.now part) }
{
    has_node(site, tx.node) && has_part(site, part)
}

/// Whether all that a reply names exists, beside its transaction.
fn has_reply(site: &Site, key: KeyId, value: Value, by: Option<TxId>, fc: Ts) -> bool
    ensures { result ≡ (has_key site.now key && (has_value site.now value && (has_writer site.now by && below_limit fc))) }
{
    let has_writer = match by {
        None => true,
        Some(writer) => has_node(site, writer.node),
    };
    has_key(site, key) && has_value(site, value) && has_writer && is_below(fc)
}

/// Whether a timestamp is below the limit.
fn is_below(ts: Ts) -> bool
    ensures { result ≡ below_limit ts }
{
    ts.0 < TS_LIMIT
}

/// Whether all that a Prepare or a Replicate names exists.
fn has_writes(site: &Site, tx: TxId, part: PartId, rs: Ts, lc: Ts, writes: &Writes) -> bool
    ensures { result ≡ has_named_writes site.now tx part rs lc writes.now }
{
    if !has_pair(site, tx, part) || !is_below(rs) || !is_below(lc) {
        return false;
    }
    writes.len() != 0 && has_written_keys(site, part, writes) && has_values(site, writes)
}

/// Whether each byte string that is written is one of the scene's list.
fn has_values(site: &Site, writes: &Writes) -> bool
    ensures { result ≡ has_values site.now writes.now }
{
    for write in writes.as_slice() {
        if !has_value(site, write.value) {
            return false;
        }
    }
    true
}

/// Whether a key exists and is of a partition.
fn is_key_of(site: &Site, part: PartId, key: KeyId) -> bool
    ensures { result ≡ (has_key site.now key && same_part (part_of site.now.scene key) part) }
{
    has_key(site, key) && site.map().part_of(key) == part
}

/// Whether distinct keys of a partition are written.
fn has_written_keys(site: &Site, part: PartId, writes: &Writes) -> bool
    ensures { result ≡ keys_in site.now part (map (λ (w : AWrite). w.key) writes.now) }
{
    let items = writes.as_slice();
    for i in 0..items.len() {
        if !is_key_of(site, part, items[i].key) || is_written_in(&items[i + 1..], items[i].key) {
            return false;
        }
    }
    true
}

/// Whether one of the writes is of a key.
fn is_written_in(writes: &[Write], key: KeyId) -> bool
    ensures { result ≡ list_any (same_key key) (map (λ (w : AWrite). w.key) writes.now) }
{
    for write in writes {
        if key == write.key {
            return true;
        }
    }
    false
}

/// Whether the marks are of distinct keys of a partition, and below the limit.
fn has_marks(site: &Site, part: PartId, marks: &KeyMarks) -> bool
    ensures { result ≡ (keys_in site.now part (map (λ (m : AMark). m.key) marks.now) && list_all (λ (m : AMark). below_limit m.mark) marks.now) }
{
    let items = marks.as_slice();
    for i in 0..items.len() {
        let mark = items[i];
        if !is_key_of(site, part, mark.key) || !is_below(mark.mark) {
            return false;
        }
        if is_marked_in(&items[i + 1..], mark.key) {
            return false;
        }
    }
    true
}

/// Whether one of the marks is of a key.
fn is_marked_in(marks: &[KeyMark], key: KeyId) -> bool
    ensures { result ≡ list_any (same_key key) (map (λ (m : AMark). m.key) marks.now) }
{
    for mark in marks {
        if key == mark.key {
            return true;
        }
    }
    false
}
