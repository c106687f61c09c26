//! The messages that a node sends.

ghost use Rattle.partition_map.specs.Maps.{HasKey, HasPart};
ghost use Rattle.node_parts.specs.Letters.{Sends, SendsAsks, SendsCommits, marks_by};
ghost use Rattle.std.specs.Prelude.{◌≡◌, ◌<◌, ◌≤◌, ◌+◌, ◌∷◌, [], ℕ, Some, filter, length, slice_get};
ghost use Rattle.str_base.specs.declared.names.Write.{Write as AWrite};
ghost use Rattle.str_base.specs.Versions.{same_part};
ghost use Rattle.str_model.specs.Acts.{abort_letters, ask_letters, asked_ones, copies};
ghost use Rattle.str_model.specs.Views.{Own, letter, name_of};
ghost use Rattle.str_scene.specs.Scenes.{Here, in_part, map_of, part_of, replicas};

use crate::sending::Sending;
use crate::sites::Site;
use last_reader::Marks;
use partition_map::Participants;
use str_base::{KeyId, NodeId, PartId, Ts, TxId, Writes};
use str_model::{Arrived, Body, KeyMark, KeyMarks, Message};

/// Sends a message of the node.
pub fn send(site: &Site, receiver: NodeId, body: Body, out: &mut Sending)
    requires { 0 < out.old.space }
    ensures { Sends (letter site.now receiver body ∷ []) out.old out.new }
{
    out.send(Message {
        sender: site.id(),
        receiver,
        body,
    });
}

/// Tells each participant whose partition was asked that a transaction has aborted.
pub fn send_aborts(site: &Site, tx: TxId, parts: &Participants, out: &mut Sending)
    requires { length (asked_ones parts.now) ≤ out.old.space }
    ensures { (i : ℕ) → tx ≡ name_of site.now i → Sends (abort_letters site.now i parts.now) out.old out.new }
{
    for other in parts.as_slice() {
        if other.asked {
            let part = other.part;
            send(site, other.node, Body::Abort { tx, part }, out);
        }
    }
}

/// Whether a key is of a partition.
fn is_in(site: &Site, part: PartId, key: KeyId) -> bool
    requires { HasKey (map_of site.now.scene) key }
    ensures { result ≡ same_part (part_of site.now.scene key) part }
{
    site.map().part_of(key) == part
}

/// The writes of a partition, in order of first write.
fn writes_in(site: &Site, part: PartId, writes: &Writes) -> Writes
    requires { (i : ℕ) (w : AWrite) → slice_get writes.now i ≡ Some w → HasKey (map_of site.now.scene) w.key }
    ensures { result ≡ filter (in_part site.now.scene part) writes.now }
{
    let mut list = Writes::new();
    for write in writes.as_slice() {
        if is_in(site, part, write.key) {
            list.push(*write);
        }
    }
    list
}

/// The marks of the written keys of a partition, in order of first write.
fn marks_in(site: &Site, marks: &Marks, part: PartId, writes: &Writes) -> KeyMarks
    requires keys { (i : ℕ) (w : AWrite) → slice_get writes.now i ≡ Some w → HasKey (map_of site.now.scene) w.key }
    requires marked { (i : ℕ) (w : AWrite) → slice_get writes.now i ≡ Some w → w.key.0 < length marks.now }
    ensures { result ≡ marks_by site.now marks.now part writes.now }
{
    let mut list = KeyMarks::new();
    for write in writes.as_slice() {
        if is_in(site, part, write.key) {
            list.push(KeyMark {
                key: write.key,
                mark: marks.mark(write.key),
            });
        }
    }
    list
}

/// Tells each participant that a transaction has committed at `fc`, with the node's marks of the keys that it wrote there.
pub fn send_commits(
    site: &Site,
    tx: TxId,
    fc: Ts,
    parts: &Participants,
    writes: &Writes,
    marks: &Marks,
    out: &mut Sending,
)
    requires keys { (i : ℕ) (w : AWrite) → slice_get writes.now i ≡ Some w → HasKey (map_of site.now.scene) w.key }
    requires marked { (i : ℕ) (w : AWrite) → slice_get writes.now i ≡ Some w → w.key.0 < length marks.now }
    requires space { length parts.now ≤ out.old.space }
    ensures { SendsCommits site.now tx fc.0 parts.now writes.now marks.now out.old out.new }
{
    for other in parts.as_slice() {
        let part = other.part;
        let marks = marks_in(site, marks, part, writes);
        let body = Body::Commit {
            tx,
            part,
            fc,
            marks,
        };
        send(site, other.node, body, out);
    }
}

/// Asks a partition: its master where that is another node, else each slave.
pub fn send_asks(
    site: &Site,
    tx: TxId,
    rs: Ts,
    lc: Ts,
    part: PartId,
    writes: &Writes,
    out: &mut Sending,
)
    requires part { HasPart (map_of site.now.scene) part }
    requires keys { (i : ℕ) (w : AWrite) → slice_get writes.now i ≡ Some w → HasKey (map_of site.now.scene) w.key }
    requires space { (i : ℕ) (x : Own) → x.writes ≡ writes.now → length (ask_letters site.now i lc.0 x part (replicas site.now.scene part)) ≤ out.old.space }
    ensures { SendsAsks site.now tx rs lc.0 part writes.now out.old out.new }
{
    let master = site.map().master(part);
    let arrived = Arrived {
        tx,
        part,
        rs,
        lc,
        writes: writes_in(site, part, writes),
    };
    if master == site.id() {
        send_copies(site, &arrived, out);
        return;
    }
    let Arrived { writes, .. } = arrived;
    let body = Body::Prepare {
        tx,
        part,
        rs,
        lc,
        writes,
    };
    send(site, master, body, out);
}

/// Sends what arrived at a master, or what the master itself wrote, to each replica of the partition but the node and the origin.
pub fn send_copies(site: &Site, a: &Arrived, out: &mut Sending)
    requires part { HasPart (map_of site.now.scene) a.now.part }
    requires space { length (copies site.now a.now (replicas site.now.scene a.now.part)) ≤ out.old.space }
    ensures { Sends (copies site.now a.now (replicas site.now.scene a.now.part)) out.old out.new }
{
    let row = site.map().replicas(a.part);
    for replica in row.as_slice() {
        if *replica != site.id() && *replica != a.tx.node {
            send(site, *replica, copy_of(a), out);
        }
    }
}

/// A Replicate of what arrived.
fn copy_of(a: &Arrived) -> Body
    ensures { result ≡ Body.Replicate a.now.tx a.now.part a.now.rs a.now.lc a.now.writes }
{
    Body::Replicate {
        tx: a.tx,
        part: a.part,
        rs: a.rs,
        lc: a.lc,
        writes: a.writes.copy(),
    }
}
