//! Reads of a key.
ghost use Rattle.std.specs.Prelude.{◌≡◌, ◌↔◌, ◌≤◌, ◌∷◌, IfOk, List, [], false, length, true};
ghost use Rattle.dependency_set.specs.Snapshots.{accept_final};
ghost use Rattle.partition_map.specs.Maps.{HasKey};
ghost use Rattle.snapshot_read.specs.Causes.{GateWaits, IsAway, ReadWaits, ServeWaits};
ghost use Rattle.snapshot_read.specs.ListReads.{gated_at, kind_read, list_read};
ghost use Rattle.snapshot_read.specs.Shown.{AreNamed, AreTold, InViews, IsNamed, OthersNamed, ShowsHosted, StandAt, of_key};
ghost use Rattle.snapshot_read.specs.Turning.{serve_of, turn_of};
ghost use Rattle.str_base.specs.declared.names.NodeId.{NodeId as Node};
ghost use Rattle.str_base.specs.declared.names.TxId.{TxId as Name};
ghost use Rattle.str_base.specs.Versions.{is_local, last_pre, visible};
ghost use Rattle.str_model.specs.Turns;
ghost use Rattle.str_model.specs.Turns.{read_turn, reply_turn, serve_turn};
ghost use Rattle.str_model.specs.Views.{View};
ghost use Rattle.str_scene.specs.Scenes.{Here};
ghost use Rattle.version_chain.specs.ChainLists.{Each};

use crate::taking::{gate_waits, take_over};
use cache_partition::CachePartition;
use dependency_set::{OwnSnap, Snap, accept_final};
use partition_map::PartitionMap;
use replica_store::ReplicaStore;
use std::marker::{Send, Sync};
use str_base::{KeyId, Kind, NodeId, Ts, TxId, Value, Version};

/// What a read of an own transaction comes to.
#[derive(Drop)]
pub enum ReadTurn {
    /// The value of a Final version, which `by` wrote and which was committed at `fc`. Absent, None and 0 where none is visible.
    Plain {
        value: Value,
        by: Option<TxId>,
        fc: Ts,
        snap: Snap,
    },
    /// The value of a Local version of `by`, on which the reading transaction depends from now on.
    Speculative {
        value: Value,
        by: TxId,
        snap: Snap,
    },
    /// It waits for `by`.
    Wait {
        by: TxId,
    },
    /// The key is not hosted, and the master of its partition is asked.
    Remote {
        master: NodeId,
    },
}

/// What a read of another node comes to.
#[derive(Clone, Copy, Debug, PartialEq, Eq)]
pub enum ServeTurn {
    /// The value, its writer and its timestamp. Absent, None and 0 where none is visible.
    Give {
        value: Value,
        by: Option<TxId>,
        fc: Ts,
    },
    /// It waits for `by`.
    Wait {
        by: TxId,
    },
}

/// A read of a key for an own transaction with this snapshot. A Pre version at or below the snapshot is waited for. Else the last
/// version at or below the snapshot is read, and the snapshot takes over what that version brings; the gate of the new
/// snapshot may make it wait. Where the key is not hosted and no version is visible, the master is asked. `own` tells of at most
/// 15 own transactions, of each origin of a Local version, of each dependency of `snap`, and of each dependency of those that have a
/// Local version at or below the snapshot. It changes nothing.
pub fn try_read(
    node: NodeId,
    snap: &Snap,
    own: &[OwnSnap],
    store: &ReplicaStore,
    cache: &CachePartition,
    map: &PartitionMap,
    key: KeyId,
) -> ReadTurn
    requires key { HasKey map.now key }
    requires here { StandAt node map.now store.now cache.now }
    requires few { length own.now ≤ 15 }
    requires deps { AreNamed own.now snap.now.deps }
    requires told { AreTold own.now snap.now.rs store.now.versions cache.now.versions }
    ensures lists { turn_of result ≡ list_read node map.now own.now store.now.versions cache.now.versions snap.now key }
    ensures turn { InViews node own.now store.now cache.now map.now (λ here view. turn_of result ≡ read_turn here view snap.now key) }
    ensures wait { InViews node own.now store.now cache.now map.now (λ here view. (by : Name) → (result ≡ ReadTurn.Wait by) ↔ ReadWaits here view snap.now key by) }
    ensures remote { InViews node own.now store.now cache.now map.now (λ here view. (m : Node) → (result ≡ ReadTurn.Remote m) ↔ IsAway here view snap.now key m) }
{
    let _ = (store.node(), cache.node());
    read(node, snap, own, store, cache, map, key)
}

/// The read, by the lists alone.
fn read(
    node: NodeId,
    snap: &Snap,
    own: &[OwnSnap],
    store: &ReplicaStore,
    cache: &CachePartition,
    map: &PartitionMap,
    key: KeyId,
) -> ReadTurn
    requires key { HasKey map.now key }
    requires few { length own.now ≤ 15 }
    requires deps { AreNamed own.now snap.now.deps }
    requires told { AreTold own.now snap.now.rs store.now.versions cache.now.versions }
    ensures { turn_of result ≡ list_read node map.now own.now store.now.versions cache.now.versions snap.now key }
{
    let part = map.part_of(key);
    let is_hosted = map.hosts(node, part);
    let rs = snap.rs();
    if let Some(Version { tx: by, .. }) = last_pre(store, cache, is_hosted, key, rs) {
        return ReadTurn::Wait { by };
    }
    match last_visible(store, cache, is_hosted, key, rs) {
        Some(version) => read_version(node, snap, own, &version),
        None if is_hosted => plain(node, Value::Absent, None, Ts(0), snap.copy()),
        None => ReadTurn::Remote {
            master: map.master(part),
        },
    }
}

/// The last Pre version of a key at or below `rs`, in the store that holds the key.
fn last_pre(
    store: &ReplicaStore,
    cache: &CachePartition,
    is_hosted: bool,
    key: KeyId,
    rs: Ts,
) -> Option<Version>
    ensures { result ≡ last_pre (of_key is_hosted store.now.versions cache.now.versions) key rs.0 }
{
    if is_hosted {
        store.undecided(key, rs, false)
    } else {
        cache.undecided(key, rs, false)
    }
}

/// The last version of a key at or below `rs`, in the store that holds the key.
fn last_visible(
    store: &ReplicaStore,
    cache: &CachePartition,
    is_hosted: bool,
    key: KeyId,
    rs: Ts,
) -> Option<Version>
    ensures { result ≡ visible (of_key is_hosted store.now.versions cache.now.versions) key rs.0 }
{
    if is_hosted {
        store.visible(key, rs)
    } else {
        cache.visible(key, rs)
    }
}

/// The read of a visible version, by its kind.
fn read_version(node: NodeId, snap: &Snap, own: &[OwnSnap], version: &Version) -> ReadTurn
    requires few { length own.now ≤ 15 }
    requires deps { AreNamed own.now snap.now.deps }
    requires origin { is_local version.now.kind ≡ true → IsNamed own.now version.now.tx.seq }
    requires others { is_local version.now.kind ≡ true → OthersNamed own.now version.now.tx.seq }
    ensures { turn_of result ≡ kind_read node own.now snap.now version.now version.now.kind }
{
    let (value, by, ts) = (version.value, version.tx, version.ts);
    match version.kind {
        Kind::Pre => ReadTurn::Wait { by },
        Kind::Local => speculative(node, value, by, take_over(own, by.seq, snap)),
        Kind::Final => plain(node, value, Some(by), ts, accept_final(snap, ts)),
    }
}

/// A read of what is final, where the gate of its new snapshot lets it through.
fn plain(node: NodeId, value: Value, by: Option<TxId>, fc: Ts, snap: Snap) -> ReadTurn
    ensures turn { turn_of result ≡ gated_at node snap (Turns.Plain value by fc.0 snap) }
    ensures wait { (who : Name) → (result ≡ ReadTurn.Wait who) ↔ GateWaits node snap who }
{
    match gate_waits(node, &snap) {
        Some(by) => ReadTurn::Wait { by },
        None => ReadTurn::Plain {
            value,
            by,
            fc,
            snap,
        },
    }
}

/// A read of what a transaction wrote that is undecided, where the gate of its new snapshot lets it through.
fn speculative(node: NodeId, value: Value, by: TxId, snap: Snap) -> ReadTurn
    ensures { turn_of result ≡ gated_at node snap (Turns.Speculative value by snap) }
{
    match gate_waits(node, &snap) {
        Some(by) => ReadTurn::Wait { by },
        None => ReadTurn::Speculative { value, by, snap },
    }
}

/// What a reply from a master comes to. The snapshot takes it in as final at `fc`, whether it names a writer or not. It waits where the
/// gate of the new snapshot fails.
#[tactic(auto, unfolding(str_model::specs::Turns::reply_turn))]
pub fn take_reply(node: NodeId, snap: &Snap, value: Value, by: Option<TxId>, fc: Ts) -> ReadTurn
    ensures turn { (here : Here) → here.node ≡ node → turn_of result ≡ reply_turn here snap.now value by fc.0 }
    ensures wait { (who : Name) → (result ≡ ReadTurn.Wait who) ↔ GateWaits node (accept_final snap.now fc.0) who }
{
    plain(node, value, by, fc, accept_final(snap, fc))
}

/// A read of a key at a snapshot for a transaction of another node. It waits for the last undecided version at or below the
/// snapshot, and else gives the last version.
pub fn serve(store: &ReplicaStore, key: KeyId, rs: Ts) -> ServeTurn
    ensures turn { serve_of result ≡ serve_turn store.now.versions key rs.0 }
    ensures seen { (view : View) → ShowsHosted view store.now.versions key → serve_of result ≡ serve_turn view.versions key rs.0 }
    ensures wait { (by : Name) → (result ≡ ServeTurn.Wait by) ↔ ServeWaits store.now.versions key rs.0 by }
{
    served(store, key, rs)
}

/// The read for a transaction of another node, by the versions of the store.
#[tactic(auto, unfolding(str_model::specs::Turns::serve_turn))]
fn served(store: &ReplicaStore, key: KeyId, rs: Ts) -> ServeTurn
    ensures turn { serve_of result ≡ serve_turn store.now.versions key rs.0 }
    ensures wait { (by : Name) → (result ≡ ServeTurn.Wait by) ↔ ServeWaits store.now.versions key rs.0 by }
{
    if let Some(version) = store.undecided(key, rs, true) {
        return ServeTurn::Wait { by: version.tx };
    }
    match store.visible(key, rs) {
        Some(version) => ServeTurn::Give {
            value: version.value,
            by: Some(version.tx),
            fc: version.ts,
        },
        None => ServeTurn::Give {
            value: Value::Absent,
            by: None,
            fc: Ts(0),
        },
    }
}

fn sendable<T: Send + Sync>(_: &T) {}

fn all_sendable(read: &ReadTurn, served: &ServeTurn) {
    sendable(read);
    sendable(served);
}

#[cfg(test)]
mod tests {
    use super::*;
    use dependency_set::{Dep, Deps};
    use partition_map::PartRow;
    use std::alloc::{AllocError, Global};
    use std::test::Fail;
    use str_base::{PartId, ShortList};

    fn tx(node: u8, seq: u32) -> TxId
        ensures { result ≡ record { node = record { 0 = node }; seq = seq } }
    {
        TxId {
            node: NodeId(node),
            seq,
        }
    }

    // What a read comes to, without its snapshot.
    #[derive(Clone, Copy, Debug, PartialEq, Eq)]
    enum Seen {
        Plain(Value, Option<TxId>, Ts),
        Speculative(Value, TxId),
        Wait(TxId),
        Remote(NodeId),
    }

    fn row(node: u8) -> PartRow
        ensures { result ≡ record { 0 = node } ∷ [] }
    {
        let mut row = PartRow::new();
        row.push(NodeId(node));
        row
    }

    // Key 0 is of partition 1 at node 1, and key 1 is of partition 2 at node 2.
    fn map(alloc: Global) -> Result<PartitionMap, AllocError>
        ensures { IfOk result (λ m. m ≡ record { rows = (record { 0 = 1 } ∷ []) ∷ (record { 0 = 2 } ∷ []) ∷ []; keys = record { 0 = 1 } ∷ record { 0 = 2 } ∷ [] }) }
    {
        let rows = Vec::from_array(alloc, [row(1), row(2)])?;
        let keys = Vec::from_array(alloc, [PartId(1), PartId(2)])?;
        PartitionMap::new(alloc, &rows, &keys)
    }

    fn hosted() -> ShortList<PartId, 32>
        ensures { result ≡ record { 0 = 1 } ∷ [] }
    {
        let mut hosted = ShortList::new();
        hosted.push(PartId(1));
        hosted
    }

    // A Final version of key 0 at 5, and a Pre version at 9.
    fn store(alloc: Global) -> Result<ReplicaStore, AllocError>
        ensures { IfOk result (λ s. (s.node ≡ record { 0 = 1 }) × (s.hosted ≡ record { 0 = 1 } ∷ []) × Each (λ v. is_local v.kind ≡ false) s.versions) }
    {
        let mut store = ReplicaStore::new(alloc, NodeId(1), hosted());
        store.reserve(2)?;
        let final_ = Version {
            key: KeyId(0),
            part: PartId(1),
            tx: tx(2, 1),
            ts: Ts(5),
            value: Value::Num(7),
            kind: Kind::Final,
        };
        store.insert(final_);
        store.insert(Version {
            tx: tx(2, 2),
            ts: Ts(9),
            kind: Kind::Pre,
            ..final_
        });
        Ok(store)
    }

    // A Local version of key 1 at 6 by transaction 1.
    fn cache(alloc: Global) -> Result<CachePartition, AllocError>
        ensures { IfOk result (λ s. (s.node ≡ record { 0 = 1 }) × (s.hosted ≡ record { 0 = 1 } ∷ []) × Each (λ v. v.tx.seq ≡ 1) s.versions) }
    {
        let mut cache = CachePartition::new(alloc, NodeId(1), hosted());
        cache.reserve(1)?;
        cache.insert(Version {
            key: KeyId(1),
            part: PartId(2),
            tx: tx(1, 1),
            ts: Ts(6),
            value: Value::Num(8),
            kind: Kind::Local,
        });
        Ok(cache)
    }

    // Transaction 1 began at 4.
    fn read(
        store: &ReplicaStore,
        cache: &CachePartition,
        map: &PartitionMap,
        key: u32,
        rs: u64,
        ffc: u64,
    ) -> Seen
        requires key { HasKey map.now (record { 0 = key }) }
        requires here { StandAt (record { 0 = 1 }) map.now store.now cache.now }
        requires stored { Each (λ v. is_local v.kind ≡ false) store.now.versions }
        requires cached { Each (λ v. v.tx.seq ≡ 1) cache.now.versions }
    {
        let own = [OwnSnap {
            seq: 1,
            snap: Snap::new(Ts(4), Ts(0), Deps::new()),
        }];
        let snap = Snap::new(Ts(rs), Ts(ffc), Deps::new());
        match try_read(
            NodeId(1),
            &snap,
            own.as_slice(),
            store,
            cache,
            map,
            KeyId(key),
        ) {
            ReadTurn::Plain { value, by, fc, .. } => Seen::Plain(value, by, fc),
            ReadTurn::Speculative { value, by, .. } => Seen::Speculative(value, by),
            ReadTurn::Wait { by } => Seen::Wait(by),
            ReadTurn::Remote { master } => Seen::Remote(master),
        }
    }

    #[test]
    fn reads_versions(rt: HostRuntime) -> Result<(), Fail> {
        let map = map(rt.alloc())?;
        let store = store(rt.alloc())?;
        let cache = cache(rt.alloc())?;
        let table = [
            (4, Seen::Plain(Value::Absent, None, Ts(0))),
            (5, Seen::Plain(Value::Num(7), Some(tx(2, 1)), Ts(5))),
            (9, Seen::Wait(tx(2, 2))),
        ];
        for (rs, want) in table {
            assert_eq!(rt; read(&store, &cache, &map, 0, rs, 0), want);
        }
        let table = [
            (5, 0, Seen::Remote(NodeId(2))),
            (6, 4, Seen::Speculative(Value::Num(8), tx(1, 1))),
            (6, 5, Seen::Wait(tx(1, 1))),
        ];
        for (rs, ffc, want) in table {
            assert_eq!(rt; read(&store, &cache, &map, 1, rs, ffc), want);
        }
        Ok(())
    }

    // The snapshot at 20 depends on transaction 3, which began at 10.
    #[test]
    fn takes_replies(rt: HostRuntime) -> Result<(), Fail> {
        for (fc, waits) in [(0, false), (10, false), (11, true)] {
            let dep = Dep { seq: 3, rs: Ts(10) };
            let mut deps = Deps::new();
            deps.push(dep);
            let snap = Snap::new(Ts(20), Ts(0), deps);
            let value = Value::Num(7);
            match take_reply(NodeId(1), &snap, value, Some(tx(2, 4)), Ts(fc)) {
                ReadTurn::Plain {
                    value: got,
                    by,
                    fc: at,
                    snap,
                } => {
                    assert!(rt; !waits);
                    assert_eq!(rt; got, value);
                    assert_eq!(rt; by, Some(tx(2, 4)));
                    assert_eq!(rt; at, Ts(fc));
                    assert_eq!(rt; snap.ffc(), Ts(fc));
                    assert_eq!(rt; snap.deps(), [dep].as_slice());
                }
                ReadTurn::Wait { by } => {
                    assert!(rt; waits);
                    assert_eq!(rt; by, tx(1, 3));
                }
                _ => assert!(rt; false),
            }
        }
        Ok(())
    }

    // A Local version at 9, which is then committed at 12.
    #[test]
    fn serves_versions(rt: HostRuntime) -> Result<(), Fail> {
        let mut hosted = ShortList::new();
        hosted.push(PartId(1));
        let mut store = ReplicaStore::new(rt.alloc(), NodeId(1), hosted);
        store.reserve(1)?;
        store.insert(Version {
            key: KeyId(0),
            part: PartId(1),
            tx: tx(1, 5),
            ts: Ts(9),
            value: Value::Num(7),
            kind: Kind::Local,
        });
        let none = ServeTurn::Give {
            value: Value::Absent,
            by: None,
            fc: Ts(0),
        };
        let wait = ServeTurn::Wait { by: tx(1, 5) };
        for (key, rs, want) in [(0, 8, none), (0, 9, wait), (1, 9, none)] {
            assert_eq!(rt; serve(&store, KeyId(key), Ts(rs)), want);
        }
        store.finalise(tx(1, 5), PartId(1), Ts(12));
        let give = ServeTurn::Give {
            value: Value::Num(7),
            by: Some(tx(1, 5)),
            fc: Ts(12),
        };
        for (rs, want) in [(11, none), (12, give)] {
            assert_eq!(rt; serve(&store, KeyId(0), Ts(rs)), want);
        }
        Ok(())
    }
}
