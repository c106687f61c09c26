//! Certification of an own transaction.
ghost use Rattle.std.specs.Prelude.{◌≡◌, ◌<◌, ◌≤◌, ◌∷◌, IfOk, Some, [], false, length, max, slice_get, ℕ};
ghost use Rattle.local_certify.specs.Causes.{AllBelow, CertifiesAbove, InMarkedViews, NamesConflict, NamesGate, time_end};
ghost use Rattle.local_certify.specs.Judging.{passed_by};
ghost use Rattle.local_certify.specs.ListCerts.{closed_at, list_cert};
ghost use Rattle.local_certify.specs.Turning.{turn_of};
ghost use Rattle.partition_map.specs.Maps.{HasKey};
ghost use Rattle.snapshot_read.specs.Shown.{AreNamed, AreTold, StandAt, of_key, held};
ghost use Rattle.str_base.specs.declared.names.KeyId.{KeyId as Key};
ghost use Rattle.str_base.specs.declared.names.Write.{Write as AWrite};
ghost use Rattle.str_base.specs.Versions.{is_local, mark_of, newest};
ghost use Rattle.str_model.specs.Turns.{cert_turn};
ghost use Rattle.version_chain.specs.ChainLists.{Each};

use crate::judging::judge_all;
use cache_partition::CachePartition;
use dependency_set::{OwnSnap, Snap};
use last_reader::Marks;
use partition_map::PartitionMap;
use replica_store::ReplicaStore;
use snapshot_read::gate_waits;
use std::marker::{Send, Sync};
use str_base::{KeyId, NodeId, Ts, TxId, Version, Write, Writes};

/// What a certification comes to.
#[derive(Drop)]
pub enum CertTurn {
    /// It is certified at `lc`, with this snapshot from now on.
    Certified { lc: Ts, snap: Snap },
    /// It conflicts with what `by` wrote to this key.
    Conflict { by: TxId, key: KeyId },
    /// The gate of its new snapshot makes it wait for `by`.
    WaitGate { by: TxId },
}

/// The certification of an own transaction with this snapshot and these writes. The versions of the written keys are looked at in
/// order of first write, and for each key in their order. The first one that is Pre or above the snapshot is a conflict.
/// Else the snapshot takes over each Local version, and the gate of the new snapshot may make it wait. Else it is certified at the
/// least timestamp above its snapshot, the marks and the newest versions of the written keys. `own` is as for a read. Every
/// timestamp is below 2^63 - 1. It changes nothing.
pub fn certify(
    node: NodeId,
    snap: &Snap,
    writes: &Writes,
    own: &[OwnSnap],
    store: &ReplicaStore,
    cache: &CachePartition,
    marks: &Marks,
    map: &PartitionMap,
) -> CertTurn
    requires keys { (i : ℕ) (w : AWrite) → slice_get writes.now i ≡ Some w → HasKey map.now w.key }
    requires marked { (i : ℕ) (w : AWrite) → slice_get writes.now i ≡ Some w → w.key.0 < length marks.now }
    requires here { StandAt node map.now store.now cache.now }
    requires few { length own.now ≤ 15 }
    requires deps { AreNamed own.now snap.now.deps }
    requires told { AreTold own.now snap.now.rs store.now.versions cache.now.versions }
    requires times { AllBelow snap.now.rs marks.now store.now.versions cache.now.versions }
    ensures lists { turn_of result ≡ list_cert node map.now own.now store.now.versions cache.now.versions marks.now snap.now writes.now }
    ensures turn { InMarkedViews node own.now store.now cache.now map.now marks.now (λ here view. turn_of result ≡ cert_turn here view snap.now writes.now) }
    ensures conflict { InMarkedViews node own.now store.now cache.now map.now marks.now (NamesConflict result snap.now writes.now) }
    ensures wait { InMarkedViews node own.now store.now cache.now map.now marks.now (NamesGate result snap.now writes.now) }
    ensures above { InMarkedViews node own.now store.now cache.now map.now marks.now (CertifiesAbove result snap.now writes.now) }
{
    let _ = (store.node(), cache.node());
    judge(node, snap, writes, own, store, cache, marks, map)
}

/// The certification, by the lists alone.
fn judge(
    node: NodeId,
    snap: &Snap,
    writes: &Writes,
    own: &[OwnSnap],
    store: &ReplicaStore,
    cache: &CachePartition,
    marks: &Marks,
    map: &PartitionMap,
) -> CertTurn
    requires keys { (i : ℕ) (w : AWrite) → slice_get writes.now i ≡ Some w → HasKey map.now w.key }
    requires marked { (i : ℕ) (w : AWrite) → slice_get writes.now i ≡ Some w → w.key.0 < length marks.now }
    requires few { length own.now ≤ 15 }
    requires deps { AreNamed own.now snap.now.deps }
    requires told { AreTold own.now snap.now.rs store.now.versions cache.now.versions }
    requires times { AllBelow snap.now.rs marks.now store.now.versions cache.now.versions }
    ensures { turn_of result ≡ list_cert node map.now own.now store.now.versions cache.now.versions marks.now snap.now writes.now }
{
    let items = writes.as_slice();
    let past = passed(node, items, store, cache, marks, map);
    match judge_all(node, snap, items, own, store, cache, map) {
        Ok(joined) => close(node, joined, past),
        Err(Version { tx: by, key, .. }) => CertTurn::Conflict { by, key },
    }
}

/// The certification with a snapshot that met no conflict, above the timestamp that has to be passed.
fn close(node: NodeId, snap: Snap, past: Ts) -> CertTurn
    requires rs { snap.rs < time_end }
    requires past { past.0 < time_end }
    ensures { turn_of result ≡ closed_at node past.0 snap }
{
    match gate_waits(node, &snap) {
        Some(by) => CertTurn::WaitGate { by },
        None => CertTurn::Certified {
            lc: Ts(1 + snap.rs().max(past).0),
            snap,
        },
    }
}

/// The greatest of the marks and the newest timestamps of the written keys, 0 where there is none.
fn passed(
    node: NodeId,
    writes: &[Write],
    store: &ReplicaStore,
    cache: &CachePartition,
    marks: &Marks,
    map: &PartitionMap,
) -> Ts
    requires keys { (i : ℕ) (w : AWrite) → slice_get writes.now i ≡ Some w → HasKey map.now w.key }
    requires marked { (i : ℕ) (w : AWrite) → slice_get writes.now i ≡ Some w → w.key.0 < length marks.now }
    requires times { AllBelow 0 marks.now store.now.versions cache.now.versions }
    ensures value { result.0 ≡ passed_by marks.now (held map.now node store.now.versions cache.now.versions) writes.now }
    ensures limit { result.0 < time_end }
{
    let mut last = 0;
    for write in writes {
        let is_hosted = map.hosts(node, map.part_of(write.key));
        let newest = newest(store, cache, is_hosted, write.key);
        last = greatest(last, marks.mark(write.key), newest);
    }
    Ts(last)
}

/// The greatest of three.
fn greatest(last: u64, mark: Ts, newest: Ts) -> u64
    ensures { result ≡ max last (max mark.0 newest.0) }
{
    last.max(mark.0.max(newest.0))
}

/// The greatest timestamp of a key's versions, in the store that holds it.
fn newest(store: &ReplicaStore, cache: &CachePartition, is_hosted: bool, key: KeyId) -> Ts
    requires times { Each (λ v. v.ts.0 < time_end) store.now.versions × Each (λ v. v.ts.0 < time_end) cache.now.versions }
    ensures limit { result.0 < time_end }
    ensures value { result.0 ≡ newest (of_key is_hosted store.now.versions cache.now.versions) key }
{
    if is_hosted {
        store.newest(key)
    } else {
        cache.newest(key)
    }
}

fn sendable<T: Send + Sync>(_: &T) {}

fn all_sendable(turn: &CertTurn) {
    sendable(turn);
}

#[cfg(test)]
mod tests {
    use super::*;
    use dependency_set::Deps;
    use partition_map::PartRow;
    use std::alloc::{AllocError, Global};
    use std::test::Fail;
    use str_base::{Kind, PartId, ShortList, Value};

    // What a certification comes to, without its snapshot.
    #[derive(Clone, Copy, Debug, PartialEq, Eq)]
    enum Seen {
        Certified(Ts, usize),
        Conflict(TxId, KeyId),
        WaitGate(TxId),
    }

    fn tx(node: u8, seq: u32) -> TxId
        ensures { result ≡ record { node = record { 0 = node }; seq = seq } }
    {
        TxId {
            node: NodeId(node),
            seq,
        }
    }

    fn row(node: u8) -> PartRow
        ensures { result ≡ record { 0 = node } ∷ [] }
    {
        let mut row = PartRow::new();
        row.push(NodeId(node));
        row
    }

    // Key 0 is of partition 1 at node 1, and key 1 is of partition 2 at node 2.
    fn map(alloc: Global) -> Result<PartitionMap, AllocError>
        ensures { IfOk result (λ m. m ≡ record { rows = (record { 0 = 1 } ∷ []) ∷ (record { 0 = 2 } ∷ []) ∷ []; keys = record { 0 = 1 } ∷ record { 0 = 2 } ∷ [] }) }
    {
        let rows = Vec::from_array(alloc, [row(1), row(2)])?;
        let keys = Vec::from_array(alloc, [PartId(1), PartId(2)])?;
        PartitionMap::new(alloc, &rows, &keys)
    }

    fn hosted() -> ShortList<PartId, 32>
        ensures { result ≡ record { 0 = 1 } ∷ [] }
    {
        let mut hosted = ShortList::new();
        hosted.push(PartId(1));
        hosted
    }

    // A Final version of key 0 at 5.
    fn store(alloc: Global) -> Result<ReplicaStore, AllocError>
        ensures { IfOk result (λ s. (s.node ≡ record { 0 = 1 }) × (s.hosted ≡ record { 0 = 1 } ∷ []) × Each (λ v. (is_local v.kind ≡ false) × (v.ts.0 < time_end)) s.versions) }
    {
        let mut store = ReplicaStore::new(alloc, NodeId(1), hosted());
        store.reserve(1)?;
        store.insert(Version {
            key: KeyId(0),
            part: PartId(1),
            tx: tx(2, 1),
            ts: Ts(5),
            value: Value::Num(7),
            kind: Kind::Final,
        });
        Ok(store)
    }

    // A Local version of key 1 at 6 by transaction 1.
    fn cache(alloc: Global) -> Result<CachePartition, AllocError>
        ensures { IfOk result (λ s. (s.node ≡ record { 0 = 1 }) × (s.hosted ≡ record { 0 = 1 } ∷ []) × Each (λ v. (v.tx.seq ≡ 1) × (v.ts.0 < time_end)) s.versions) }
    {
        let mut cache = CachePartition::new(alloc, NodeId(1), hosted());
        cache.reserve(1)?;
        cache.insert(Version {
            key: KeyId(1),
            part: PartId(2),
            tx: tx(1, 1),
            ts: Ts(6),
            value: Value::Num(8),
            kind: Kind::Local,
        });
        Ok(cache)
    }

    fn write(key: u32) -> Write
        ensures { result.key.0 ≡ key }
    {
        let key = KeyId(key);
        let value = Value::Num(9);
        Write { key, value }
    }

    fn both(first: Write, second: Write) -> Writes
        ensures { result ≡ first ∷ second ∷ [] }
    {
        let mut writes = Writes::new();
        writes.push(first);
        writes.push(second);
        writes
    }

    // Transaction 1 began at 4. Keys 0 and 1 are written.
    fn cert(
        store: &ReplicaStore,
        cache: &CachePartition,
        marks: &Marks,
        map: &PartitionMap,
        rs: u64,
        ffc: u64,
    ) -> Seen
        requires keys { length map.now.keys ≡ 2 }
        requires marked { length marks.now ≡ 2 }
        requires here { StandAt (record { 0 = 1 }) map.now store.now cache.now }
        requires stored { Each (λ v. (is_local v.kind ≡ false) × (v.ts.0 < time_end)) store.now.versions }
        requires cached { Each (λ v. (v.tx.seq ≡ 1) × (v.ts.0 < time_end)) cache.now.versions }
        requires times { (k : Key) → k.0 < length marks.now → mark_of marks.now k < time_end }
        requires rs { rs < 100 }
    {
        let own = [OwnSnap {
            seq: 1,
            snap: Snap::new(Ts(4), Ts(0), Deps::new()),
        }];
        let snap = Snap::new(Ts(rs), Ts(ffc), Deps::new());
        let writes = both(write(0), write(1));
        let own = own.as_slice();
        match certify(NodeId(1), &snap, &writes, own, store, cache, marks, map) {
            CertTurn::Certified { lc, snap } => Seen::Certified(lc, snap.deps().len()),
            CertTurn::Conflict { by, key } => Seen::Conflict(by, key),
            CertTurn::WaitGate { by } => Seen::WaitGate(by),
        }
    }

    // What the transaction meets where key 1 is marked at `mark`.
    fn meets(alloc: Global, rs: u64, ffc: u64, mark: u64) -> Result<Seen, AllocError>
        requires rs { rs < 100 }
        requires mark { mark < 100 }
    {
        let map = map(alloc)?;
        let store = store(alloc)?;
        let cache = cache(alloc)?;
        let mut marks = Marks::new(alloc, 2)?;
        marks.raise(KeyId(1), Ts(mark));
        Ok(cert(&store, &cache, &marks, &map, rs, ffc))
    }

    #[test]
    fn certifies(rt: HostRuntime) -> Result<(), Fail> {
        let early = meets(rt.alloc(), 4, 0, 0)?;
        assert_eq!(rt; early, Seen::Conflict(tx(2, 1), KeyId(0)));
        let later = meets(rt.alloc(), 5, 0, 0)?;
        assert_eq!(rt; later, Seen::Conflict(tx(1, 1), KeyId(1)));
        let shut = meets(rt.alloc(), 8, 5, 0)?;
        assert_eq!(rt; shut, Seen::WaitGate(tx(1, 1)));
        let open = meets(rt.alloc(), 8, 4, 0)?;
        assert_eq!(rt; open, Seen::Certified(Ts(9), 1));
        let marked = meets(rt.alloc(), 8, 4, 20)?;
        assert_eq!(rt; marked, Seen::Certified(Ts(21), 1));
        Ok(())
    }
}
