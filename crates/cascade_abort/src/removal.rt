//! The removal of what an aborted transaction wrote.
ghost use Rattle.cache_partition.specs.CacheLists.{IsCache, StaysHere as CacheStays};
ghost use Rattle.cascade_abort.specs.Removal.{AllWritten, IsOutOfBoth};
ghost use Rattle.partition_map.specs.Maps.{HasKey, is_written, part_of};
ghost use Rattle.replica_store.specs.StoreLists.{IsStore, ListsApart, StaysHere as StoreStays};
ghost use Rattle.std.specs.Prelude.{◌≡◌, ◌≤◌, ◌∷◌, [], ℕ, Some, slice_get};
ghost use Rattle.str_base.specs.declared.names.PartId.{PartId as Part};
ghost use Rattle.str_base.specs.declared.names.Write.{Write as AWrite};
ghost use Rattle.str_base.specs.Versions.{of_pair, of_tx, without};
ghost use Rattle.version_chain.specs.ChainLists.{is_among};

use cache_partition::CachePartition;
use partition_map::PartitionMap;
use replica_store::ReplicaStore;
use str_base::{PartId, ShortList, TxId, Writes};

/// Takes all versions of a transaction out of a node's store and cache. Each lies in the partition of one of its writes.
pub fn drop_all(
    tx: TxId,
    writes: &Writes,
    map: &PartitionMap,
    store: &mut ReplicaStore,
    cache: &mut CachePartition,
)
    requires keys { (i : ℕ) (w : AWrite) → slice_get writes.now i ≡ Some w → HasKey map.now w.key }
    requires stored { AllWritten map.now writes.now tx store.old.versions }
    requires cached { AllWritten map.now writes.now tx cache.old.versions }
    ensures store { store.new.versions ≡ without (of_tx tx) store.old.versions }
    ensures cache { cache.new.versions ≡ without (of_tx tx) cache.old.versions }
    ensures merged { IsCache cache.old → IsStore store.old → ListsApart cache.old.versions store.old.versions → IsOutOfBoth tx cache.old store.old cache.new store.new }
    ensures store_here { StoreStays store.old store.new }
    ensures cache_here { CacheStays cache.old cache.new }
    ensures store_spare { store.old.spare ≤ store.new.spare }
    ensures cache_spare { cache.old.spare ≤ cache.new.spare }
{
    for part in written(writes, map).as_slice() {
        drop_stored(tx, *part, store);
        drop_cached(tx, *part, cache);
    }
}

/// The partitions of the written keys, each once.
fn written(writes: &Writes, map: &PartitionMap) -> ShortList<PartId, 16>
    requires { (i : ℕ) (w : AWrite) → slice_get writes.now i ≡ Some w → HasKey map.now w.key }
    ensures { (p : Part) → is_among result p ≡ is_written (part_of map.now) writes.now p }
{
    let mut parts: ShortList<PartId, 16> = ShortList::new();
    for write in writes.as_slice() {
        let part = map.part_of(write.key);
        if !is_among(&parts, part) {
            parts.push(part);
        }
    }
    parts
}

/// Whether a partition is one of these.
fn is_among(parts: &ShortList<PartId, 16>, part: PartId) -> bool
    ensures { result ≡ is_among parts.now part }
{
    for other in parts.as_slice() {
        if *other == part {
            return true;
        }
    }
    false
}

/// Takes the versions of a transaction in a partition out of a store.
fn drop_stored(tx: TxId, part: PartId, store: &mut ReplicaStore)
    ensures here { StoreStays store.old store.new }
    ensures versions { store.new.versions ≡ without (of_pair tx part) store.old.versions }
    ensures spare { store.old.spare ≤ store.new.spare }
{
    if !store.hosts(part) {
        return;
    }
    store.remove(tx, part);
}

/// Takes the versions of a transaction in a partition out of a cache.
fn drop_cached(tx: TxId, part: PartId, cache: &mut CachePartition)
    ensures here { CacheStays cache.old cache.new }
    ensures versions { cache.new.versions ≡ without (of_pair tx part) cache.old.versions }
    ensures spare { cache.old.spare ≤ cache.new.spare }
{
    if cache.hosts(part) {
        return;
    }
    cache.remove(tx, part);
}

#[cfg(test)]
mod tests {
    use super::*;
    use partition_map::PartRow;
    use std::test::Fail;
    use str_base::{KeyId, Kind, NodeId, Ts, Value, Version, Write};

    fn row(node: u8) -> PartRow
        ensures { result ≡ record { 0 = node } ∷ [] }
    {
        let mut row = PartRow::new();
        row.push(NodeId(node));
        row
    }

    fn writes(first: u32, second: u32) -> Writes
        ensures { result ≡ record { key = record { 0 = first }; value = Value.Absent } ∷ record { key = record { 0 = second }; value = Value.Absent } ∷ [] }
    {
        let value = Value::Absent;
        let mut writes = Writes::new();
        writes.push(Write {
            key: KeyId(first),
            value,
        });
        writes.push(Write {
            key: KeyId(second),
            value,
        });
        writes
    }

    // Node 1 hosts partition 1, which has key 0, and caches partition 2, which has key 1. Another transaction wrote key 0 too.
    #[test]
    fn takes_out_what_was_written(rt: HostRuntime) -> Result<(), Fail> {
        let rows = Vec::from_array(rt.alloc(), [row(1), row(2)])?;
        let keys = Vec::from_array(rt.alloc(), [PartId(1), PartId(2)])?;
        let map = PartitionMap::new(rt.alloc(), &rows, &keys)?;
        let mut hosted = ShortList::new();
        hosted.push(PartId(1));
        let mut store = ReplicaStore::new(rt.alloc(), NodeId(1), hosted.copy());
        let mut cache = CachePartition::new(rt.alloc(), NodeId(1), hosted);
        store.reserve(2)?;
        cache.reserve(1)?;
        let tx = TxId {
            node: NodeId(1),
            seq: 5,
        };
        let version = Version {
            key: KeyId(0),
            part: PartId(1),
            tx,
            ts: Ts(11),
            value: Value::Absent,
            kind: Kind::Local,
        };
        let other = TxId { seq: 6, ..tx };
        store.insert(version);
        store.insert(Version {
            tx: other,
            ..version
        });
        cache.insert(Version {
            key: KeyId(1),
            part: PartId(2),
            ..version
        });
        drop_all(tx, &writes(1, 0), &map, &mut store, &mut cache);
        let kept = store.at(KeyId(0), 0).map(|version| version.tx);
        assert_eq!(rt; kept, Some(other));
        assert!(rt; store.at(KeyId(0), 1).is_none());
        assert!(rt; cache.at(KeyId(1), 0).is_none());
        Ok(())
    }
}
