//! The commit of what an own transaction wrote, and the places of what it is certified with.
ghost use Rattle.cache_partition.specs.CacheLists.{StaysHere as CacheStays};
ghost use Rattle.cascade_abort.specs.Removal.{AllWritten};
ghost use Rattle.node_parts.specs.Holding.{HoldsWrites, LieApart, joined, own_version, with_own};
ghost use Rattle.partition_map.specs.Maps.{HasKey};
ghost use Rattle.replica_store.specs.StoreLists.{StaysHere as StoreStays};
ghost use Rattle.snapshot_read.specs.Shown.{StandAt};
ghost use Rattle.std.specs.Prelude.{◌≡◌, ◌<◌, ◌≤◌, ◌+◌, ℕ, Some, false, if◌then◌else◌, length, slice_get, true};
ghost use Rattle.str_base.specs.declared.names.Write.{Write as AWrite};
ghost use Rattle.str_base.specs.Versions.{finalise, insert_version, is_local, of_pair, of_tx, without};
ghost use Rattle.str_model.specs.Acts.{decided_versions};
ghost use Rattle.str_model.specs.NodeFacts.{AreDistinct};
ghost use Rattle.str_model.specs.Views.{name_of};
ghost use Rattle.str_scene.specs.Scenes.{map_of};
ghost use Rattle.version_chain.specs.ChainLists.{Apart, Each, is_among};

use crate::sites::Site;
use cache_partition::CachePartition;
use replica_store::ReplicaStore;
use str_base::{Kind, PartId, Ts, TxId, Version, Write, Writes};

/// Commits what an own transaction wrote: its versions in hosted partitions become Final at `fc`, and those in the cache are taken out. Each
/// version lies in the partition of one of its writes. It takes no memory.
pub fn commit_all(
    site: &Site,
    tx: TxId,
    writes: &Writes,
    fc: Ts,
    store: &mut ReplicaStore,
    cache: &mut CachePartition,
)
    requires keys { (i : ℕ) (w : AWrite) → slice_get writes.now i ≡ Some w → HasKey (map_of site.now.scene) w.key }
    requires here { StandAt site.now.node (map_of site.now.scene) store.old cache.old }
    requires stored { AllWritten (map_of site.now.scene) writes.now tx store.old.versions }
    requires cached { AllWritten (map_of site.now.scene) writes.now tx cache.old.versions }
    ensures cache { cache.new.versions ≡ without (of_tx tx) cache.old.versions }
    ensures store { store.new.versions ≡ decided_versions site.now tx fc.0 store.old.versions }
    ensures merged { LieApart store.old cache.old → joined store.new cache.new ≡ decided_versions site.now tx fc.0 (joined store.old cache.old) }
    ensures store_here { StoreStays store.old store.new }
    ensures cache_here { CacheStays cache.old cache.new }
    ensures store_spare { store.old.spare ≤ store.new.spare }
    ensures cache_spare { cache.old.spare ≤ cache.new.spare }
{
    let _ = store.node();
    let _ = cache.node();
    for write in writes.as_slice() {
        commit_part(tx, site.map().part_of(write.key), fc, store, cache);
    }
}

/// Commits what a transaction wrote in a partition.
fn commit_part(tx: TxId, part: PartId, fc: Ts, store: &mut ReplicaStore, cache: &mut CachePartition)
    ensures store { store.new.versions ≡ (if is_among store.old.hosted part then finalise (of_pair tx part) fc.0 store.old.versions else store.old.versions) }
    ensures cache { cache.new.versions ≡ (if is_among store.old.hosted part then cache.old.versions else without (of_pair tx part) cache.old.versions) }
    ensures store_here { StoreStays store.old store.new }
    ensures cache_here { CacheStays cache.old cache.new }
    ensures store_spare { store.old.spare ≤ store.new.spare }
    ensures cache_spare { cache.old.spare ≤ cache.new.spare }
{
    if store.hosts(part) {
        store.finalise(tx, part, fc);
    } else {
        cache.remove(tx, part);
    }
}

/// Puts what an own transaction wrote in its place as Local versions at `lc`, in the store where its partition is hosted, else in the cache. There
/// is room for all in each, and no version of the transaction.
pub fn insert_all(
    site: &Site,
    tx: TxId,
    writes: &Writes,
    lc: Ts,
    store: &mut ReplicaStore,
    cache: &mut CachePartition,
)
    requires tx { tx.node ≡ site.now.node }
    requires keys { (i : ℕ) (w : AWrite) → slice_get writes.now i ≡ Some w → HasKey (map_of site.now.scene) w.key }
    requires distinct { AreDistinct writes.now }
    requires here { StandAt site.now.node (map_of site.now.scene) store.old cache.old }
    requires stored { Each (λ v. of_tx tx v ≡ false) store.old.versions }
    requires cached { Each (λ v. of_tx tx v ≡ false) cache.old.versions }
    requires store_room { length writes.now ≤ store.old.spare }
    requires cache_room { length writes.now ≤ cache.old.spare }
    ensures merged { HoldsWrites site.now tx lc.0 writes.now store.old cache.old store.new cache.new }
    ensures store_here { StoreStays store.old store.new }
    ensures cache_here { CacheStays cache.old cache.new }
    ensures store_spare { store.old.spare ≤ store.new.spare + length writes.now }
    ensures cache_spare { cache.old.spare ≤ cache.new.spare + length writes.now }
{
    for write in writes.as_slice() {
        insert_own(local_version(site, tx, lc, *write), store, cache);
    }
}

/// Puts a Local version in its place, in the store where its partition is hosted, else in the cache.
fn insert_own(version: Version, store: &mut ReplicaStore, cache: &mut CachePartition)
    requires local { is_local version.kind ≡ true }
    requires tx { version.tx.node ≡ cache.old.node }
    requires hosted { is_among cache.old.hosted version.part ≡ is_among store.old.hosted version.part }
    requires stored { Each (Apart version) store.old.versions }
    requires cached { Each (Apart version) cache.old.versions }
    requires store_room { 0 < store.old.spare }
    requires cache_room { 0 < cache.old.spare }
    ensures store { store.new.versions ≡ (if is_among store.old.hosted version.part then insert_version version store.old.versions else store.old.versions) }
    ensures cache { cache.new.versions ≡ (if is_among store.old.hosted version.part then cache.old.versions else insert_version version cache.old.versions) }
    ensures store_here { StoreStays store.old store.new }
    ensures cache_here { CacheStays cache.old cache.new }
    ensures store_spare { store.old.spare ≤ store.new.spare + 1 }
    ensures cache_spare { cache.old.spare ≤ cache.new.spare + 1 }
{
    if store.hosts(version.part) {
        store.insert(version);
    } else {
        cache.insert(version);
    }
}

/// The Local version that a write becomes.
fn local_version(site: &Site, tx: TxId, lc: Ts, write: Write) -> Version
    requires { HasKey (map_of site.now.scene) write.key }
    ensures { result ≡ own_version site.now tx lc write }
{
    Version {
        key: write.key,
        part: site.map().part_of(write.key),
        tx,
        ts: lc,
        value: write.value,
        kind: Kind::Local,
    }
}
