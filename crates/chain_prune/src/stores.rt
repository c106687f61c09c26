//! The hidden versions of all keys of a store.
ghost use Rattle.std.specs.Prelude.{◌≡◌, ◌≤◌, ◌<◌, ◌+◌, ◌^◌, IfOk, true, length, slice_get};
ghost use Rattle.str_model.specs.Pruning.{pruned_versions};
ghost use Rattle.replica_store.specs.StoreLists.{StaysHere};
ghost use Rattle.version_chain.specs.ChainLists.{Each, is_among};
ghost use Rattle.chain_prune.specs.Hidden.{AgreeBelow, IsKeyBelow, pruned_at};
ghost use Rattle.chain_prune.specs.SeenAlike.{SeenAlike};

use crate::keys::prune_key;
use replica_store::ReplicaStore;
use str_base::{KeyId, Ts};

/// Takes out each version that a later one hides at a mark of the key at a place of the crowd, and gives how many it takes. The key leaves the crowd
/// if it has fewer than two versions then.
fn prune_crowded(store: &mut ReplicaStore, place: usize, below: Ts) -> u64
    ensures here { StaysHere store.old store.new }
    ensures versions { store.new.versions ≡ pruned_at (slice_get store.old.crowd place) below.0 store.old.versions }
    ensures crowd { AgreeBelow place store.new.crowd store.old.crowd }
    ensures count { result + length store.new.versions ≡ length store.old.versions }
    ensures spare { store.old.spare ≤ store.new.spare }
{
    match store.crowd_at(place) {
        Some(key) => {
            let dropped = prune_key(store, key, below);
            store.leave_crowd(place);
            dropped
        }
        None => 0,
    }
}

/// Takes out each version that a later one of its key hides at a mark, and gives how many it takes. Each key of the store is below the number `keys`.
/// What a snapshot at or above the mark sees stays as it was. It looks only at the crowd of the store: a key with fewer than two versions has nothing
/// hidden. It takes no memory.
pub fn prune(store: &mut ReplicaStore, keys: u32, below: Ts) -> u64
    requires { Each (IsKeyBelow keys) store.old.versions }
    ensures here { StaysHere store.old store.new }
    ensures versions { store.new.versions ≡ pruned_versions below.0 store.old.versions }
    ensures seen { SeenAlike below.0 store.old.versions store.new.versions }
    ensures count { length store.old.versions < 2 ^ 64 → result + length store.new.versions ≡ length store.old.versions }
    ensures spare { store.old.spare ≤ store.new.spare }
{
    let _ = keys;
    let mut dropped = 0u64;
    for place in (0..store.crowd_len()).rev() {
        dropped = dropped.saturating_add(prune_crowded(store, place, below));
    }
    dropped
}

#[cfg(test)]
mod tests {
    use super::*;
    use std::alloc::{AllocError, Global};
    use std::test::Fail;
    use str_base::{Kind, NodeId, PartId, ShortList, TxId, Value, Version};

    // Puts a version of one of the first two keys in, by a transaction that is later than those of all others.
    fn put(store: &mut ReplicaStore, key: u32, seq: u32, ts: u64, kind: Kind)
        requires room { 0 < store.old.spare }
        requires hosted { is_among store.old.hosted (record { 0 = 1 }) ≡ true }
        requires key { key < 2 }
        requires keys { Each (IsKeyBelow 2) store.old.versions }
        requires earlier { Each (λ v. v.tx.seq < seq) store.old.versions }
        ensures hosted { store.new.hosted ≡ store.old.hosted }
        ensures spare { store.old.spare ≤ store.new.spare + 1 }
        ensures keys { Each (IsKeyBelow 2) store.new.versions }
        ensures earlier { Each (λ v. v.tx.seq < seq + 1) store.new.versions }
    {
        let tx = TxId {
            node: NodeId(1),
            seq,
        };
        store.insert(Version {
            key: KeyId(key),
            part: PartId(1),
            tx,
            ts: Ts(ts),
            value: Value::Absent,
            kind,
        });
    }

    // Puts a Final version in, prunes, and gives how many versions go.
    fn added(store: &mut ReplicaStore, key: u32, seq: u32, below: u64) -> u64
        requires room { 0 < store.old.spare }
        requires hosted { is_among store.old.hosted (record { 0 = 1 }) ≡ true }
        requires key { key < 2 }
        requires keys { Each (IsKeyBelow 2) store.old.versions }
        requires earlier { Each (λ v. v.tx.seq < seq) store.old.versions }
        ensures hosted { store.new.hosted ≡ store.old.hosted }
        ensures spare { store.old.spare ≤ store.new.spare + 1 }
        ensures keys { Each (IsKeyBelow 2) store.new.versions }
        ensures earlier { Each (λ v. v.tx.seq < seq + 1) store.new.versions }
    {
        put(store, key, seq, 10 * u64::from(seq), Kind::Final);
        prune(store, 2, Ts(below))
    }

    // Three Final versions and a Pre version of one key, and a Final version of another.
    fn store_of_two_keys(alloc: Global) -> Result<ReplicaStore, AllocError>
        ensures { IfOk result (λ s. Each (IsKeyBelow 2) s.versions) }
    {
        let mut hosted = ShortList::new();
        hosted.push(PartId(1));
        let mut store = ReplicaStore::new(alloc, NodeId(1), hosted);
        store.reserve(5)?;
        put(&mut store, 0, 1, 10, Kind::Final);
        put(&mut store, 0, 2, 20, Kind::Final);
        put(&mut store, 0, 3, 25, Kind::Pre);
        put(&mut store, 0, 4, 30, Kind::Final);
        put(&mut store, 1, 5, 10, Kind::Final);
        Ok(store)
    }

    #[test]
    fn what_a_later_one_hides_goes(rt: HostRuntime) -> Result<(), Fail> {
        let cases = [(19, 0, 10), (20, 1, 20), (29, 1, 20), (30, 2, 25)];
        for (below, dropped, oldest) in cases {
            let mut store = store_of_two_keys(rt.alloc())?;
            assert_eq!(rt; prune(&mut store, 2, Ts(below)), dropped);
            let first = store.at(KeyId(0), 0).map(|version| version.ts);
            assert_eq!(rt; first, Some(Ts(oldest)));
            assert_eq!(rt; store.newest(KeyId(0)), Ts(30));
            assert!(rt; store.undecided(KeyId(0), Ts(25), false).is_some());
            assert_eq!(rt; prune_key(&mut store, KeyId(1), Ts(below)), 0);
            assert_eq!(rt; store.newest(KeyId(1)), Ts(10));
        }
        Ok(())
    }

    // The first key joins the crowd, leaves it, comes back, and leaves it again once the mark has risen.
    #[test]
    fn keys_that_join_and_leave_the_crowd(rt: HostRuntime) -> Result<(), Fail> {
        let mut hosted = ShortList::new();
        hosted.push(PartId(1));
        let mut store = ReplicaStore::new(rt.alloc(), NodeId(1), hosted);
        store.reserve(5)?;
        assert_eq!(rt; added(&mut store, 0, 1, 99), 0);
        assert_eq!(rt; added(&mut store, 1, 2, 99), 0);
        assert_eq!(rt; added(&mut store, 0, 3, 99), 1);
        assert_eq!(rt; store.crowd_len(), 0);
        assert_eq!(rt; added(&mut store, 0, 4, 39), 0);
        assert_eq!(rt; store.crowd_len(), 1);
        assert_eq!(rt; added(&mut store, 1, 5, 99), 2);
        assert_eq!(rt; store.crowd_len(), 0);
        assert_eq!(rt; store.newest(KeyId(0)), Ts(40));
        assert_eq!(rt; store.newest(KeyId(1)), Ts(50));
        Ok(())
    }
}
