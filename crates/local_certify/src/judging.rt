//! How a transaction meets the versions of the keys that it wrote.
ghost use Rattle.std.specs.Prelude.{◌≡◌, ◌++◌, ◌<◌, ◌≤◌, IfOk, Some, length, slice_get, true, ℕ};
ghost use Rattle.local_certify.specs.Judging.{join_one, judged, judged_all};
ghost use Rattle.partition_map.specs.Maps.{HasKey};
ghost use Rattle.snapshot_read.specs.Shown.{AreNamed, AreTold, OthersNamed, of_key, held};
ghost use Rattle.str_base.specs.declared.names.Write.{Write as AWrite};
ghost use Rattle.str_base.specs.Versions.{chain, is_local};
ghost use Rattle.str_model.specs.Turns.{conflicts};
ghost use Rattle.version_chain.specs.ChainLists.{Each};
ghost use Rattle.version_chain.specs.Walks.{IsSettled};

use cache_partition::CachePartition;
use dependency_set::{OwnSnap, Snap};
use partition_map::PartitionMap;
use replica_store::ReplicaStore;
use snapshot_read::take_over;
use str_base::{KeyId, Kind, NodeId, Ts, Version, Write};
use version_chain::Walk;

/// Whether a version is a conflict at this snapshot: it is Pre or above it.
fn conflicts(version: &Version, rs: Ts) -> bool
    ensures { result ≡ conflicts rs.0 version.now }
{
    version.kind == Kind::Pre || rs < version.ts
}

/// A walk over the versions of a key, in the store that holds it, from a place before which all are Final and not above `rs`.
fn unsettled<'a>(
    store: &'a ReplicaStore,
    cache: &'a CachePartition,
    is_hosted: bool,
    key: KeyId,
    rs: Ts,
) -> Walk<'a>
    ensures all { chain key (of_key is_hosted store.now.versions cache.now.versions) ≡ result.older ++ result.newer }
    ensures settled { Each (IsSettled rs.0) result.older }
{
    if is_hosted {
        store.walk_from_unsettled(key, rs)
    } else {
        cache.walk_from_unsettled(key, rs)
    }
}

/// The snapshot with what it takes over from a version: a Local one is taken over.
fn join_one(own: &[OwnSnap], version: &Version, snap: Snap) -> Snap
    requires few { length own.now ≤ 15 }
    requires deps { AreNamed own.now snap.deps }
    requires others { is_local version.now.kind ≡ true → OthersNamed own.now version.now.tx.seq }
    ensures value { result ≡ join_one own.now version.now version.now.kind snap }
    ensures kept { AreNamed own.now result.deps }
{
    match version.kind {
        Kind::Local => take_over(own, version.tx.seq, &snap),
        _ => snap,
    }
}

/// The snapshot with what it takes over from all versions of a key, or the first conflict among them.
fn judge_key(
    rs: Ts,
    snap: Snap,
    own: &[OwnSnap],
    store: &ReplicaStore,
    cache: &CachePartition,
    is_hosted: bool,
    key: KeyId,
) -> Result<Snap, Version>
    requires few { length own.now ≤ 15 }
    requires deps { AreNamed own.now snap.deps }
    requires told { AreTold own.now rs.0 store.now.versions cache.now.versions }
    ensures value { result ≡ judged own.now rs.0 (chain key (of_key is_hosted store.now.versions cache.now.versions)) snap }
    ensures kept { IfOk result (λ s. AreNamed own.now s.deps) }
{
    let mut joined = snap;
    let mut walk = unsettled(store, cache, is_hosted, key, rs);
    while let Some(version) = walk.newer() {
        if conflicts(&version, rs) {
            return Err(version);
        }
        joined = join_one(own, &version, joined);
    }
    Ok(joined)
}

/// The snapshot with what it takes over from all versions of the written keys, or the first conflict among them in order of
/// first write.
pub fn judge_all(
    node: NodeId,
    snap: &Snap,
    writes: &[Write],
    own: &[OwnSnap],
    store: &ReplicaStore,
    cache: &CachePartition,
    map: &PartitionMap,
) -> Result<Snap, Version>
    requires keys { (i : ℕ) (w : AWrite) → slice_get writes.now i ≡ Some w → HasKey map.now w.key }
    requires few { length own.now ≤ 15 }
    requires deps { AreNamed own.now snap.now.deps }
    requires told { AreTold own.now snap.now.rs store.now.versions cache.now.versions }
    ensures { result ≡ judged_all own.now snap.now.rs (held map.now node store.now.versions cache.now.versions) writes.now snap.now }
{
    let rs = snap.rs();
    let mut joined = snap.copy();
    for write in writes {
        let is_hosted = map.hosts(node, map.part_of(write.key));
        joined = judge_key(rs, joined, own, store, cache, is_hosted, write.key)?;
    }
    Ok(joined)
}
