//! The hidden versions of one key.
ghost use Rattle.std.specs.Prelude.{◌≡◌, ◌≤◌, ◌<◌, ◌+◌, ◌^◌, length, not};
ghost use Rattle.str_base.specs.Versions.{chain, is_undecided};
ghost use Rattle.replica_store.specs.StoreLists.{IsStore, StaysHere};
ghost use Rattle.chain_prune.specs.Hidden.{first_hidden, pruned_key};

use replica_store::ReplicaStore;
use str_base::{KeyId, Kind, Ts, Version};

/// Whether a kind is Final.
fn is_final(kind: Kind) -> bool
    ensures { result ≡ not (is_undecided kind) }
{
    match kind {
        Kind::Final => true,
        Kind::Pre | Kind::Local => false,
    }
}

/// The oldest version of a key that a later one hides at a mark, None where none is hidden. It looks at the versions at or below the mark alone.
fn oldest_hidden(store: &ReplicaStore, key: KeyId, below: Ts) -> Option<Version>
    ensures value { result ≡ first_hidden below.0 (chain key store.now.versions) }
    ensures limit { length (chain key store.now.versions) < 2 ^ 63 }
    ensures kept { IsStore store.now }
{
    let mut oldest = None;
    let mut place = 0;
    'versions: while let Some(version) = store.at(key, place) {
        if version.ts > below {
            return None;
        }
        if is_final(version.kind) {
            if oldest.is_some() {
                return oldest;
            }
            oldest = Some(version);
        }
        place += 1;
    }
    None
}

/// Takes out each version of a key that a later one hides at a mark, and gives how many it takes: of the Final versions at or below the mark all but
/// the last go. It looks at the versions at or below the mark alone, and takes no memory.
pub fn prune_key(store: &mut ReplicaStore, key: KeyId, below: Ts) -> u64
    ensures here { StaysHere store.old store.new }
    ensures versions { store.new.versions ≡ pruned_key key below.0 store.old.versions }
    ensures crowd { store.new.crowd ≡ store.old.crowd }
    ensures count { result + length store.new.versions ≡ length store.old.versions }
    ensures spare { store.old.spare ≤ store.new.spare }
    ensures kept { IsStore store.old × IsStore store.new }
{
    let mut dropped = 0;
    let mut hidden = oldest_hidden(store, key, below);
    'hidden: while let Some(version) = hidden {
        store.drop_version(key, version.tx);
        dropped += 1;
        hidden = oldest_hidden(store, key, below);
    }
    dropped
}
