//! The versions of the partitions that a node hosts.
ghost use Rattle.std.specs.Prelude.{◌≡◌, ◌<◌, ◌≤◌, ◌+◌, ◌++◌, ◌^◌, [], OnErr, OnOk, true, length, option_map, slice_get, IfSome};
ghost use Rattle.std.specs.List.{list_any};
ghost use Rattle.indexmap.specs.IndexSet.{spare};
ghost use Rattle.str_base.specs.Versions.{chain, finalise, insert_version, newest, of_pair, visible, without};
ghost use Rattle.version_chain.specs.ChainLists.{Apart, Each, is_among, last_held, of_write};
ghost use Rattle.version_chain.specs.Walks.{IsSettled};
ghost use Rattle.replica_store.specs.Crowds.{NotesAll, NotesCrowds, is_crowded, is_noted, left_by};
ghost use Rattle.replica_store.specs.StoreLists.{IsStore, LiesIn, StaysHere};

use indexmap::IndexSet;
use std::alloc::{AllocError, Global};
use std::marker::{Model, Send, Sync};
use str_base::{KeyId, NodeId, PartId, ShortList, Ts, TxId, Version};
use version_chain::{Chains, Walk};

/// The versions of the partitions that a node hosts. They are seen as the node, its partitions, the versions in order, the crowd and the number
/// `spare` of the versions that still have room. The crowd is a list of numbers of keys: each key with two versions or more is in it, and there may be
/// others, which had so many once.
#[derive(Drop)]
pub struct ReplicaStore {
    node: NodeId,
    hosted: ShortList<PartId, 32>,
    chains: Chains,
    crowd: IndexSet<u32>,
    spare: usize,
}

impl Model for ReplicaStore {
    ghost use Rattle.indexmap.specs.IndexSet.{spare as places_left};
    ghost use Rattle.replica_store.specs.Crowds.{AreKept};
    ghost use Rattle.replica_store.specs.StoreLists.{StoreList};

    ghost Value = { StoreList };

    ghost view = { λ s. record { node = s.node; hosted = s.hosted; versions = s.chains.versions; crowd = s.crowd.keys; spare = s.spare } };

    ghost invariant = { λ s. AreKept s.hosted s.chains s.crowd.keys s.spare (places_left s.crowd) };
}

/// Whether a key has two versions or more.
fn has_two(chains: &Chains, key: KeyId) -> bool
    ensures { result ≡ is_crowded chains.now.versions key }
{
    let mut walk = chains.walk_from_newest(key);
    walk.older().is_some() && walk.older().is_some()
}

/// Puts a key into a crowd, if it has two versions or more. There is room.
fn note(crowd: &mut IndexSet<u32>, chains: &Chains, key: KeyId)
    requires { 0 < spare crowd.old }
    ensures all { NotesAll crowd.old.keys crowd.new.keys }
    ensures key { is_crowded chains.now.versions key ≡ true → is_noted crowd.new.keys key ≡ true }
    ensures spare { spare crowd.old ≤ spare crowd.new + 1 }
{
    if has_two(chains, key) {
        match crowd.insert(key.0) {
            Ok(_) => {}
            Err(_) => unreachable!(),
        }
    }
}

impl ReplicaStore {
    /// No versions, at this node with these partitions.
    pub fn new(alloc: Global, node: NodeId, hosted: ShortList<PartId, 32>) -> ReplicaStore
        ensures node { result.node ≡ node }
        ensures hosted { result.hosted ≡ hosted }
        ensures versions { result.versions ≡ [] }
    {
        ReplicaStore {
            node,
            hosted,
            chains: Chains::new(alloc),
            crowd: IndexSet::new(alloc),
            spare: 0,
        }
    }

    /// The node.
    pub fn node(&self) -> NodeId
        ensures value { result ≡ self.now.node }
        ensures kept { IsStore self.now }
    {
        self.node
    }

    /// Whether the node hosts a partition.
    pub fn hosts(&self, part: PartId) -> bool
        ensures value { result ≡ is_among self.now.hosted part }
        ensures kept { IsStore self.now }
    {
        for hosted in self.hosted.as_slice() {
            if *hosted == part {
                return true;
            }
        }
        false
    }

    /// Makes room for `n` more versions at least. After an error all is as before.
    pub fn reserve(&mut self, n: usize) -> Result<(), AllocError>
        ensures here { StaysHere self.old self.new }
        ensures versions { self.new.versions ≡ self.old.versions }
        ensures room { OnOk result (n ≤ self.new.spare) }
        ensures kept { self.old.spare ≤ self.new.spare }
        ensures err { OnErr result (self.new ≡ self.old) }
    {
        if self.spare < n {
            self.chains.reserve(n)?;
            self.crowd.reserve(n)?;
            self.spare = n;
        }
        Ok(())
    }

    /// Puts a version in its place. There is room, its partition is hosted, and there is no version of its key by its
    /// transaction.
    pub fn insert(&mut self, version: Version)
        requires room { 0 < self.old.spare }
        requires other { Each (Apart version) self.old.versions }
        requires hosted { LiesIn self.old.hosted version }
        ensures here { StaysHere self.old self.new }
        ensures versions { self.new.versions ≡ insert_version version self.old.versions }
        ensures spare { self.old.spare ≤ self.new.spare + 1 }
        ensures kept { IsStore self.old × IsStore self.new }
    {
        self.chains.insert(version);
        self.spare -= 1;
        note(&mut self.crowd, &self.chains, version.key);
    }

    /// Makes each version of a transaction in a partition Final at `fc`. It takes no memory.
    pub fn finalise(&mut self, tx: TxId, part: PartId, fc: Ts)
        ensures here { StaysHere self.old self.new }
        ensures versions { self.new.versions ≡ finalise (of_pair tx part) fc.0 self.old.versions }
        ensures spare { self.old.spare ≤ self.new.spare }
        ensures kept { IsStore self.old × IsStore self.new }
    {
        self.chains.finalise(tx, part, fc);
    }

    /// Takes the versions of a transaction in a partition out.
    pub fn remove(&mut self, tx: TxId, part: PartId)
        ensures here { StaysHere self.old self.new }
        ensures versions { self.new.versions ≡ without (of_pair tx part) self.old.versions }
        ensures spare { self.old.spare ≤ self.new.spare }
        ensures kept { IsStore self.old × IsStore self.new }
    {
        self.chains.remove(tx, part);
    }

    /// Takes the version of a key by a transaction out, if there is one.
    pub fn drop_version(&mut self, key: KeyId, tx: TxId)
        ensures here { StaysHere self.old self.new }
        ensures versions { self.new.versions ≡ without (of_write key tx) self.old.versions }
        ensures crowd { self.new.crowd ≡ self.old.crowd }
        ensures spare { self.old.spare ≤ self.new.spare }
        ensures kept { IsStore self.old × IsStore self.new }
    {
        self.chains.drop_version(key, tx);
    }

    /// How many keys are in the crowd. Each key with two versions or more is in it.
    pub fn crowd_len(&self) -> usize
        ensures value { result ≡ length self.now.crowd }
        ensures noted { NotesCrowds self.now.crowd self.now.versions }
        ensures kept { IsStore self.now }
    {
        self.crowd.len()
    }

    /// The key at a place of the crowd, from 0.
    pub fn crowd_at(&self, place: usize) -> Option<KeyId>
        ensures { option_map (λ k. k.0) result ≡ slice_get self.now.crowd place }
    {
        match self.crowd.get_index(place) {
            Some(number) => Some(KeyId(*number)),
            None => None,
        }
    }

    /// Lets the key at a place leave the crowd, unless it has two versions or more. The last key of the crowd takes its place.
    pub fn leave_crowd(&mut self, place: usize)
        ensures here { StaysHere self.old self.new }
        ensures versions { self.new.versions ≡ self.old.versions }
        ensures crowd { self.new.crowd ≡ left_by self.old.versions self.old.crowd place (slice_get self.old.crowd place) }
        ensures spare { self.old.spare ≤ self.new.spare }
    {
        if let Some(key) = self.crowd_at(place) {
            if !has_two(&self.chains, key) {
                self.crowd.swap_remove_index(place);
            }
        }
    }

    /// Whether there is a version of a transaction in a partition.
    pub fn has(&self, tx: TxId, part: PartId) -> bool
        ensures value { result ≡ list_any (of_pair tx part) self.now.versions }
        ensures kept { IsStore self.now }
    {
        self.chains.has(tx, part)
    }

    /// The greatest timestamp of a key's versions, 0 where there is none.
    pub fn newest(&self, key: KeyId) -> Ts
        ensures value { result.0 ≡ newest self.now.versions key }
        ensures kept { IsStore self.now }
    {
        self.chains.newest(key)
    }

    /// The last version of a key at or below `rs`.
    pub fn visible(&self, key: KeyId, rs: Ts) -> Option<Version>
        ensures value { result ≡ visible self.now.versions key rs.0 }
        ensures kept { IsStore self.now }
    {
        self.chains.visible(key, rs)
    }

    /// The last Pre version, or with the flag Pre or Local version, of a key at or below `rs`.
    pub fn undecided(&self, key: KeyId, rs: Ts, with_local: bool) -> Option<Version>
        ensures value { result ≡ last_held with_local self.now.versions key rs.0 }
        ensures kept { IsStore self.now }
    {
        self.chains.undecided(key, rs, with_local)
    }

    /// The `i`-th version of a key from 0. It takes `i` steps: a walk is for going through a key.
    pub fn at(&self, key: KeyId, i: usize) -> Option<Version>
        ensures value { result ≡ slice_get (chain key self.now.versions) i }
        ensures limit { length (chain key self.now.versions) < 2 ^ 63 }
        ensures place { IfSome result (λ v. i < 2 ^ 63) }
        ensures kept { IsStore self.now }
    {
        self.chains.at(key, i)
    }

    /// A walk over the versions of a key, from its newest end.
    pub fn walk_from_newest(&self, key: KeyId) -> Walk<'_>
        ensures older { result.older ≡ chain key self.now.versions }
        ensures newer { result.newer ≡ [] }
        ensures kept { IsStore self.now }
    {
        self.chains.walk_from_newest(key)
    }

    /// A walk over the versions of a key, from a place before which all are Final and not above `rs`.
    pub fn walk_from_unsettled(&self, key: KeyId, rs: Ts) -> Walk<'_>
        ensures all { chain key self.now.versions ≡ result.older ++ result.newer }
        ensures settled { Each (IsSettled rs.0) result.older }
        ensures kept { IsStore self.now }
    {
        self.chains.walk_from_unsettled(key, rs)
    }
}

fn sendable<T: Send + Sync>(_: &T) {}

fn all_sendable(store: &ReplicaStore) {
    sendable(store);
}

#[cfg(test)]
mod tests {
    use super::*;
    use std::test::Fail;
    use str_base::{Kind, Value};

    #[test]
    fn versions_of_hosted_partitions(rt: HostRuntime) -> Result<(), Fail> {
        let mut hosted = ShortList::new();
        hosted.push(PartId(3));
        let mut store = ReplicaStore::new(rt.alloc(), NodeId(1), hosted);
        assert!(rt; store.hosts(PartId(3)) && !store.hosts(PartId(1)));
        assert_eq!(rt; store.node(), NodeId(1));
        store.reserve(1)?;
        let tx = TxId {
            node: NodeId(2),
            seq: 5,
        };
        let version = Version {
            key: KeyId(7),
            part: PartId(3),
            tx,
            ts: Ts(11),
            value: Value::Absent,
            kind: Kind::Pre,
        };
        store.insert(version);
        assert!(rt; store.has(tx, PartId(3)) && !store.has(tx, PartId(2)));
        assert!(rt; store.undecided(KeyId(7), Ts(11), false).is_some());
        store.finalise(tx, PartId(3), Ts(13));
        assert!(rt; store.undecided(KeyId(7), Ts(20), true).is_none());
        assert!(rt; store.visible(KeyId(7), Ts(12)).is_none());
        assert_eq!(rt; store.newest(KeyId(7)), Ts(13));
        store.drop_version(KeyId(8), tx);
        assert_eq!(rt; store.newest(KeyId(7)), Ts(13));
        store.drop_version(KeyId(7), tx);
        assert!(rt; store.at(KeyId(7), 0).is_none());
        store.reserve(1)?;
        store.insert(version);
        store.remove(tx, PartId(3));
        assert!(rt; store.at(KeyId(7), 0).is_none());
        Ok(())
    }
}
