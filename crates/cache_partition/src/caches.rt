//! Local versions in partitions that a node does not host.
ghost use Rattle.std.specs.Prelude.{◌≡◌, ◌<◌, ◌≤◌, ◌+◌, ◌++◌, ◌^◌, [], OnErr, OnOk, length, slice_get};
ghost use Rattle.str_base.specs.Versions.{chain, insert_version, newest, of_pair, visible, without};
ghost use Rattle.version_chain.specs.ChainLists.{Apart, Each, is_among, last_held};
ghost use Rattle.version_chain.specs.Walks.{IsSettled};
ghost use Rattle.cache_partition.specs.CacheLists.{IsCache, IsCached, StaysHere};

use std::alloc::{AllocError, Global};
use std::marker::{Model, Send, Sync};
use str_base::{KeyId, NodeId, PartId, ShortList, Ts, TxId, Version};
use version_chain::{Chains, Walk};

/// The Local versions of a node's own transactions in partitions that it does not host. They are seen as the node, the
/// partitions that it hosts, the versions in order and the number `spare` of those that still have room.
#[derive(Drop)]
pub struct CachePartition {
    node: NodeId,
    hosted: ShortList<PartId, 32>,
    chains: Chains,
}

impl Model for CachePartition {
    ghost use Rattle.version_chain.specs.ChainLists.{Each, IsOrdered};
    ghost use Rattle.cache_partition.specs.CacheLists.{CacheList, IsCached};

    ghost Value = { CacheList };

    ghost view = { λ s. record { node = s.node; hosted = s.hosted; versions = s.chains.versions; spare = s.chains.spare } };

    ghost invariant = { λ s. IsOrdered s.chains.versions × Each (IsCached s.node s.hosted) s.chains.versions };
}

impl CachePartition {
    /// No versions, at this node that hosts these partitions.
    pub fn new(alloc: Global, node: NodeId, hosted: ShortList<PartId, 32>) -> CachePartition
        ensures node { result.node ≡ node }
        ensures hosted { result.hosted ≡ hosted }
        ensures versions { result.versions ≡ [] }
    {
        CachePartition {
            node,
            hosted,
            chains: Chains::new(alloc),
        }
    }

    /// The node.
    pub fn node(&self) -> NodeId
        ensures value { result ≡ self.now.node }
        ensures kept { IsCache self.now }
    {
        self.node
    }

    /// Whether the node hosts a partition.
    pub fn hosts(&self, part: PartId) -> bool
        ensures value { result ≡ is_among self.now.hosted part }
        ensures kept { IsCache self.now }
    {
        for hosted in self.hosted.as_slice() {
            if *hosted == part {
                return true;
            }
        }
        false
    }

    /// Makes room for `n` more versions at least. After an error all is as before.
    pub fn reserve(&mut self, n: usize) -> Result<(), AllocError>
        ensures here { StaysHere self.old self.new }
        ensures versions { self.new.versions ≡ self.old.versions }
        ensures room { OnOk result (n ≤ self.new.spare) }
        ensures kept { self.old.spare ≤ self.new.spare }
        ensures err { OnErr result (self.new ≡ self.old) }
    {
        self.chains.reserve(n)
    }

    /// Puts a version in its place. There is room, the version is Local, of this node, in a partition that is not hosted,
    /// and there is no version of its key by its transaction.
    pub fn insert(&mut self, version: Version)
        requires room { 0 < self.old.spare }
        requires other { Each (Apart version) self.old.versions }
        requires cached { IsCached self.old.node self.old.hosted version }
        ensures here { StaysHere self.old self.new }
        ensures versions { self.new.versions ≡ insert_version version self.old.versions }
        ensures spare { self.old.spare ≤ self.new.spare + 1 }
        ensures kept { IsCache self.old × IsCache self.new }
    {
        self.chains.insert(version);
    }

    /// Takes the versions of a transaction in a partition out.
    pub fn remove(&mut self, tx: TxId, part: PartId)
        ensures here { StaysHere self.old self.new }
        ensures versions { self.new.versions ≡ without (of_pair tx part) self.old.versions }
        ensures spare { self.old.spare ≤ self.new.spare }
        ensures kept { IsCache self.old × IsCache self.new }
    {
        self.chains.remove(tx, part);
    }

    /// The greatest timestamp of a key's versions, 0 where there is none.
    pub fn newest(&self, key: KeyId) -> Ts
        ensures value { result.0 ≡ newest self.now.versions key }
        ensures kept { IsCache self.now }
    {
        self.chains.newest(key)
    }

    /// The last version of a key at or below `rs`.
    pub fn visible(&self, key: KeyId, rs: Ts) -> Option<Version>
        ensures value { result ≡ visible self.now.versions key rs.0 }
        ensures kept { IsCache self.now }
    {
        self.chains.visible(key, rs)
    }

    /// The last Pre version, or with the flag Pre or Local version, of a key at or below `rs`.
    pub fn undecided(&self, key: KeyId, rs: Ts, with_local: bool) -> Option<Version>
        ensures value { result ≡ last_held with_local self.now.versions key rs.0 }
        ensures kept { IsCache self.now }
    {
        self.chains.undecided(key, rs, with_local)
    }

    /// The `i`-th version of a key from 0. It takes `i` steps: a walk is for going through a key.
    pub fn at(&self, key: KeyId, i: usize) -> Option<Version>
        ensures value { result ≡ slice_get (chain key self.now.versions) i }
        ensures limit { length (chain key self.now.versions) < 2 ^ 63 }
        ensures kept { IsCache self.now }
    {
        self.chains.at(key, i)
    }

    /// A walk over the versions of a key, from its newest end.
    pub fn walk_from_newest(&self, key: KeyId) -> Walk<'_>
        ensures older { result.older ≡ chain key self.now.versions }
        ensures newer { result.newer ≡ [] }
        ensures kept { IsCache self.now }
    {
        self.chains.walk_from_newest(key)
    }

    /// A walk over the versions of a key, from a place before which all are Final and not above `rs`.
    pub fn walk_from_unsettled(&self, key: KeyId, rs: Ts) -> Walk<'_>
        ensures all { chain key self.now.versions ≡ result.older ++ result.newer }
        ensures settled { Each (IsSettled rs.0) result.older }
        ensures kept { IsCache self.now }
    {
        self.chains.walk_from_unsettled(key, rs)
    }
}

fn sendable<T: Send + Sync>(_: &T) {}

fn all_sendable(cache: &CachePartition) {
    sendable(cache);
}

#[cfg(test)]
mod tests {
    use super::*;
    use std::test::Fail;
    use str_base::{Kind, Value};

    #[test]
    fn local_versions_elsewhere(rt: HostRuntime) -> Result<(), Fail> {
        let mut hosted = ShortList::new();
        hosted.push(PartId(3));
        let mut cache = CachePartition::new(rt.alloc(), NodeId(1), hosted);
        assert!(rt; cache.hosts(PartId(3)) && !cache.hosts(PartId(1)));
        assert_eq!(rt; cache.node(), NodeId(1));
        cache.reserve(1)?;
        let tx = TxId {
            node: NodeId(1),
            seq: 5,
        };
        cache.insert(Version {
            key: KeyId(7),
            part: PartId(2),
            tx,
            ts: Ts(11),
            value: Value::Absent,
            kind: Kind::Local,
        });
        assert!(rt; cache.undecided(KeyId(7), Ts(11), true).is_some());
        assert!(rt; cache.undecided(KeyId(7), Ts(11), false).is_none());
        assert!(rt; cache.visible(KeyId(7), Ts(10)).is_none());
        assert_eq!(rt; cache.newest(KeyId(7)), Ts(11));
        cache.remove(tx, PartId(2));
        assert!(rt; cache.at(KeyId(7), 0).is_none());
        Ok(())
    }
}
