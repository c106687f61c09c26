//! What a node holds.
ghost use Rattle.std.specs.Prelude.{◌≡◌, ◌≤◌, [], IfOk, OnOk, length, replicate};
ghost use Rattle.cache_partition.specs.CacheLists.{IsCache};
ghost use Rattle.replica_store.specs.StoreLists.{IsStore};
ghost use Rattle.node_parts.specs.Holding.{HasRoom, SameHeld, StandsAt};
ghost use Rattle.str_base.specs.declared.names.PartId.{PartId as Part};
ghost use Rattle.str_scene.specs.Scenes.{hosts};
ghost use Rattle.version_chain.specs.ChainLists.{is_among};

use crate::sites::Site;
use cache_partition::CachePartition;
use last_reader::Marks;
use replica_store::{DoneList, Parked, ReplicaStore};
use std::alloc::{AllocError, Global};
use std::marker::{Send, Sync};
use str_base::{NodeId, PartId, ShortList, Ts};

/// What a node holds: the versions of its partitions and those that it caches, the marks of all keys, its floor, the pairs that were decided, and
/// those who wait.
#[derive(Drop)]
pub struct Held {
    pub store: ReplicaStore,
    pub cache: CachePartition,
    pub marks: Marks,
    pub floor: Ts,
    pub done: DoneList,
    pub parked: Parked,
}

impl Held {
    /// Nothing, at a node of a scene.
    pub fn new(alloc: Global, site: &Site) -> Result<Held, AllocError>
        ensures here { IfOk result (λ h. StandsAt site.now h) }
        ensures versions { IfOk result (λ h. (h.store.versions ≡ []) × (h.cache.versions ≡ [])) }
        ensures marks { IfOk result (λ h. h.marks ≡ replicate (length site.now.scene.keys.names) 0) }
        ensures floor { IfOk result (λ h. h.floor.0 ≡ 0) }
        ensures lists { IfOk result (λ h. (h.done.pairs ≡ []) × (h.parked.waiters ≡ [])) }
    {
        let keys = site.scene().keys().len() as usize;
        let hosted = hosted(site);
        Ok(Held {
            store: ReplicaStore::new(alloc, site.id(), hosted.copy()),
            cache: CachePartition::new(alloc, site.id(), hosted),
            marks: Marks::new(alloc, keys)?,
            floor: Ts(0),
            done: DoneList::new(alloc),
            parked: Parked::new(alloc),
        })
    }

    /// The node.
    pub fn node(&self) -> NodeId
        ensures value { result ≡ self.now.store.node }
        ensures kept { IsStore self.now.store × IsCache self.now.cache }
    {
        let _ = self.cache.node();
        self.store.node()
    }

    /// Makes room for `n` more in each list. All that it holds stays, also after an error.
    pub fn reserve(&mut self, n: usize) -> Result<(), AllocError>
        ensures same { SameHeld self.old self.new }
        ensures room { OnOk result (HasRoom n self.new) }
    {
        self.store.reserve(n)?;
        self.cache.reserve(n)?;
        self.done.reserve(n)?;
        self.parked.reserve(n)
    }
}

/// The partitions that the node hosts.
fn hosted(site: &Site) -> ShortList<PartId, 32>
    ensures { (p : Part) → is_among result p ≡ hosts site.now.scene site.now.node p }
{
    let mut list = ShortList::new();
    for i in 0..site.scene().parts().len() {
        let part = PartId(i as u8 + 1);
        if site.map().hosts(site.id(), part) {
            list.push(part);
        }
    }
    list
}

fn sendable<T: Send + Sync>(_: &T) {}

fn all_sendable(held: &Held) {
    sendable(held);
}
