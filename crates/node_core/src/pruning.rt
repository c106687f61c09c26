//! The low mark of a node, the old versions that it takes out, and how many versions it has.
ghost use Rattle.node_core.specs.Working.{Did, HasFacts};
ghost use Rattle.std.specs.Prelude.{◌≡◌, ◌<◌, ◌+◌, ◌-◌, ◌^◌, length, min};
ghost use Rattle.str_model.specs.Pruning.{low, pruned};

use crate::nodes::Node;
use crate::work::Work;
use chain_prune::prune;
use str_base::{KeyId, Ts};
use version_chain::Walk;

impl Work {
    /// The low mark: the least of the floor and the snapshots of the own transactions that are undecided.
    pub(crate) fn low(&self) -> Ts
        ensures { result.0 ≡ low self.now.doing.view }
    {
        let mut low = self.floor();
        let places = self.undecided();
        for place in places.as_slice() {
            let rs = self.rs(*place as usize);
            low = Ts(low.0.min(rs.0));
        }
        low
    }

    /// Takes out each version that a later one of its key hides at a mark, and gives how many it takes.
    pub(crate) fn prune(&mut self, below: Ts) -> u64
        requires { HasFacts self.old }
        ensures did { Did (record self.old.doing { view = pruned below.0 self.old.doing.view }) self.old self.new }
        ensures count { length self.old.doing.view.versions < 2 ^ 64 → result + length self.new.doing.view.versions ≡ length self.old.doing.view.versions }
    {
        let _ = self.held.node();
        let keys = self.site.scene().keys().len();
        prune(&mut self.held.store, keys, below)
    }

    /// How many versions the node has; the greatest `u64` where there are more.
    pub(crate) fn versions(&self) -> u64
        requires { HasFacts self.now }
        ensures { result ≡ min (length self.now.doing.view.versions) (2 ^ 64 - 1) }
    {
        let _ = self.held.node();
        let mut count = 0;
        for key in 0..self.site.scene().keys().len() {
            count = counted(self.held.store.walk_from_newest(KeyId(key)), count);
            count = counted(self.held.cache.walk_from_newest(KeyId(key)), count);
        }
        count
    }
}

/// A number, and as many more as a walk has before it; the greatest `u64` where that is more.
fn counted(mut walk: Walk<'_>, before: u64) -> u64
    ensures { result ≡ min (before + length walk.entry.older) (2 ^ 64 - 1) }
{
    let mut count = before;
    'versions: while let Some(_) = walk.older() {
        count = count.saturating_add(1);
    }
    count
}

impl Node {
    /// The low mark: the least of the floor and the snapshots of the own transactions that are undecided. No later transaction of the node has a
    /// snapshot below it.
    pub fn low(&self) -> Ts
        ensures { result.0 ≡ low self.now.view }
    {
        self.work.low()
    }

    /// Takes out each version that a later one of its key hides at a mark, and gives how many it takes. It takes no memory.
    pub fn prune(&mut self, below: Ts) -> u64
        ensures scene { self.new.scene ≡ self.old.scene }
        ensures id { self.new.id ≡ self.old.id }
        ensures view { self.new.view ≡ pruned below.0 self.old.view }
        ensures room { self.new.room ≡ self.old.room }
        ensures count { length self.old.view.versions < 2 ^ 64 → result + length self.new.view.versions ≡ length self.old.view.versions }
    {
        self.work.prune(below)
    }

    /// How many versions the node has; the greatest `u64` where there are more.
    pub fn versions(&self) -> u64
        ensures { result ≡ min (length self.now.view.versions) (2 ^ 64 - 1) }
    {
        self.work.versions()
    }
}
