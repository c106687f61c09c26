//! The pairs of a transaction and a partition that were decided at a node.
ghost use Rattle.std.specs.List.{list_any};
ghost use Rattle.std.specs.Prelude.{◌≡◌, ◌<◌, ◌≤◌, ◌+◌, ◌++◌, ◌∷◌, [], OnErr, OnOk};
ghost use Rattle.str_model.specs.Proposals.{is_pair};

use indexmap::IndexSet;
use std::alloc::{AllocError, Global};
use std::marker::{Model, Send, Sync};
use str_base::{PartId, TxId};

/// The numbers of a pair: of its node, its transaction and its partition.
type Numbers = (u8, u32, u8);

/// Pairs of a transaction and a partition in the order in which they were added, and room for more that takes no memory.
/// They are seen as the list of the pairs and the number `spare` of those that still have room. A pair is found by its hash.
#[derive(Drop)]
pub struct DoneList {
    items: Vec<(TxId, PartId)>,
    index: IndexSet<Numbers>,
    spare: usize,
}

impl Model for DoneList {
    ghost use Rattle.indexmap.specs.IndexSet.{spare as places_left};
    ghost use Rattle.std.specs.Prelude.{◌+◌, ◌≤◌, vec_capacity, vec_len};
    ghost use Rattle.replica_store.specs.DoneIndex.{Indexes};
    ghost use Rattle.replica_store.specs.StoreLists.{DonePairs};

    ghost Value = { DonePairs };

    ghost view = { λ d. record { pairs = d.items.items; spare = d.spare } };

    ghost invariant = { λ d. Indexes d.index.keys d.items.items × (vec_len d.items + d.spare ≤ vec_capacity d.items) × (d.spare ≤ places_left d.index) };
}

impl DoneList {
    /// No pairs.
    pub fn new(alloc: Global) -> DoneList
        ensures { result.pairs ≡ [] }
    {
        DoneList {
            items: Vec::new(alloc),
            index: IndexSet::new(alloc),
            spare: 0,
        }
    }

    /// Makes room for `n` more pairs at least. After an error all is as before.
    pub fn reserve(&mut self, n: usize) -> Result<(), AllocError>
        ensures pairs { self.new.pairs ≡ self.old.pairs }
        ensures room { OnOk result (n ≤ self.new.spare) }
        ensures kept { self.old.spare ≤ self.new.spare }
        ensures err { OnErr result (self.new ≡ self.old) }
    {
        if self.spare < n {
            self.items.reserve(n)?;
            self.index.reserve(n)?;
            self.spare = n;
        }
        Ok(())
    }

    /// Whether a pair is in the list.
    pub fn has(&self, tx: TxId, part: PartId) -> bool
        ensures { result ≡ list_any (is_pair tx part) self.now.pairs }
    {
        self.index.contains(&numbers(tx, part))
    }

    /// Appends a pair. There is room.
    pub fn add(&mut self, tx: TxId, part: PartId)
        requires { 0 < self.old.spare }
        ensures pairs { self.new.pairs ≡ self.old.pairs ++ (tx, part) ∷ [] }
        ensures spare { self.old.spare ≤ self.new.spare + 1 }
    {
        self.items.push_reserved((tx, part));
        match self.index.insert(numbers(tx, part)) {
            Ok(_) => self.spare -= 1,
            Err(_) => unreachable!(),
        }
    }
}

/// The numbers of a pair.
fn numbers(tx: TxId, part: PartId) -> Numbers
    ensures { result ≡ (tx.node.0, tx.seq, part.0) }
{
    (tx.node.0, tx.seq, part.0)
}

fn sendable<T: Send + Sync>(_: &T) {}

fn all_sendable(done: &DoneList) {
    sendable(done);
}

#[cfg(test)]
mod tests {
    use super::*;
    use std::test::Fail;
    use str_base::NodeId;

    #[test]
    fn pairs_that_were_added(rt: HostRuntime) -> Result<(), Fail> {
        let mut done = DoneList::new(rt.alloc());
        done.reserve(3)?;
        let tx = TxId {
            node: NodeId(2),
            seq: 1,
        };
        done.add(tx, PartId(1));
        done.add(tx, PartId(3));
        done.add(tx, PartId(1));
        let cases = [(1, true), (2, false), (3, true)];
        for (part, has) in cases {
            assert_eq!(rt; done.has(tx, PartId(part)), has);
        }
        Ok(())
    }
}
