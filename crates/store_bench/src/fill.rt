//! The store that calls are made over. Its first key has many versions, and its other keys one each.
ghost use Rattle.std.specs.Prelude.{◌≡◌, ◌+◌, [], IfOk, OnOk};
ghost use Rattle.replica_store.specs.StoreLists.{StaysHere};
ghost use Rattle.store_bench.specs.Filled.{Held, IsFilled, one_hosted};
ghost use Rattle.version_chain.specs.ChainLists.{Each};

use replica_store::ReplicaStore;
use std::alloc::{AllocError, Global};
use str_base::{KeyId, Kind, NodeId, PartId, ShortList, Ts, TxId, Value, Version};

/// The partition of all keys.
pub const PART: PartId = PartId(1);

/// A timestamp above those of all versions that the store is filled with.
pub const LATE: u64 = 1 << 40;

/// How much the stores hold.
#[derive(Clone, Copy)]
pub struct Size {
    /// The versions of the first key.
    pub versions: u32,
    /// The other keys.
    pub keys: u32,
    /// The transactions that wrote the other keys.
    pub txs: u32,
}

/// A version of a key.
pub fn version(key: u32, tx: TxId, ts: u64, kind: Kind) -> Version
    ensures key { result.key.0 ≡ key }
    ensures part { result.part.0 ≡ 1 }
    ensures tx { result.tx ≡ tx }
    ensures ts { result.ts.0 ≡ ts }
    ensures kind { result.kind ≡ kind }
{
    Version {
        key: KeyId(key),
        part: PART,
        tx,
        ts: Ts(ts),
        value: Value::Num(7),
        kind,
    }
}

/// The partitions of a node that hosts the only one.
pub fn hosted() -> ShortList<PartId, 32>
    ensures { result ≡ one_hosted }
{
    let mut hosted = ShortList::new();
    hosted.push(PART);
    hosted
}

/// The `i`-th transaction that wrote the first key.
pub fn first_tx(i: u32) -> TxId
    ensures { result ≡ record { node = record { 0 = 2 }; seq = i } }
{
    TxId {
        node: NodeId(2),
        seq: i,
    }
}

/// The `i`-th transaction that wrote other keys.
pub fn other_tx(i: u32) -> TxId
    ensures { result ≡ record { node = record { 0 = 5 }; seq = i } }
{
    TxId {
        node: NodeId(5),
        seq: i,
    }
}

/// Inserts `n` Final versions of the first key, each by a transaction of its own, at the timestamps from 1 on.
#[tactic(auto, using(crate::proofs::Filling::next_first, crate::proofs::Filling::more, crate::proofs::Standing::lies))]
fn insert_first(store: &mut ReplicaStore, n: u32) -> Result<(), AllocError>
    requires hosted { store.old.hosted ≡ one_hosted }
    requires empty { store.old.versions ≡ [] }
    ensures here { OnOk result (StaysHere store.old store.new) }
    ensures held { OnOk result (Each (Held n 1) store.new.versions) }
{
    for i in 0..n {
        store.reserve(1)?;
        store.insert(version(0, first_tx(i), 1 + i as u64, Kind::Final));
    }
    Ok(())
}

/// Inserts a Final version of each of the other keys. The transactions that wrote them come in turn.
#[tactic(auto, using(crate::proofs::Filling::next_other, crate::proofs::Filling::more, crate::proofs::Standing::lies))]
fn insert_others(store: &mut ReplicaStore, size: Size) -> Result<(), AllocError>
    requires hosted { store.old.hosted ≡ one_hosted }
    requires held { Each (Held size.versions 1) store.old.versions }
    ensures here { OnOk result (StaysHere store.old store.new) }
    ensures held { OnOk result (Each (Held size.versions (1 + size.keys)) store.new.versions) }
{
    let txs = size.txs.max(1);
    for k in 0..size.keys {
        store.reserve(1)?;
        store.insert(version(1 + k, other_tx(k % txs), 1, Kind::Final));
    }
    Ok(())
}

/// A store of node 1 that holds so much.
#[tactic(auto, using(crate::proofs::Filling::held_plain, crate::proofs::Filling::held_earlier))]
pub fn filled(alloc: Global, size: Size) -> Result<ReplicaStore, AllocError>
    ensures { IfOk result IsFilled }
{
    let mut store = ReplicaStore::new(alloc, NodeId(1), hosted());
    insert_first(&mut store, size.versions)?;
    insert_others(&mut store, size)?;
    Ok(store)
}
