//! Certifications and judgements over a filled store, where the node has nothing else.
ghost use Rattle.std.specs.Prelude.{◌≡◌, IfOk};
ghost use Rattle.store_bench.specs.Filled.{HaveFirstKey, IsFilled, one_part};

use crate::fill::{LATE, PART, Size, hosted, other_tx};
use cache_partition::CachePartition;
use dependency_set::{Deps, OwnSnap, Snap};
use last_reader::Marks;
use local_certify::{CertTurn, certify};
use partition_map::{PartRow, PartitionMap};
use prepare_master::{MasterTurn, prepare};
use replica_store::{DoneList, Parked, ReplicaStore};
use std::alloc::{AllocError, Global};
use str_base::{KeyId, NodeId, Ts, TxId, Value, Write, Writes};
use str_model::Arrived;

/// One partition, at node 1, of one key.
fn map(alloc: Global) -> Result<PartitionMap, AllocError>
    ensures { IfOk result (λ m. m ≡ one_part) }
{
    let mut row = PartRow::new();
    row.push(NodeId(1));
    let rows = Vec::from_array(alloc, [row])?;
    let keys = Vec::from_array(alloc, [PART])?;
    PartitionMap::new(alloc, &rows, &keys)
}

/// A write of the first key.
fn writes() -> Writes
    ensures { HaveFirstKey result }
{
    let mut writes = Writes::new();
    writes.push(Write {
        key: KeyId(0),
        value: Value::Num(9),
    });
    writes
}

/// The timestamp of a certification, 0 where it has none.
fn certified_at(turn: CertTurn) -> u64 {
    match turn {
        CertTurn::Certified { lc, .. } => lc.0,
        CertTurn::Conflict { .. } | CertTurn::WaitGate { .. } => 0,
    }
}

/// Certifies an own transaction that writes the first key, many times, and adds up the timestamps.
#[tactic(auto, using(crate::proofs::Standing::stands))]
pub fn certify_all(alloc: Global, store: &ReplicaStore, times: u32) -> Result<u64, AllocError>
    requires { IsFilled store.now }
{
    let map = map(alloc)?;
    let cache = CachePartition::new(alloc, NodeId(1), hosted());
    let marks = Marks::new(alloc, 1)?;
    let snap = Snap::new(Ts(LATE), Ts(0), Deps::new());
    let writes = writes();
    let own: [OwnSnap; 0] = [];
    let own = own.as_slice();
    let mut sum: u64 = 0;
    for _ in 0..times {
        let turn = certify(NodeId(1), &snap, &writes, own, store, &cache, &marks, &map);
        sum = sum.saturating_add(certified_at(turn));
    }
    Ok(sum)
}

/// A list in which each transaction that wrote other keys is done.
fn all_done(alloc: Global, size: Size) -> Result<DoneList, AllocError> {
    let mut done = DoneList::new(alloc);
    for i in 0..size.txs {
        done.reserve(1)?;
        done.add(other_tx(i), PART);
    }
    Ok(done)
}

/// A Prepare of node 4 that writes the first key.
fn arrived() -> Arrived
    ensures part { result.part ≡ record { 0 = 1 } }
    ensures keys { HaveFirstKey result.writes }
{
    Arrived {
        tx: TxId {
            node: NodeId(4),
            seq: 1,
        },
        part: PART,
        rs: Ts(LATE),
        lc: Ts(LATE),
        writes: writes(),
    }
}

/// The timestamp at which a Prepare is accepted, 0 where it isn't.
fn accepted_at(turn: MasterTurn) -> u64 {
    match turn {
        MasterTurn::Accept { ts } => ts.0,
        MasterTurn::Refuse { .. } | MasterTurn::Park { .. } | MasterTurn::Ignore => 0,
    }
}

/// Judges a Prepare that writes the first key, many times, and adds up the timestamps.
pub fn prepare_all(
    alloc: Global,
    store: &ReplicaStore,
    size: Size,
    times: u32,
) -> Result<u64, AllocError> {
    let map = map(alloc)?;
    let marks = Marks::new(alloc, 1)?;
    let done = all_done(alloc, size)?;
    let parked = Parked::new(alloc);
    let arrived = arrived();
    let mut sum: u64 = 0;
    for _ in 0..times {
        let turn = prepare(&arrived, NodeId(1), store, &marks, &done, &parked, &map);
        sum = sum.saturating_add(accepted_at(turn));
    }
    Ok(sum)
}
