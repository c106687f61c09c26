//! Insertions into a filled store, each taken back.
ghost use Rattle.std.specs.Prelude.{◌≡◌, ◌+◌, OnOk};
ghost use Rattle.replica_store.specs.StoreLists.{StaysHere};
ghost use Rattle.store_bench.specs.Filled.{IsEarlier, IsFilled, one_hosted};
ghost use Rattle.version_chain.specs.ChainLists.{Each};

use crate::fill::{LATE, PART, version};
use replica_store::ReplicaStore;
use std::alloc::AllocError;
use str_base::{KeyId, Kind, NodeId, Ts, TxId};

/// Inserts a Pre version of the first key by the `i`-th transaction of node 4, makes it Final where asked, and takes it out. Gives the
/// key's greatest timestamp before that.
#[tactic(auto, using(crate::proofs::Filling::next_late, crate::proofs::Filling::more_late, crate::proofs::Filling::late_final, crate::proofs::Filling::late_kept, crate::proofs::Standing::lies))]
fn exchange(store: &mut ReplicaStore, is_final: bool, i: u32) -> Result<u64, AllocError>
    requires hosted { store.old.hosted ≡ one_hosted }
    requires earlier { Each (IsEarlier i) store.old.versions }
    ensures here { OnOk result (StaysHere store.old store.new) }
    ensures earlier { OnOk result (Each (IsEarlier (i + 1)) store.new.versions) }
{
    let tx = TxId {
        node: NodeId(4),
        seq: i,
    };
    store.reserve(1)?;
    store.insert(version(0, tx, LATE, Kind::Pre));
    if is_final {
        store.finalise(tx, PART, Ts(LATE + 1));
    }
    let newest = store.newest(KeyId(0));
    store.remove(tx, PART);
    Ok(newest.0)
}

/// Exchanges a version many times, and adds up the timestamps.
pub fn exchange_all(store: &mut ReplicaStore, is_final: bool, times: u32) -> Result<u64, AllocError>
    requires { IsFilled store.old }
{
    let mut sum: u64 = 0;
    for i in 0..times {
        sum = sum.saturating_add(exchange(store, is_final, i)?);
    }
    Ok(sum)
}
