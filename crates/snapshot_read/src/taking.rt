//! What a snapshot takes over from own transactions, and whom its gate waits for.
ghost use Rattle.std.specs.Prelude.{◌≡◌, ◌↔◌, ◌≤◌, false, find, length, option_map, true};
ghost use Rattle.str_base.specs.declared.names.TxId.{TxId as Name};
ghost use Rattle.dependency_set.specs.Snapshots.{Snap as Value, holds};
ghost use Rattle.snapshot_read.specs.Causes.{GateWaits};
ghost use Rattle.snapshot_read.specs.Shown.{AreNamed, OthersNamed, taken_over, told};

use dependency_set::{OwnSnap, Snap, accept_local, holds, oldest};
use str_base::{NodeId, TxId};

/// Whom a snapshot waits for at this node: where its gate fails, its dependency with the least timestamp, then the least
/// number. None where the gate lets it through.
pub fn gate_waits(node: NodeId, snap: &Snap) -> Option<TxId>
    ensures some { (by : Name) → (result ≡ Some by) ↔ GateWaits node snap.now by }
    ensures none { (result ≡ None) ↔ (holds snap.now ≡ true) }
{
    if holds(snap) {
        return None;
    }
    match oldest(snap) {
        Some(dep) => Some(TxId { node, seq: dep.seq }),
        None => None,
    }
}

/// The snapshot that is told of the own transaction with this number. None where it is not told of.
fn told(own: &[OwnSnap], seq: u32) -> Option<Snap>
    ensures { result ≡ told own.now seq }
{
    for other in own {
        if other.seq == seq {
            return Some(other.snap.copy());
        }
    }
    None
}

/// The snapshot with what it takes over from the own transaction with this number: that transaction, its dependencies and what it
/// read. `own` tells of at most 15 transactions, of each dependency of the snapshot, of the transaction and of each of its dependencies.
pub fn take_over(own: &[OwnSnap], seq: u32, snap: &Snap) -> Snap
    requires few { length own.now ≤ 15 }
    requires deps { AreNamed own.now snap.now.deps }
    requires others { OthersNamed own.now seq }
    ensures value { result ≡ taken_over (told own.now seq) seq snap.now }
    ensures kept { AreNamed own.now result.deps }
{
    let _ = snap.deps();
    match told(own, seq) {
        Some(of) => accept_local(snap, seq, &of),
        None => snap.copy(),
    }
}
