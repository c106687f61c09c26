//! The timestamp that a replica proposes for new versions.
ghost use Rattle.std.specs.Prelude.{◌≡◌, ◌+◌, max, option_map};
ghost use Rattle.prepare_master.specs.MasterTurns.{HaveMarks, below_limit, proposal, stamp_value, to_pass};

use last_reader::Marks;
use replica_store::ReplicaStore;
use str_base::{Ts, Writes};
use str_model::Arrived;

/// No timestamp of a run reaches this.
pub const TS_LIMIT: u64 = (1 << 62) + (1 << 20);

/// The greatest of the marks and newest timestamps of the written keys.
fn passed(writes: &Writes, store: &ReplicaStore, marks: &Marks) -> u64
    requires { HaveMarks writes.now marks.now }
    ensures { result ≡ to_pass store.now.versions marks.now writes.now }
{
    let mut passed: u64 = 0;
    for write in writes.as_slice() {
        let mark = marks.mark(write.key);
        let newest = store.newest(write.key);
        passed = passed.max(mark.0.max(newest.0));
    }
    passed
}

/// A timestamp above what new versions have to pass, and not below the transaction's own. There is none exactly where it
/// would reach the limit.
pub fn above(a: &Arrived, passed: u64) -> Option<Ts>
    ensures { option_map stamp_value result ≡ below_limit (max a.now.lc.0 (1 + passed)) }
{
    let ts = a.lc.0.max(passed.saturating_add(1));
    if ts < TS_LIMIT { Some(Ts(ts)) } else { None }
}

/// The timestamp that is proposed for new versions. There is none exactly where it would reach the limit.
pub fn proposed(a: &Arrived, store: &ReplicaStore, marks: &Marks) -> Option<Ts>
    requires { HaveMarks a.now.writes marks.now }
    ensures { option_map stamp_value result ≡ below_limit (proposal store.now.versions marks.now a.now) }
{
    above(a, passed(&a.writes, store, marks))
}
