//! The operations of an own transaction's script, its reads and its certification.
ghost use Rattle.node_core.specs.Working.{Did, Fits, HasFacts, OwnIs};
ghost use Rattle.node_core.specs.Reading.{AsksToCommit, MayRead};
ghost use Rattle.std.specs.Prelude.{◌≡◌, ◌+◌, None};
ghost use Rattle.str_model.specs.NodeFacts.{OpenTo};
ghost use Rattle.str_model.specs.Scripts.{ask_commit, at_own, certify_now, op_or_commit, own_op, read_now, with_value};
ghost use Rattle.str_model.specs.Views.{Active};

use crate::work::Work;
use dependency_set::Snap;
use local_certify::CertTurn;
use node_parts::Phase;
use snapshot_read::ReadTurn;
use str_base::{Cause, KeyId, TxId, Value};
use tx_script::Turn;

impl Work {
    /// An own transaction that is Active does its next operation, or past the last one asks to commit.
    pub(crate) fn go_on(&mut self, i: usize)
        requires facts { HasFacts self.old }
        requires own { OwnIs (λ x. x.phase ≡ Active) i self.old }
        requires open_ { OpenTo self.old.doing.view (i + 1) }
        requires fits { Fits self.old (at_own i (λ x. op_or_commit self.old.here i x (own_op self.old.here x)) self.old.doing) }
        ensures { Did (at_own i (λ x. op_or_commit self.old.here i x (own_op self.old.here x)) self.old.doing) self.old self.new }
    {
        match self.operate(i) {
            Turn::Ask { key } => self.read_now(i, key),
            Turn::Wished => self.abort(i, Cause::Wish),
            Turn::End => self.ask_commit(i),
            Turn::Got { .. } | Turn::Moved | Turn::Unmet => {}
        }
    }

    /// The mark of a key rises, then the key is read. The script of the transaction stands at an operation that needs the key.
    pub(crate) fn read_now(&mut self, i: usize, key: KeyId)
        requires facts { HasFacts self.old }
        requires own { OwnIs (MayRead self.old.here key) i self.old }
        requires open_ { OpenTo self.old.doing.view (i + 1) }
        requires fits { Fits self.old (at_own i (read_now self.old.here i key) self.old.doing) }
        ensures { Did (at_own i (read_now self.old.here i key) self.old.doing) self.old self.new }
    {
        let turn = self.read_turn(i, key);
        self.mark(key, self.rs(i));
        match turn {
            ReadTurn::Plain {
                value,
                by,
                snap,
                ..
            } => self.take_value(i, key, value, by, snap),
            ReadTurn::Speculative { value, by, snap } => {
                self.take_value(i, key, value, Some(by), snap)
            }
            ReadTurn::Wait { .. } => self.set_phase(i, Phase::ReadWait { key }),
            ReadTurn::Remote { master } => self.request(i, key, master),
        }
    }

    /// A value has come for the key that the next operation needs.
    pub(crate) fn take_value(
        &mut self,
        i: usize,
        key: KeyId,
        value: Value,
        by: Option<TxId>,
        snap: Snap,
    )
        requires facts { HasFacts self.old }
        requires own { OwnIs (λ x. MayRead self.old.here key x × (snap.rs ≡ x.snap.rs)) i self.old }
        ensures { Did (at_own i (with_value self.old.here i key value by snap) self.old.doing) self.old self.new }
    {
        self.keep_read(i, key, value, by, snap);
        let _ = self.operate(i);
    }

    /// An own transaction asks to commit: without writes it closes, else it is certified.
    pub(crate) fn ask_commit(&mut self, i: usize)
        requires facts { HasFacts self.old }
        requires own { OwnIs (λ x. (x.phase ≡ Active) × (own_op self.old.here x ≡ None)) i self.old }
        requires open_ { OpenTo self.old.doing.view (i + 1) }
        requires fits { Fits self.old (at_own i (λ x. ask_commit self.old.here i x x.writes) self.old.doing) }
        ensures { Did (at_own i (λ x. ask_commit self.old.here i x x.writes) self.old.doing) self.old self.new }
    {
        if self.writes(i) {
            self.certify_now(i);
        } else {
            self.set_phase(i, Phase::Closing { wish: false });
        }
    }

    /// An own transaction is certified, aborts by a conflict, or waits for dependencies.
    pub(crate) fn certify_now(&mut self, i: usize)
        requires facts { HasFacts self.old }
        requires own { OwnIs (AsksToCommit self.old.here) i self.old }
        requires open_ { OpenTo self.old.doing.view (i + 1) }
        requires fits { Fits self.old (at_own i (certify_now self.old.here i) self.old.doing) }
        ensures { Did (at_own i (certify_now self.old.here i) self.old.doing) self.old self.new }
    {
        match self.cert_turn(i) {
            CertTurn::Certified { lc, snap } => self.certify(i, lc, snap),
            CertTurn::Conflict { by, key } => {
                let node = self.site().id();
                self.abort(i, Cause::Conflict { by, key, node })
            }
            CertTurn::WaitGate { .. } => self.set_phase(i, Phase::CertWait),
        }
    }
}
