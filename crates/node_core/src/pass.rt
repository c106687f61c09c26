//! The pass over the own transactions by rising number.
ghost use Rattle.node_core.specs.Working.{Did, Fits, HasFacts, OwnIs};
ghost use Rattle.std.specs.Prelude.{◌≡◌, ◌<◌, ◌+◌, Some, false, length};
ghost use Rattle.str_model.specs.NodeFacts.{OpenTo};
ghost use Rattle.str_model.specs.Pass.{again_own, close_own, gates_in, pass_to, resolve_own, turn};
ghost use Rattle.str_model.specs.Scripts.{at_own};
ghost use Rattle.str_model.specs.Views.{Reply, is_decided, lc_of};

use crate::work::Work;
use cascade_abort::DepTurn;
use commit_gate::GateTurn;
use node_parts::Phase;
use snapshot_read::ReadTurn;
use str_base::{Cause, KeyId, Ts, TxId, Value};

impl Work {
    /// The dependencies of an undecided own transaction are looked at: it aborts where one of them decides over it.
    pub(crate) fn resolve(&mut self, i: usize)
        requires facts { HasFacts self.old }
        requires own { OwnIs (λ x. is_decided x.phase ≡ false) i self.old }
        requires fits { Fits self.old (at_own i (resolve_own self.old.here i) self.old.doing) }
        ensures { Did (at_own i (resolve_own self.old.here i) self.old.doing) self.old self.new }
    {
        if !self.depends(i) {
            return;
        }
        let node = self.site().id();
        match self.look(i) {
            DepTurn::Keep => {}
            DepTurn::Lost { by } => {
                let by = TxId { node, seq: by };
                self.abort(i, Cause::Lost { by });
            }
            DepTurn::Late { by, fc } => {
                let by = TxId { node, seq: by };
                self.abort(i, Cause::Late { by, fc });
            }
        }
    }

    /// What waits at this node is tried again. The dependencies of the transaction and of all before it are open.
    pub(crate) fn again(&mut self, i: usize)
        requires facts { HasFacts self.old }
        requires there { i < length self.old.doing.view.own }
        requires open_ { OpenTo self.old.doing.view (i + 1) }
        requires fits { Fits self.old (at_own i (λ x. again_own self.old.here i x.phase x) self.old.doing) }
        ensures { Did (at_own i (λ x. again_own self.old.here i x.phase x) self.old.doing) self.old self.new }
    {
        match self.phase(i) {
            Phase::ReadWait { key } => self.read_now(i, key),
            Phase::Reply { key, value, by, fc } => self.reply_again(i, key, value, by, fc),
            Phase::CertWait => self.certify_now(i),
            _ => {}
        }
    }

    /// A reply is taken, where the gate lets it through.
    fn reply_again(&mut self, i: usize, key: KeyId, value: Value, by: Option<TxId>, fc: Ts)
        requires facts { HasFacts self.old }
        requires own { OwnIs (λ x. x.phase ≡ Reply key value by fc.0) i self.old }
        ensures { Did (at_own i (λ x. again_own self.old.here i x.phase x) self.old.doing) self.old self.new }
    {
        if let ReadTurn::Plain {
            value,
            by,
            snap,
            ..
        } = self.reply_turn(i, value, by, fc)
        {
            self.take_value(i, key, value, by, snap);
        }
    }

    /// The closing of a turn: one that has nothing to certify is decided where it has no dependency left, and the gate of a certified one is
    /// looked at.
    pub(crate) fn close(&mut self, i: usize)
        requires facts { HasFacts self.old }
        requires there { i < length self.old.doing.view.own }
        requires fits { Fits self.old (at_own i (close_own self.old.here i) self.old.doing) }
        ensures { Did (at_own i (close_own self.old.here i) self.old.doing) self.old self.new }
    {
        match self.phase(i) {
            Phase::Closing { wish } => {
                if self.depends(i) {
                    return;
                }
                if wish {
                    self.abort(i, Cause::Wish);
                } else {
                    self.close_free(i);
                }
            }
            Phase::Local { lc } | Phase::Global { lc } => self.gates(i, lc),
            _ => {}
        }
    }

    /// The gate of a certified own transaction: each partition that may be asked is asked, and it commits where nothing is left to wait for.
    fn gates(&mut self, i: usize, lc: Ts)
        requires facts { HasFacts self.old }
        requires own { OwnIs (λ x. (is_decided x.phase ≡ false) × (lc_of x.phase ≡ Some lc.0)) i self.old }
        requires fits { Fits self.old (gates_in self.old.here i self.old.doing) }
        ensures { Did (gates_in self.old.here i self.old.doing) self.old self.new }
    {
        let mut said = self.gate_turn(i, lc);
        while let GateTurn::Ask { part } = said {
            self.ask(i, lc, part);
            said = self.gate_turn(i, lc);
        }
        if let GateTurn::Commit { fc } = said {
            self.commit(i, lc, fc);
        }
    }

    /// The turn of an own transaction. The dependencies of all before it are open.
    pub(crate) fn turn(&mut self, i: usize)
        requires facts { HasFacts self.old }
        requires own { OwnIs (λ x. is_decided x.phase ≡ false) i self.old }
        requires open_ { OpenTo self.old.doing.view i }
        requires fits { Fits self.old (turn self.old.here i self.old.doing) }
        ensures { Did (turn self.old.here i self.old.doing) self.old self.new }
    {
        self.resolve(i);
        self.again(i);
        self.close(i);
    }

    /// The turns of the undecided own transactions, upwards.
    pub(crate) fn pass(&mut self)
        requires facts { HasFacts self.old }
        requires fits { Fits self.old (pass_to self.old.here (length self.old.doing.view.own) self.old.doing) }
        ensures { Did (pass_to self.old.here (length self.old.doing.view.own) self.old.doing) self.old self.new }
    {
        let places = self.undecided();
        for place in places.as_slice() {
            self.turn(*place as usize);
        }
    }
}
