//! The rules of messages that come back to a transaction's origin: a reply, an answer of a participant, a refusal.
ghost use Rattle.node_core.specs.Working.{FitsRule, HasFacts, Ruled};
ghost use Rattle.std.specs.Prelude.{◌≡◌, true};
ghost use Rattle.str_model.specs.Returns.{ack_rule, read_reply, refuse_rule};
ghost use Rattle.str_model.specs.Strange.{has_part};

use crate::work::Work;
use node_parts::Phase;
use str_base::{Cause, KeyId, NodeId, PartId, Ts, TxId, Value};

impl Work {
    /// A reply comes. False exactly where it is idle; then nothing changes.
    pub(crate) fn read_reply(
        &mut self,
        tx: TxId,
        key: KeyId,
        value: Value,
        by: Option<TxId>,
        fc: Ts,
    ) -> bool
        requires { HasFacts self.old }
        ensures { Ruled (read_reply self.old.here tx key value by fc.0 self.old.doing) result self.old self.new }
    {
        let Some(i) = self.place_of(tx) else {
            return false;
        };
        let Phase::Remote { key: wanted } = self.phase(i) else {
            return false;
        };
        if wanted != key {
            return false;
        }
        let reply = Phase::Reply { key, value, by, fc };
        self.set_phase(i, reply);
        true
    }

    /// An answer of a participant comes. False exactly where it is idle; then nothing changes.
    pub(crate) fn take_ack(&mut self, sender: NodeId, tx: TxId, part: PartId, ts: Ts) -> bool
        requires { HasFacts self.old }
        ensures { Ruled (ack_rule self.old.here sender tx part ts.0 self.old.doing) result self.old self.new }
    {
        let Some(i) = self.place_of(tx) else {
            return false;
        };
        let Phase::Global { .. } = self.phase(i) else {
            return false;
        };
        self.keep_ack(i, part, sender, ts)
    }

    /// A refusal comes. False exactly where it is idle; then nothing changes.
    pub(crate) fn take_refusal(
        &mut self,
        sender: NodeId,
        tx: TxId,
        part: PartId,
        by: TxId,
        key: KeyId,
    ) -> bool
        requires facts { HasFacts self.old }
        requires part { has_part self.old.here part ≡ true }
        requires fits { FitsRule self.old (refuse_rule self.old.here sender tx part by key self.old.doing) }
        ensures { Ruled (refuse_rule self.old.here sender tx part by key self.old.doing) result self.old self.new }
    {
        let Some(i) = self.place_of(tx) else {
            return false;
        };
        let Phase::Global { .. } = self.phase(i) else {
            return false;
        };
        if !self.has_asked(i, part) {
            return false;
        }
        if !self.is_master(sender, part) {
            return false;
        }
        let node = sender;
        self.abort(i, Cause::Conflict { by, key, node });
        true
    }
}
