//! A step of a node: the rule of its input, then a pass over its own transactions, then those who wait.
ghost use Rattle.node_core.specs.Working.{FitsRule, HasFacts, IsNode, Ruled};
ghost use Rattle.std.specs.Prelude.{◌≡◌, length, true};
ghost use Rattle.str_model.specs.NodeFacts.{OpenTo};
ghost use Rattle.str_model.specs.Steps.{body_rule, rule, step};
ghost use Rattle.str_model.specs.Strange.{has_named};
ghost use Rattle.str_model.specs.Views.{starts};

use crate::work::Work;
use str_base::NodeId;
use str_model::{Arrived, Body, Input};

impl Work {
    /// The rule of a message that is not strange. False exactly where it is idle; then nothing changes.
    fn deliver(&mut self, sender: NodeId, body: &Body) -> bool
        requires facts { HasFacts self.old }
        requires named { has_named self.old.here body.now ≡ true }
        requires fits { FitsRule self.old (body_rule self.old.here sender body.now self.old.doing) }
        ensures { Ruled (body_rule self.old.here sender body.now self.old.doing) result self.old self.new }
    {
        match body {
            Body::ReadReq { tx, key, rs } => self.read_request(*tx, *key, *rs),
            Body::ReadReply {
                tx,
                key,
                value,
                by,
                fc,
            } => self.read_reply(*tx, *key, *value, *by, *fc),
            Body::Prepare {
                tx,
                part,
                rs,
                lc,
                writes,
            } => self.prepare(Arrived {
                tx: *tx,
                part: *part,
                rs: *rs,
                lc: *lc,
                writes: writes.copy(),
            }),
            Body::Refuse { tx, part, by, key } => self.take_refusal(sender, *tx, *part, *by, *key),
            Body::Replicate {
                tx,
                part,
                rs,
                lc,
                writes,
            } => self.replicate(&Arrived {
                tx: *tx,
                part: *part,
                rs: *rs,
                lc: *lc,
                writes: writes.copy(),
            }),
            Body::Ack { tx, part, ts } => self.take_ack(sender, *tx, *part, *ts),
            Body::Commit {
                tx,
                part,
                fc,
                marks,
            } => self.take_commit(*tx, *part, *fc, marks),
            Body::Abort { tx, part } => self.take_abort(*tx, *part),
        }
    }

    /// The rule of an input. False exactly where it is idle; then nothing changes.
    fn rule(&mut self, input: &Input) -> bool
        requires facts { HasFacts self.old }
        requires open_ { OpenTo self.old.doing.view (length self.old.doing.view.own) }
        requires fits { FitsRule self.old (rule self.old.here input.now self.old.doing) }
        ensures { Ruled (rule self.old.here input.now self.old.doing) result self.old self.new }
    {
        match input {
            Input::Client { session, reading } => self.client(*session, *reading),
            Input::Deliver(message) => {
                self.is_valid(message) && self.deliver(message.sender, &message.body)
            }
        }
    }

    /// A whole step. False exactly where the input is idle; then nothing changes.
    pub fn step(&mut self, input: &Input) -> bool
        requires node { IsNode self.old.here self.old.doing.view }
        requires fresh { self.old.doing ≡ starts self.old.doing.view }
        requires fits { FitsRule self.old (step self.old.here input.now self.old.doing.view) }
        ensures { Ruled (step self.old.here input.now self.old.doing.view) result self.old self.new }
    {
        if !self.rule(input) {
            return false;
        }
        self.pass();
        self.sweep();
        true
    }
}
