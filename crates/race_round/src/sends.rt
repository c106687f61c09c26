//! How the messages of a step are sent.
ghost use Rattle.std.specs.Prelude.{◌≡◌, ◌≢◌, ◌≤◌, ◌<◌, ◌+◌, ◌^◌, ◌∷◌, [], ℕ, IsTrue, IsFalse, length};
ghost use Rattle.race_round.specs.Sending.{Loses, Slack};
ghost use Rattle.race_round.specs.Stretches.{SentAll};
ghost use Rattle.ring_links.specs.Ends.{Other};
ghost use Rattle.str_base.specs.Members.{In};
ghost use Rattle.str_model.specs.declared.messages.Message.{Message as AMessage};

use ring_links::{NodeEnds, Parcel};
use str_base::NodeId;
use str_model::Message;

/// Sends a message to its receiver, where that is another node of the `nodes` of the scene. It answers false where it is for this node.
fn send_one(ends: &mut NodeEnds, message: &Message, number: u64, stamp: u64, nodes: u8) -> bool
    requires node { (1 ≤ ends.old.node) × (ends.old.node ≤ nodes) }
    requires stamp { stamp ≤ 2 ^ 62 }
    requires width { length ends.old.links + 1 ≡ nodes }
    requires room { Slack 1 ends.old }
    requires number { 1 ≤ number }
    ensures sent { (before : ℕ) → number ≡ before + 1 → SentAll ends.old ends.new (message.now ∷ []) before stamp }
    ensures room { Loses 1 ends.old ends.new }
    ensures away { IsTrue result → message.now.receiver.0 ≢ ends.old.node }
{
    let receiver = message.receiver;
    if receiver == ends.node() {
        return false;
    }
    if receiver.0 < 1 || nodes < receiver.0 {
        return true;
    }
    ends.send(Parcel {
        stamp,
        sender: ends.node(),
        number,
        message: message.copy(),
    });
    true
}

/// Sends the messages of a step, before which so many were sent, each to its receiver, where that is another node of the `nodes` of the scene.
/// It answers false where one is for this node.
pub(crate) fn send_all(
    ends: &mut NodeEnds,
    messages: &[Message],
    before: u64,
    stamp: u64,
    nodes: u8,
) -> bool
    requires node { (1 ≤ ends.old.node) × (ends.old.node ≤ nodes) }
    requires stamp { stamp ≤ 2 ^ 62 }
    requires width { length ends.old.links + 1 ≡ nodes }
    requires room { Slack (length messages.now) ends.old }
    requires numbers { before + length messages.now < 2 ^ 64 }
    ensures sent { SentAll ends.old ends.new messages.now before stamp }
    ensures away { IsTrue result → (m : AMessage) → In m messages.now → m.receiver.0 ≢ ends.old.node }
{
    let mut away = true;
    for place in 0..messages.len() {
        let number = before + place as u64 + 1;
        away &= send_one(ends, &messages[place], number, stamp, nodes);
    }
    away
}
