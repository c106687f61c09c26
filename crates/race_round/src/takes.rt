//! What a node takes in a turn.
ghost use Rattle.std.specs.Prelude.{◌≡◌, ◌≤◌, ◌*◌, false, true, IsFalse, IsTrue};
ghost use Rattle.race_round.specs.Nodes.{BrokenOff, TookOne, TookSome, TookUpTo, seat_of};
ghost use Rattle.race_round.specs.Seats.{IsSeat};
ghost use Rattle.ring_links.specs.Ends.{Other};

use crate::nodes::RaceNode;
use crate::steps::{LAST_STAMP, make_step};
use lamport_log::LogInput;
use str_base::NodeId;
use str_model::Input;

/// What one try to take a message came to.
#[derive(Clone, Copy, Debug, PartialEq, Eq)]
pub(crate) enum Taking {
    /// No message of that node was there.
    Nothing,
    /// A message was taken, and the node stepped on it.
    Taken,
    /// A growth was refused, or a stamp was the last one: the turn is broken off.
    Stopped,
}

/// Takes a message of another node and steps on it.
fn take_one<C, G>(n: &mut RaceNode<C, G>, sender: NodeId) -> Taking
    requires seat { IsSeat (seat_of n.old) }
    requires other { Other n.old.ends sender.0 }
    ensures took { TookOne result sender (seat_of n.old) (seat_of n.new) }
    ensures clock { n.new.clock ≡ n.old.clock }
{
    let Some(parcel) = n.ends.take(sender) else {
        return Taking::Nothing;
    };
    let stamp = n.stamp.max(parcel.stamp);
    if stamp >= LAST_STAMP {
        return Taking::Stopped;
    }
    let logged = LogInput::Taken {
        sender,
        number: parcel.number,
    };
    let input = Input::Deliver(parcel.message);
    if !make_step(n, &input, logged, stamp + 1) {
        return Taking::Stopped;
    }
    Taking::Taken
}

/// Takes messages of another node until 8 are taken or none is there. It answers false where the turn is broken off.
fn take_some<C, G>(n: &mut RaceNode<C, G>, sender: NodeId) -> bool
    requires seat { IsSeat (seat_of n.old) }
    requires other { Other n.old.ends sender.0 }
    ensures took { IsTrue result → TookSome sender (seat_of n.old) (seat_of n.new) }
    ensures broken { IsFalse result → BrokenOff 8 (seat_of n.old) (seat_of n.new) }
    ensures clock { n.new.clock ≡ n.old.clock }
{
    for _step in 0..8u8 {
        match take_one(n, sender) {
            Taking::Taken => {}
            Taking::Nothing => return true,
            Taking::Stopped => return false,
        }
    }
    true
}

/// Takes messages of each other node upwards. It answers false where the turn is broken off.
pub(crate) fn take_all<C, G>(n: &mut RaceNode<C, G>) -> bool
    requires seat { IsSeat (seat_of n.old) }
    ensures took { IsTrue result → TookUpTo n.old.node.scene.nodes (seat_of n.old) (seat_of n.new) }
    ensures broken { IsFalse result → BrokenOff (8 * n.old.node.scene.nodes) (seat_of n.old) (seat_of n.new) }
    ensures clock { n.new.clock ≡ n.old.clock }
{
    let id = n.node.id();
    for place in 0..n.node.scene().nodes() {
        let sender = NodeId(place + 1);
        if sender == id {
            continue;
        }
        if !take_some(n, sender) {
            return false;
        }
    }
    true
}
