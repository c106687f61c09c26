//! What the sessions of a node do in a turn.
ghost use Rattle.std.specs.Prelude.{◌≡◌, ◌∷◌, [], false, true, IsFalse, IsTrue, length};
ghost use Rattle.race_round.specs.Nodes.{BrokenOff, Moved, seat_of};
ghost use Rattle.race_round.specs.Seats.{IsSeat};
ghost use Rattle.race_round.specs.Turns.{Gave, first_sessions, readings_since};

use crate::nodes::RaceNode;
use crate::steps::{LAST_STAMP, make_step};
use lamport_log::LogInput;
use str_base::SessionId;
use str_model::Input;
use str_outer::Clock;

/// A client step of a session with a reading of the clock, where it is not idle. It answers false where the turn is broken off.
fn move_one<C: Clock, G>(n: &mut RaceNode<C, G>, session: SessionId) -> bool
    requires seat { IsSeat (seat_of n.old) }
    ensures moved { IsTrue result → Moved (session ∷ []) (seat_of n.old) (seat_of n.new) }
    ensures broken { IsFalse result → BrokenOff 1 (seat_of n.old) (seat_of n.new) }
    ensures readings { IsTrue result → Gave (C.given n.old.clock) (C.given n.new.clock) (readings_since n.old.log n.new.log) }
{
    if n.node.client_idle(session) {
        return true;
    }
    let stamp = n.stamp;
    if stamp >= LAST_STAMP {
        return false;
    }
    let reading = n.clock.now();
    let logged = LogInput::Client { session, reading };
    let input = Input::Client { session, reading };
    make_step(n, &input, logged, stamp + 1)
}

/// A client step of each session upwards for which it is not idle. It answers false where the turn is broken off.
pub(crate) fn move_all<C: Clock, G>(n: &mut RaceNode<C, G>) -> bool
    requires seat { IsSeat (seat_of n.old) }
    ensures moved { IsTrue result → Moved (first_sessions (length n.old.node.scene.sessions)) (seat_of n.old) (seat_of n.new) }
    ensures broken { IsFalse result → BrokenOff (length n.old.node.scene.sessions) (seat_of n.old) (seat_of n.new) }
    ensures readings { IsTrue result → Gave (C.given n.old.clock) (C.given n.new.clock) (readings_since n.old.log n.new.log) }
{
    for place in 0..n.node.scene().sessions().len() {
        if !move_one(n, SessionId(place as u8 + 1)) {
            return false;
        }
    }
    true
}
