//! One step of a node of a race.
ghost use Rattle.std.specs.Prelude.{◌≡◌, ◌≤◌, ◌^◌, IsTrue};
ghost use Rattle.race_round.specs.Nodes.{HasRoom, Roomed, seat_of};
ghost use Rattle.race_round.specs.Seats.{IsSeat};
ghost use Rattle.race_round.specs.Stretches.{Tried};

use crate::nodes::RaceNode;
use crate::sends::send_all;
use lamport_log::LogInput;
use str_model::Input;

/// The last stamp.
pub(crate) const LAST_STAMP: u64 = 1 << 62;

/// Makes room for a step, its entry and its parcels, and empties the outbox. It answers false where memory is wanting.
fn make_room<C, G>(n: &mut RaceNode<C, G>, input: &Input) -> bool
    ensures roomed { Roomed n.old n.new }
    ensures room { IsTrue result → HasRoom input.now n.new }
{
    n.out.clear();
    let Ok(room) = n.node.ready(input, &mut n.out) else {
        return false;
    };
    if room > u32::MAX as usize {
        return false;
    }
    n.log.reserve(room + 1).is_ok() && n.ends.ready(room).is_ok()
}

/// Steps on an input, enters the step under this stamp, and sends what it sent. It answers false where memory is wanting, and then the node wants.
pub(crate) fn make_step<C, G>(
    n: &mut RaceNode<C, G>,
    input: &Input,
    logged: LogInput,
    stamp: u64,
) -> bool
    requires seat { IsSeat (seat_of n.old) }
    requires stamp { stamp ≤ 2 ^ 62 }
    ensures tried { Tried (seat_of n.old) (seat_of n.new) input.now logged stamp result }
    ensures clock { n.new.clock ≡ n.old.clock }
{
    if !make_room(n, input) {
        n.wanting = true;
        return false;
    }
    let nodes = n.node.scene().nodes();
    let before = n.log.messages().len() as u64;
    let moves = n.node.step(input, &mut n.out);
    let messages = n.out.messages().as_slice();
    n.log.enter(stamp, logged, !moves, messages, n.out.answers().as_slice());
    n.stamp = stamp;
    if !send_all(&mut n.ends, messages, before, stamp, nodes) {
        n.wanting = true;
        return false;
    }
    true
}
