//! How parcels move from a ring and a backlog into an inbox.
ghost use Rattle.std.specs.Prelude.{◌≡◌, ◌+◌, ◌≤◌, ◌++◌, [], length, OnOk};
ghost use Rattle.std.specs.VecDeque.{deque_len, deque_capacity};
ghost use Rattle.rtrb.specs.Ring.{received, known_items, SameConsumer};

use crate::parcel::Parcel;
use rtrb::Consumer;
use std::alloc::AllocError;
use std::collections::VecDeque;

// Moves all parcels that are known to be in the ring to the back of the inbox.
fn pour(from: &mut Consumer<Parcel>, inbox: &mut VecDeque<Parcel>)
    requires { deque_len inbox.old + length (known_items from.old) ≤ deque_capacity inbox.old }
    ensures ring { SameConsumer from.old from.new }
    ensures got { received from.new ≡ received from.old ++ known_items from.old }
    ensures known { known_items from.new ≡ [] }
    ensures inbox { inbox.new.items ≡ inbox.old.items ++ known_items from.old }
    ensures capacity { deque_capacity inbox.new ≡ deque_capacity inbox.old }
{
    let count = from.cached_slots();
    for _ in 0..count {
        let parcel = from.pop_known();
        inbox.push_back_reserved(parcel);
    }
}

// Makes room in an inbox for what is known to be in the ring and for a backlog.
pub(crate) fn make_room(
    inbox: &mut VecDeque<Parcel>,
    known: usize,
    backlog: &VecDeque<Parcel>,
) -> Result<(), AllocError>
    ensures inbox { inbox.new.items ≡ inbox.old.items }
    ensures room { OnOk result
        ((deque_len inbox.new + known) + deque_len backlog.now ≤ deque_capacity inbox.new) }
{
    let Some(all) = known.checked_add(backlog.len()) else {
        return Err(AllocError);
    };
    inbox.reserve(all)
}

// Moves all that is known to be in the ring, and then the backlog, to the back of the inbox.
pub(crate) fn finish(
    backlog: &mut VecDeque<Parcel>,
    from: &mut Consumer<Parcel>,
    inbox: &mut VecDeque<Parcel>,
)
    requires { (deque_len inbox.old + length (known_items from.old)) + deque_len backlog.old
        ≤ deque_capacity inbox.old }
    ensures ring { SameConsumer from.old from.new }
    ensures got { received from.new ≡ received from.old ++ known_items from.old }
    ensures known { known_items from.new ≡ [] }
    ensures backlog { backlog.new.items ≡ [] }
    ensures room { (deque_capacity backlog.new ≡ deque_capacity backlog.old)
        × (deque_len backlog.new ≡ 0) }
    ensures inbox { inbox.new.items
        ≡ (inbox.old.items ++ known_items from.old) ++ backlog.old.items }
{
    pour(from, inbox);
    let _fits = inbox.append(backlog);
}
