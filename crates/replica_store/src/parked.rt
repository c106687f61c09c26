//! Those who wait at a node.
ghost use Rattle.std.specs.List.{list_any};
ghost use Rattle.std.specs.Prelude.{◌≡◌, ◌<◌, ◌≤◌, ◌+◌, ◌++◌, ◌∷◌, [], IfNone, IfSome, OnErr, OnOk, Some, length, option_copied, remove, slice_get};
ghost use Rattle.str_model.specs.Arrivals.{waits_read};
ghost use Rattle.str_model.specs.Proposals.{holds_pair};
ghost use Rattle.str_model.specs.Steps.{drop_held};

use std::alloc::{AllocError, Global};
use std::marker::{Model, Send, Sync};
use str_base::{KeyId, PartId, TxId};
use str_model::Waiter;

/// Waiting reads of other nodes and parked Prepares in order of arrival, and room for more that takes no memory.
/// They are seen as the list of those who wait and the number `spare` of those that still have room.
#[derive(Drop)]
pub struct Parked {
    items: Vec<Waiter>,
}

impl Model for Parked {
    ghost use Rattle.std.specs.Prelude.{◌-◌, vec_len, vec_capacity};
    ghost use Rattle.replica_store.specs.StoreLists.{ParkedList};

    ghost Value = { ParkedList };

    ghost view = { λ p. record { waiters = p.items.items; spare = vec_capacity p.items - vec_len p.items } };
}

/// Whether it is a parked Prepare of a pair.
fn is_held(waiter: &Waiter, tx: TxId, part: PartId) -> bool
    ensures { result ≡ holds_pair tx part waiter.now }
{
    match waiter {
        Waiter::Read { .. } => false,
        Waiter::Held(arrived) => arrived.tx == tx && arrived.part == part,
    }
}

/// Whether it is a waiting read of a key by a transaction.
fn is_read(waiter: &Waiter, tx: TxId, key: KeyId) -> bool
    ensures { result ≡ waits_read tx key waiter.now }
{
    match waiter {
        Waiter::Read {
            tx: reader,
            key: read,
            ..
        } => *reader == tx && *read == key,
        Waiter::Held(_) => false,
    }
}

/// The place of the first parked Prepare of a pair.
fn place_of(waiters: &[Waiter], tx: TxId, part: PartId) -> Option<usize>
    ensures some { IfSome result (λ i. (i < length waiters.now) × (drop_held tx part waiters.now ≡ remove waiters.now i)) }
    ensures none { IfNone result (drop_held tx part waiters.now ≡ waiters.now) }
{
    for i in 0..waiters.len() {
        if is_held(&waiters[i], tx, part) {
            return Some(i);
        }
    }
    None
}

impl Parked {
    /// Nobody waits.
    pub fn new(alloc: Global) -> Parked
        ensures { result.waiters ≡ [] }
    {
        Parked {
            items: Vec::new(alloc),
        }
    }

    /// Makes room for `n` more at least. After an error all is as before.
    pub fn reserve(&mut self, n: usize) -> Result<(), AllocError>
        ensures waiters { self.new.waiters ≡ self.old.waiters }
        ensures room { OnOk result (n ≤ self.new.spare) }
        ensures kept { self.old.spare ≤ self.new.spare }
        ensures err { OnErr result (self.new ≡ self.old) }
    {
        self.items.reserve(n)
    }

    /// Whether a Prepare of a pair is parked.
    pub fn has(&self, tx: TxId, part: PartId) -> bool
        ensures { result ≡ list_any (holds_pair tx part) self.now.waiters }
    {
        for waiter in self.items.as_slice() {
            if is_held(waiter, tx, part) {
                return true;
            }
        }
        false
    }

    /// Whether a read of a key by a transaction waits.
    pub fn has_read(&self, tx: TxId, key: KeyId) -> bool
        ensures { result ≡ list_any (waits_read tx key) self.now.waiters }
    {
        for waiter in self.items.as_slice() {
            if is_read(waiter, tx, key) {
                return true;
            }
        }
        false
    }

    /// Appends one. There is room.
    pub fn add(&mut self, waiter: Waiter)
        requires { 0 < self.old.spare }
        ensures waiters { self.new.waiters ≡ self.old.waiters ++ waiter ∷ [] }
        ensures spare { self.old.spare ≤ self.new.spare + 1 }
    {
        self.items.push_reserved(waiter);
    }

    /// Takes the `i`-th out.
    pub fn take(&mut self, i: usize) -> Waiter
        requires { i < length self.old.waiters }
        ensures value { slice_get self.old.waiters i ≡ Some result }
        ensures waiters { self.new.waiters ≡ remove self.old.waiters i }
        ensures spare { self.old.spare ≤ self.new.spare }
    {
        self.items.remove(i)
    }

    /// How many wait.
    pub fn len(&self) -> usize
        ensures { result ≡ length self.now.waiters }
    {
        self.items.len()
    }

    /// The `i`-th from 0.
    pub fn get(&self, i: usize) -> Option<&Waiter>
        ensures { option_copied result ≡ slice_get self.now.waiters i }
    {
        self.items.as_slice().get(i)
    }

    /// Takes the first parked Prepare of a pair out, where there is one. All else stays.
    pub fn drop_one(&mut self, tx: TxId, part: PartId)
        ensures waiters { self.new.waiters ≡ drop_held tx part self.old.waiters }
        ensures spare { self.old.spare ≤ self.new.spare }
    {
        if let Some(i) = place_of(self.items.as_slice(), tx, part) {
            self.items.remove(i);
        }
    }
}

fn sendable<T: Send + Sync>(_: &T) {}

fn all_sendable(parked: &Parked) {
    sendable(parked);
}

#[cfg(test)]
mod tests {
    use super::*;
    use std::test::Fail;
    use str_base::{NodeId, Ts, Writes};
    use str_model::Arrived;

    fn tx(seq: u32) -> TxId {
        TxId {
            node: NodeId(2),
            seq,
        }
    }

    fn prepare(seq: u32) -> Waiter {
        Waiter::Held(Arrived {
            tx: tx(seq),
            part: PartId(1),
            rs: Ts(5),
            lc: Ts(6),
            writes: Writes::new(),
        })
    }

    #[test]
    fn waiters_in_order_of_arrival(rt: HostRuntime) -> Result<(), Fail> {
        let mut parked = Parked::new(rt.alloc());
        parked.reserve(3)?;
        parked.add(Waiter::Read {
            tx: tx(1),
            key: KeyId(4),
            rs: Ts(9),
        });
        parked.add(prepare(1));
        parked.add(prepare(3));
        let cases = [(1, true, true), (2, false, false), (3, true, false)];
        for (seq, held, read) in cases {
            assert_eq!(rt; parked.has(tx(seq), PartId(1)), held);
            assert_eq!(rt; parked.has_read(tx(seq), KeyId(4)), read);
        }
        assert!(rt; is_held(&parked.take(2), tx(3), PartId(1)));
        parked.drop_one(tx(1), PartId(1));
        assert!(rt; !parked.has(tx(1), PartId(1)));
        assert!(rt; parked.has_read(tx(1), KeyId(4)));
        assert!(rt; parked.get(0).is_some());
        assert!(rt; parked.get(1).is_none());
        Ok(())
    }
}
