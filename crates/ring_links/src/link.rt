//! The two rings between a node and one other, with a backlog and an inbox.
ghost use Rattle.std.specs.Prelude.{◌≡◌, ◌⊎◌, ◌+◌, ◌<◌, ◌≤◌, ◌++◌, ◌∷◌, [], length, IfOk, OnOk, OnErr, IfSome, IfNone};
ghost use Rattle.ring_links.specs.Links.{put, got, known, free, waiting, arrived, IsFresh, AreLinked, SameLink, spare, Stays, InOrder, Settled, Unmoved};

use crate::moves::{finish, make_room};
use crate::parcel::Parcel;
use rtrb::{Consumer, Producer, PushError, RingBuffer};
use std::alloc::{AllocError, Global};
use std::collections::VecDeque;
use std::marker::Send;

/// How many parcels a ring holds.
const PLACES: usize = 1024;

/// A node's side of the two rings between it and one other node: the ring to the other node and the
/// ring from it, the parcels that wait for a place in the ring, and those that have arrived and
/// were not taken.
#[derive(Drop)]
pub struct Link {
    pub to: Producer<Parcel>,
    pub from: Consumer<Parcel>,
    pub backlog: VecDeque<Parcel>,
    pub inbox: VecDeque<Parcel>,
}

impl Link {
    /// The two sides of two new rings. All their lists are empty.
    ///
    /// # Errors
    ///
    /// Memory was wanting.
    pub fn pair(alloc: Global) -> Result<(Link, Link), AllocError>
        ensures linked { IfOk result (λ r. AreLinked r.0 r.1) }
        ensures fresh { IfOk result (λ r. IsFresh r.0) }
        ensures fresh_too { IfOk result (λ r. IsFresh r.1) }
    {
        let (there, here) = RingBuffer::new(alloc, PLACES)?;
        let (back, home) = RingBuffer::new(alloc, PLACES)?;
        let one = Link {
            to: there,
            from: home,
            backlog: VecDeque::new(alloc),
            inbox: VecDeque::new(alloc),
        };
        let two = Link {
            to: back,
            from: here,
            backlog: VecDeque::new(alloc),
            inbox: VecDeque::new(alloc),
        };
        Ok((one, two))
    }

    /// Makes room for `n` parcels in the backlog.
    ///
    /// # Errors
    ///
    /// Memory was wanting. No parcel has moved, then or else.
    pub fn ready(&mut self, n: usize) -> Result<(), AllocError>
        ensures stays { Stays self.old self.new }
        ensures room { OnOk result (n ≤ spare self.new) }
    {
        self.backlog.reserve(n)
    }

    /// Sends a parcel: into the ring, or into the backlog where there is one already or where no
    /// place of the ring is known to be free.
    pub fn send(&mut self, p: Parcel)
        requires { 0 < spare self.old }
        ensures ring { SameLink self.old self.new }
        ensures behind { 0 < length (waiting self.old)
            → (put self.new ≡ put self.old) × (waiting self.new ≡ waiting self.old ++ p ∷ []) }
        ensures ahead { length (waiting self.old) ≡ 0
            → ((put self.new ≡ put self.old ++ p ∷ []) × (waiting self.new ≡ []))
            ⊎ ((put self.new ≡ put self.old) × (waiting self.new ≡ p ∷ []) × (free self.old ≡ 0)) }
        ensures others { (got self.new ≡ got self.old) × (arrived self.new ≡ arrived self.old)
            × (known self.new ≡ known self.old) }
        ensures room { spare self.old ≤ spare self.new + 1 }
    {
        if !self.backlog.is_empty() {
            self.backlog.push_back_reserved(p);
            return;
        }
        match self.to.push(p) {
            Ok(()) => {}
            Err(PushError::Full(back)) => self.backlog.push_back_reserved(back),
        }
    }

    /// Takes the first parcel of the inbox, or else the next one of the ring. None comes only where
    /// none is known of.
    pub fn take(&mut self) -> Option<Parcel>
        ensures ring { SameLink self.old self.new }
        ensures inbox { 0 < length (arrived self.old)
            → (IfSome result (λ p. arrived self.old ≡ p ∷ arrived self.new))
            × (got self.new ≡ got self.old) }
        ensures from_ring { length (arrived self.old) ≡ 0
            → (arrived self.new ≡ []) × IfSome result (λ p. got self.new ≡ got self.old ++ p ∷ []) }
        ensures none { IfNone result ((arrived self.old ≡ []) × (known self.old ≡ [])
            × (known self.new ≡ []) × (got self.new ≡ got self.old)) }
        ensures others { (put self.new ≡ put self.old) × (waiting self.new ≡ waiting self.old) }
        ensures room { spare self.new ≡ spare self.old }
    {
        if let Some(p) = self.inbox.pop_front() {
            return Some(p);
        }
        self.from.pop().ok()
    }

    /// Moves all that is under way between the two sides into the inboxes: what is in the rings, and
    /// then the backlogs.
    ///
    /// # Errors
    ///
    /// Memory was wanting, and no parcel has moved.
    pub fn settle(&mut self, other: &mut Link) -> Result<(), AllocError>
        requires { AreLinked self.old other.old }
        ensures ring { SameLink self.old self.new × SameLink other.old other.new }
        ensures here { OnOk result (Settled other.old self.old other.new self.new) }
        ensures there { OnOk result (Settled self.old other.old self.new other.new) }
        ensures err_here { OnErr result (Unmoved other.old self.old other.new self.new) }
        ensures err_there { OnErr result (Unmoved self.old other.old self.new other.new) }
        ensures was_in_order { InOrder self.old other.old × InOrder other.old self.old }
        ensures in_order { InOrder self.new other.new × InOrder other.new self.new }
        ensures room { (spare self.old ≤ spare self.new) × (spare other.old ≤ spare other.new) }
    {
        let here = self.from.slots_beside(&mut other.to);
        let there = other.from.slots_beside(&mut self.to);
        make_room(&mut self.inbox, here, &other.backlog)?;
        make_room(&mut other.inbox, there, &self.backlog)?;
        finish(&mut other.backlog, &mut self.from, &mut self.inbox);
        finish(&mut self.backlog, &mut other.from, &mut other.inbox);
        Ok(())
    }
}

fn sendable<T: Send>(_: &T) {}

fn links_are_sendable(link: &Link) {
    sendable(link);
}
