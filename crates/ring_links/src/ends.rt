//! All ends of a node.
ghost use Rattle.std.specs.Prelude.{◌≡◌, ◌≢◌, ◌≤◌, ◌<◌, OnOk, OnErr, IsTrue, []};
ghost use Rattle.ring_links.specs.declared.link.Link.{Link};
ghost use Rattle.ring_links.specs.Links.{spare, SameLink, Sends, Takes, Settled, Unmoved, InOrder};
ghost use Rattle.ring_links.specs.Ends.{place_of, Other, link_to, CanSend, OnlyLink, Meet, AllStay, AllHaveRoom, Joins};

use crate::link::Link;
use crate::parcel::Parcel;
use std::alloc::{AllocError, Global};
use std::marker::{Model, Send};
use str_base::NodeId;

/// A node's ends of its rings, one link for each other node, in order of node. Contracts see the
/// node and the links.
#[derive(Drop)]
pub struct NodeEnds {
    node: NodeId,
    links: Vec<Link>,
}

impl Model for NodeEnds {
    ghost use Rattle.std.specs.Prelude.{◌≤◌};
    ghost use Rattle.ring_links.specs.Ends.{Ends};

    ghost Value = { Ends };

    ghost view = { λ e. record { node = e.node.0; links = e.links.items } };

    ghost invariant = { λ e. 1 ≤ e.node.0 };
}

// Where a node's link to another node stands.
fn place(node: NodeId, other: NodeId) -> usize
    requires { (other.0 ≢ node.0) × (1 ≤ other.0) × (1 ≤ node.0) }
    ensures { result ≡ place_of node.0 other.0 }
{
    if other.0 < node.0 {
        usize::from(other.0) - 1
    } else {
        usize::from(other.0) - 2
    }
}

// Makes room for `n` parcels in each backlog.
fn ready_all(links: &mut Vec<Link>, n: usize) -> Result<(), AllocError>
    ensures stays { AllStay links.old.items links.new.items }
    ensures room { OnOk result (AllHaveRoom links.new.items n) }
{
    for place in 0..links.len() {
        links[place].ready(n)?;
    }
    Ok(())
}

impl NodeEnds {
    /// The node.
    pub fn node(&self) -> NodeId
        ensures { result.0 ≡ self.now.node }
    {
        self.node
    }

    /// Whether this is another node with which this one has rings.
    pub fn has(&self, other: NodeId) -> bool
        ensures { IsTrue result → Other self.now other.0 }
    {
        other.0 != self.node.0 && 1 <= other.0 && place(self.node, other) < self.links.len()
    }

    // The ends of a node that has no rings yet.
    pub(crate) fn alone(alloc: Global, node: NodeId) -> NodeEnds
        requires { 1 ≤ node.0 }
        ensures { (result.node ≡ node.0) × (result.links ≡ []) }
    {
        NodeEnds {
            node,
            links: Vec::new(alloc),
        }
    }

    // Makes the two rings between this node and a later one.
    pub(crate) fn join(&mut self, alloc: Global, later: &mut NodeEnds) -> Result<(), AllocError>
        ensures nodes { (self.new.node ≡ self.old.node) × (later.new.node ≡ later.old.node) }
        ensures joined { OnOk result (Joins self.old self.new later.old later.new) }
    {
        let (one, two) = Link::pair(alloc)?;
        self.links.push(one)?;
        later.links.push(two)?;
        Ok(())
    }

    /// Makes room for `n` parcels in each backlog.
    ///
    /// # Errors
    ///
    /// Memory was wanting. No parcel has moved, then or else.
    pub fn ready(&mut self, n: usize) -> Result<(), AllocError>
        ensures node { self.new.node ≡ self.old.node }
        ensures stays { AllStay self.old.links self.new.links }
        ensures room { OnOk result (AllHaveRoom self.new.links n) }
    {
        ready_all(&mut self.links, n)
    }

    /// Sends a parcel to its message's receiver, in the order of the sends: into the ring, or into
    /// the backlog where there is one already or where no place of the ring is known to be free.
    pub fn send(&mut self, p: Parcel)
        requires other { Other self.old p.message.receiver.0 }
        requires room { CanSend self.old p.message.receiver.0 }
        ensures only { OnlyLink self.old self.new p.message.receiver.0 }
        ensures sent { (d : Link) → Sends p (link_to self.old p.message.receiver.0 d)
            (link_to self.new p.message.receiver.0 d) }
    {
        let place = place(self.node, p.message.receiver);
        let link = &mut self.links[place];
        link.send(p);
    }

    /// Takes the next parcel from this sender: the first of the inbox, or else the next of the
    /// ring. None comes only where none is known of.
    pub fn take(&mut self, sender: NodeId) -> Option<Parcel>
        requires other { Other self.old sender.0 }
        ensures only { OnlyLink self.old self.new sender.0 }
        ensures taken { (d : Link) → Takes result (link_to self.old sender.0 d)
            (link_to self.new sender.0 d) }
    {
        let place = place(self.node, sender);
        let link = &mut self.links[place];
        link.take()
    }

    /// Moves all that is under way between two nodes into their inboxes, in order: what is in the
    /// rings, and then the backlogs. Both ends are of one call of `links`.
    ///
    /// # Errors
    ///
    /// Memory was wanting, and no parcel has moved.
    pub fn settle(&mut self, other: &mut NodeEnds) -> Result<(), AllocError>
        requires here { Other self.old other.old.node }
        requires there { Other other.old self.old.node }
        requires meet { Meet self.old other.old }
        ensures only { OnlyLink self.old self.new other.old.node
            × OnlyLink other.old other.new self.old.node }
        ensures same_here { (d : Link) → SameLink (link_to self.old other.old.node d)
            (link_to self.new other.old.node d) }
        ensures same_there { (d : Link) → SameLink (link_to other.old self.old.node d)
            (link_to other.new self.old.node d) }
        ensures here { OnOk result ((d : Link) → Settled (link_to other.old self.old.node d)
            (link_to self.old other.old.node d) (link_to other.new self.old.node d)
            (link_to self.new other.old.node d)) }
        ensures there { OnOk result ((d : Link) → Settled (link_to self.old other.old.node d)
            (link_to other.old self.old.node d) (link_to self.new other.old.node d)
            (link_to other.new self.old.node d)) }
        ensures err_here { OnErr result ((d : Link) → Unmoved (link_to other.old self.old.node d)
            (link_to self.old other.old.node d) (link_to other.new self.old.node d)
            (link_to self.new other.old.node d)) }
        ensures err_there { OnErr result ((d : Link) → Unmoved (link_to self.old other.old.node d)
            (link_to other.old self.old.node d) (link_to self.new other.old.node d)
            (link_to other.new self.old.node d)) }
        ensures room_here { (d : Link) → spare (link_to self.old other.old.node d)
            ≤ spare (link_to self.new other.old.node d) }
        ensures room_there { (d : Link) → spare (link_to other.old self.old.node d)
            ≤ spare (link_to other.new self.old.node d) }
        ensures was_there { (d : Link) → InOrder (link_to self.old other.old.node d)
            (link_to other.old self.old.node d) }
        ensures was_here { (d : Link) → InOrder (link_to other.old self.old.node d)
            (link_to self.old other.old.node d) }
        ensures order_there { (d : Link) → InOrder (link_to self.new other.old.node d)
            (link_to other.new self.old.node d) }
        ensures order_here { (d : Link) → InOrder (link_to other.new self.old.node d)
            (link_to self.new other.old.node d) }
    {
        let here = place(self.node, other.node);
        let there = place(other.node, self.node);
        let mine = &mut self.links[here];
        let theirs = &mut other.links[there];
        mine.settle(theirs)
    }
}

fn sendable<T: Send>(_: &T) {}

fn ends_are_sendable(ends: &NodeEnds) {
    sendable(ends);
}
