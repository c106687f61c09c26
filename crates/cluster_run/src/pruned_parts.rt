//! The parts of a cluster that prunes, with the room of each in sight.
ghost use Rattle.cluster_run.specs.Clusters.{ArePlaced, Entered, MayHappen, world_of};
ghost use Rattle.cluster_run.specs.Marks.{hearing};
ghost use Rattle.cluster_run.specs.PrunedStates.{PrunedComes, pruned_of, settled};
ghost use Rattle.std.specs.Prelude.{◌≡◌, ◌≤◌, ◌-◌, IfOk, List, OnErr, OnOk, length, not, ℕ};
ghost use Rattle.str_model.specs.PrunedRuns.{hears, pruned_happens};

use crate::marks::{CarriedMarks, HeardMarks, Told, hear_at};
use crate::members::{low_at, prune_at};
use crate::parts::Parts;
use std::alloc::AllocError;
use str_scene::Event;

/// The parts of the cluster, for each message the low mark of its sender, and for each node what it has heard of each node.
#[derive(Drop)]
pub(crate) struct PrunedParts {
    pub cluster: Parts,
    pub carried: CarriedMarks,
    pub heard: Vec<HeardMarks>,
}

impl PrunedParts {
    /// What an event tells the node that it happens at.
    fn told(&self, event: &Event) -> Option<Told>
        ensures { (row : List ℕ) → hears (pruned_of self.now) event.now row ≡ hearing result row }
    {
        let Event::Deliver { index } = event else {
            return None;
        };
        let Some(place) = self.cluster.sender_of(*index) else {
            return None;
        };
        let Some(mark) = self.carried.get(*index) else {
            return None;
        };
        Some(Told { place, mark })
    }

    /// After an event that was not idle: its node hears what it was told and prunes, and the messages that were sent carry its low mark. Before the event so
    /// many messages had been `sent`.
    fn settle(&mut self, taker: Option<usize>, told: Option<Told>, sent: usize)
        requires placed { ArePlaced self.old.cluster.scene self.old.cluster.nodes.items }
        requires sent { sent ≤ length self.old.cluster.out.messages }
        requires room { length self.old.cluster.out.messages - sent ≤ self.old.carried.spare }
        ensures { PrunedComes (settled taker told sent (pruned_of self.old)) self.old self.new }
    {
        let Some(place) = taker else {
            return;
        };
        if place >= self.cluster.nodes.len() {
            return;
        }
        let low = low_at(&self.cluster.nodes, place);
        let bound = hear_at(&mut self.heard, place, told, low);
        prune_at(&mut self.cluster.nodes, place, bound);
        self.carried
            .extend(self.cluster.out.messages().len() - sent, low);
    }

    /// One event. False exactly where it is idle; the journal grows by it all the same. Where memory is wanting nothing has happened.
    pub fn event(&mut self, event: Event) -> Result<bool, AllocError>
        requires { MayHappen self.old.cluster event }
        ensures ok { OnOk result (PrunedComes (pruned_happens self.old.cluster.scene (pruned_of self.old) event) self.old self.new) }
        ensures idle { IfOk result (λ moves. Entered event (not moves) (world_of self.old.cluster) (world_of self.new.cluster)) }
        ensures err { OnErr result (PrunedComes (pruned_of self.old) self.old self.new) }
    {
        let room = self.cluster.room_for(&event)?;
        self.carried.reserve(room)?;
        let sent = self.cluster.out.messages().len();
        let place = self.cluster.taker(&event);
        let news = self.told(&event);
        let moves = self.cluster.event(event)?;
        if moves {
            self.settle(place, news, sent);
            return Ok(true);
        }
        Ok(false)
    }
}
