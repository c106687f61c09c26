//! A cluster that prunes, and its run.
ghost use Rattle.cluster_run.specs.Clusters.{Entered};
ghost use Rattle.cluster_run.specs.Printing.{counted};
ghost use Rattle.cluster_run.specs.PrunedStates.{IsPrunedRun, PartOfDrain, PartOfSchedule, kept_versions, pruned_drained_from};
ghost use Rattle.spsi_laws.specs.Laws.Ends.{Ended};
ghost use Rattle.std.specs.Prelude.{◌≡◌, ◌-◌, ◌^◌, IfOk, None, OnErr, OnOk, min, not};
ghost use Rattle.str_model.specs.Drains.{next_event};
ghost use Rattle.str_model.specs.Lines.{counts};
ghost use Rattle.str_model.specs.PrunedRuns.{pruned_from, pruned_happens, pruned_opening};
ghost use Rattle.str_scene.specs.SceneLimits.{IsScene};

use crate::flags::GivenFlags;
use crate::lines::Counts;
use crate::marks::{CarriedMarks, nothing_heard};
use crate::members::{kept_among, opening_nodes};
use crate::parts::Parts;
use crate::pruned_parts::PrunedParts;
use node_core::Outbox;
use std::alloc::{AllocError, Global};
use std::marker::{Model, Send, Sync};
use str_model::{Answer, Done};
use str_scene::{Event, KeyTable, Scene};

/// A cluster whose nodes drop each version that no later snapshot can see. Each message carries its sender's low mark, and each node keeps the greatest
/// that it has heard of each other node; after an event that is not idle its node drops what is hidden at the least of its own low mark and these. It is
/// seen as its scene and the state of a cluster that prunes, which is always the pruned run of its journal.
#[derive(Drop)]
pub struct PrunedCluster {
    parts: PrunedParts,
}

impl Model for PrunedCluster {
    ghost use Rattle.cluster_run.specs.PrunedStates.{IsPrunedCluster, PrunedState, pruned_of};

    ghost Value = { PrunedState };

    ghost view = { λ c. record { scene = c.parts.cluster.scene; state = pruned_of c.parts } };

    ghost invariant = { λ c. IsPrunedCluster c.parts };
}

impl PrunedCluster {
    /// The cluster of a scene at its beginning. The error is want of memory.
    pub fn new(alloc: Global, scene: Scene) -> Result<PrunedCluster, AllocError>
        ensures scene { IfOk result (λ c. c.scene ≡ scene) }
        ensures state { IfOk result (λ c. c.state ≡ pruned_opening scene) }
    {
        let nodes = opening_nodes(alloc, &scene)?;
        let heard = nothing_heard(alloc, scene.nodes() as usize)?;
        Ok(PrunedCluster {
            parts: PrunedParts {
                cluster: Parts {
                    scene,
                    nodes,
                    out: Outbox::new(alloc),
                    given: GivenFlags::new(alloc),
                    journal: Vec::new(alloc),
                },
                carried: CarriedMarks::new(alloc),
                heard,
            },
        })
    }

    /// The scene. The state is the pruned run of its journal.
    pub fn scene(&self) -> &Scene
        ensures value { result.now ≡ self.now.scene }
        ensures limits { IsScene self.now.scene }
        ensures run { IsPrunedRun self.now.scene self.now.state }
    {
        &self.parts.cluster.scene
    }

    /// The table of keys.
    pub fn keys(&self) -> &KeyTable
        ensures { result.now ≡ self.now.scene.keys }
    {
        self.parts.cluster.scene.keys()
    }

    /// The events in the order in which they happened, each with whether it was idle and how many answers it released.
    pub fn journal(&self) -> &Vec<Done>
        ensures { result.now.items ≡ self.now.state.world.journal }
    {
        &self.parts.cluster.journal
    }

    /// The answers in the order in which they were released.
    pub fn answers(&self) -> &Vec<Answer>
        ensures { result.now.items ≡ self.now.state.world.answers }
    {
        self.parts.cluster.out.answers()
    }

    /// Does one event, and answers false exactly where it is idle; the journal grows by it all the same. The state is the pruned run of the journal again.
    ///
    /// # Errors
    ///
    /// Where memory is wanting nothing has happened.
    pub fn event(&mut self, event: Event) -> Result<bool, AllocError>
        ensures scene { self.new.scene ≡ self.old.scene }
        ensures ok { OnOk result (self.new.state ≡ pruned_happens self.old.scene self.old.state event) }
        ensures idle { IfOk result (λ moves. Entered event (not moves) self.old.state.world self.new.state.world) }
        ensures run { IsPrunedRun self.new.scene self.new.state }
        ensures err { OnErr result (self.new ≡ self.old) }
    {
        self.parts.event(event)
    }

    /// The event that the drain's rule names. None where it stops.
    fn next_event(&self) -> Option<Event>
        ensures event { result ≡ next_event self.now.scene self.now.state.world }
        ensures limits { IsScene self.now.scene }
        ensures run { IsPrunedRun self.now.scene self.now.state }
    {
        self.parts.cluster.next_event()
    }

    /// Does the events of the scene's schedule.
    ///
    /// # Errors
    ///
    /// Where memory is wanting the first of these events have happened, and the journal says which.
    pub fn run_schedule(&mut self) -> Result<(), AllocError>
        ensures scene { self.new.scene ≡ self.old.scene }
        ensures ok { OnOk result (self.new.state ≡ pruned_from self.old.scene self.old.state self.old.scene.schedule) }
        ensures run { IsPrunedRun self.new.scene self.new.state }
        ensures err { OnErr result (PartOfSchedule self.old.scene self.old.state self.new.state) }
    {
        for i in 0..self.scene().schedule().len() {
            let event = self.scene().schedule()[i];
            self.event(event)?;
        }
        Ok(())
    }

    /// Drains the cluster: repeats the drain's next event until its rule names none. Then every message was given, every client step is idle, every
    /// transaction is answered, and none is held or has still to begin.
    ///
    /// # Errors
    ///
    /// Where memory is wanting the first of these events have happened, and the journal says which.
    pub fn drain(&mut self) -> Result<(), AllocError>
        ensures scene { self.new.scene ≡ self.old.scene }
        ensures ok { OnOk result (self.new.state ≡ pruned_drained_from self.old.scene self.old.state) }
        ensures stop { OnOk result (next_event self.new.scene self.new.state.world ≡ None) }
        ensures ended { OnOk result (Ended self.new.scene self.new.state.world) }
        ensures run { IsPrunedRun self.new.scene self.new.state }
        ensures err { OnErr result (PartOfDrain self.old.scene self.old.state self.new.state) }
    {
        while let Some(event) = self.next_event() {
            self.event(event)?;
        }
        Ok(())
    }

    /// The numbers of the last line.
    pub fn counts(&self) -> Counts
        ensures { counted result ≡ counts self.now.scene self.now.state.world }
    {
        self.parts.cluster.counts()
    }

    /// How many versions all nodes have; the greatest `u64` where there are more.
    pub fn kept(&self) -> u64
        ensures { result ≡ min (kept_versions self.now.state.world) (2 ^ 64 - 1) }
    {
        kept_among(self.parts.cluster.nodes.as_slice())
    }
}

fn sendable<T: Send + Sync>(_: &T) {}

fn all_sendable(cluster: &PrunedCluster) {
    sendable(cluster);
}
