//! A cluster, and its run.
ghost use Rattle.cluster_run.specs.Clusters.{ArePlaced, Entered, IsRun, PartlyDrained, PartlyScheduled, drained_from, resumed};
ghost use Rattle.cluster_run.specs.Printing.{counted};
ghost use Rattle.spsi_laws.specs.Laws.Ends.{Ended};
ghost use Rattle.std.specs.Prelude.{◌≡◌, ◌<◌, IfOk, IfSome, IsNone, None, OnErr, OnOk, length, not};
ghost use Rattle.str_model.specs.Drains.{next_event, next_message};
ghost use Rattle.str_model.specs.Lines.{counts};
ghost use Rattle.str_model.specs.Runs.{happens, opening, run_from};
ghost use Rattle.str_model.specs.Work.{left};
ghost use Rattle.str_scene.specs.SceneLimits.{IsScene};

use crate::flags::GivenFlags;
use crate::lines::Counts;
use crate::members::opening_nodes;
use crate::parts::Parts;
use node_core::{Node, Outbox};
use std::alloc::{AllocError, Global};
use std::marker::{Model, Send, Sync};
use str_model::{Answer, Done, Message};
use str_scene::{Event, KeyTable, Scene};

/// All nodes of a scene, the messages that were sent, the journal and the answers. It is seen as its scene and a world, which is always the
/// run of its journal.
#[derive(Drop)]
pub struct Cluster {
    parts: Parts,
}

impl Model for Cluster {
    ghost use Rattle.cluster_run.specs.Clusters.{ClusterState, IsCluster, world_of};

    ghost Value = { ClusterState };

    ghost view = { λ c. record { scene = c.parts.scene; world = world_of c.parts } };

    ghost invariant = { λ c. IsCluster c.parts };
}

impl Cluster {
    /// The cluster of a scene at its beginning. The error is want of memory.
    pub fn new(alloc: Global, scene: Scene) -> Result<Cluster, AllocError>
        ensures scene { IfOk result (λ c. c.scene ≡ scene) }
        ensures world { IfOk result (λ c. c.world ≡ opening scene) }
    {
        let nodes = opening_nodes(alloc, &scene)?;
        Ok(Cluster {
            parts: Parts {
                scene,
                nodes,
                out: Outbox::new(alloc),
                given: GivenFlags::new(alloc),
                journal: Vec::new(alloc),
            },
        })
    }

    /// The cluster of a scene that goes on from these nodes, messages, given flags, journal and answers, which are those of the run of
    /// that journal. The error is want of memory.
    pub fn resume(
        scene: Scene,
        nodes: Vec<Node>,
        sent: Vec<Message>,
        delivered: Vec<bool>,
        journal: Vec<Done>,
        answers: Vec<Answer>,
    ) -> Result<Cluster, AllocError>
        requires placed { ArePlaced scene nodes.items }
        requires run { IsRun scene (resumed nodes.items sent.items delivered.items journal.items answers.items) }
        ensures scene { IfOk result (λ c. c.scene ≡ scene) }
        ensures world { IfOk result (λ c. c.world ≡ resumed nodes.items sent.items delivered.items journal.items answers.items) }
    {
        Ok(Cluster {
            parts: Parts {
                scene,
                nodes,
                out: Outbox::holding(sent, answers),
                given: GivenFlags::holding(delivered),
                journal,
            },
        })
    }

    /// The scene. The world is the run of its journal.
    pub fn scene(&self) -> &Scene
        ensures value { result.now ≡ self.now.scene }
        ensures limits { IsScene self.now.scene }
        ensures run { IsRun self.now.scene self.now.world }
    {
        &self.parts.scene
    }

    /// The table of keys.
    pub fn keys(&self) -> &KeyTable
        ensures { result.now ≡ self.now.scene.keys }
    {
        self.parts.scene.keys()
    }

    /// The events in the order in which they happened, each with whether it was idle and how many answers it released.
    pub fn journal(&self) -> &Vec<Done>
        ensures { result.now.items ≡ self.now.world.journal }
    {
        &self.parts.journal
    }

    /// The answers in the order in which they were released.
    pub fn answers(&self) -> &Vec<Answer>
        ensures { result.now.items ≡ self.now.world.answers }
    {
        self.parts.out.answers()
    }

    /// How many messages were sent.
    pub fn sent(&self) -> u64
        ensures { result ≡ length self.now.world.sent }
    {
        self.parts.out.messages().len() as u64
    }

    /// The number, from 1, of the oldest message that was never given; none exactly where each was given.
    pub fn next_message(&self) -> Option<u64>
        ensures { result ≡ next_message self.now.world }
    {
        self.parts.given.next()
    }

    /// Does one event, and answers false exactly where it is idle; the journal grows by it all the same. The world is the run of the
    /// journal again.
    ///
    /// # Errors
    ///
    /// Where memory is wanting nothing has happened.
    pub fn event(&mut self, event: Event) -> Result<bool, AllocError>
        ensures scene { self.new.scene ≡ self.old.scene }
        ensures ok { OnOk result (self.new.world ≡ happens self.old.scene self.old.world event) }
        ensures idle { IfOk result (λ moves. Entered event (not moves) self.old.world self.new.world) }
        ensures run { IsRun self.new.scene self.new.world }
        ensures err { OnErr result (self.new ≡ self.old) }
    {
        self.parts.event(event)
    }

    /// The event that the drain's rule names. None where it stops.
    fn next_event(&self) -> Option<Event>
        ensures event { result ≡ next_event self.now.scene self.now.world }
        ensures limits { IsScene self.now.scene }
        ensures run { IsRun self.now.scene self.now.world }
    {
        self.parts.next_event()
    }

    /// Does the next event of the drain: it gives the oldest message that was never given, else it makes the client step with the reading 0 of the
    /// lowest session for which that is not idle. An event leaves less to do, so this ends. None exactly where that rule names no event; then nothing has changed.
    ///
    /// # Errors
    ///
    /// Where memory is wanting nothing has happened.
    pub fn drain_step(&mut self) -> Result<Option<Event>, AllocError>
        ensures scene { self.new.scene ≡ self.old.scene }
        ensures event { IfOk result (λ event. event ≡ next_event self.old.scene self.old.world) }
        ensures happens { IfOk result (λ event. IfSome event (λ e. self.new.world ≡ happens self.old.scene self.old.world e)) }
        ensures lowers { IfOk result (λ event. IfSome event (λ _. left self.new.scene self.new.world < left self.old.scene self.old.world)) }
        ensures stop { IfOk result (λ event. IsNone event → self.new ≡ self.old) }
        ensures run { IsRun self.new.scene self.new.world }
        ensures err { OnErr result (self.new ≡ self.old) }
    {
        let Some(event) = self.next_event() else {
            return Ok(None);
        };
        self.event(event)?;
        Ok(Some(event))
    }

    /// Drains the cluster: repeats the drain's next event until its rule names none. Then every message was given, every client step is idle, every
    /// transaction is answered, and none is held or has still to begin.
    ///
    /// # Errors
    ///
    /// Where memory is wanting the first of these events have happened, and the journal says which.
    pub fn drain(&mut self) -> Result<(), AllocError>
        ensures scene { self.new.scene ≡ self.old.scene }
        ensures ok { OnOk result (self.new.world ≡ drained_from self.old.scene self.old.world) }
        ensures stop { OnOk result (next_event self.new.scene self.new.world ≡ None) }
        ensures ended { OnOk result (Ended self.new.scene self.new.world) }
        ensures run { IsRun self.new.scene self.new.world }
        ensures err { OnErr result (PartlyDrained self.old.scene self.old.world self.new.world) }
    {
        while let Some(event) = self.next_event() {
            self.event(event)?;
        }
        Ok(())
    }

    /// Does the events of the scene's schedule.
    ///
    /// # Errors
    ///
    /// Where memory is wanting the first of these events have happened, and the journal says which.
    pub fn run_schedule(&mut self) -> Result<(), AllocError>
        ensures scene { self.new.scene ≡ self.old.scene }
        ensures ok { OnOk result (self.new.world ≡ run_from self.old.scene self.old.world self.old.scene.schedule) }
        ensures run { IsRun self.new.scene self.new.world }
        ensures err { OnErr result (PartlyScheduled self.old.scene self.old.world self.new.world) }
    {
        for i in 0..self.scene().schedule().len() {
            let event = self.scene().schedule()[i];
            self.event(event)?;
        }
        Ok(())
    }

    /// The numbers of the last line.
    pub fn counts(&self) -> Counts
        ensures { counted result ≡ counts self.now.scene self.now.world }
    {
        self.parts.counts()
    }
}

fn sendable<T: Send + Sync>(_: &T) {}

fn all_sendable(cluster: &Cluster) {
    sendable(cluster);
}
