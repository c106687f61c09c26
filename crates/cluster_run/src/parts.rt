//! The parts of a cluster, with the room of each in sight.
ghost use Rattle.cluster_run.specs.Clusters.{ArePlaced, Comes, Entered, MayHappen, MayStep, SameParts, world_of};
ghost use Rattle.std.specs.Prelude.{◌≡◌, ◌<◌, ◌≤◌, ◌+◌, ◌-◌, ◌^◌, IfOk, None, OnErr, OnOk, length, not, option_map};
ghost use Rattle.str_model.specs.Drains.{moves};
ghost use Rattle.str_model.specs.PrunedRuns.{taken_by};
ghost use Rattle.str_model.specs.Runs.{at_node, give, happens, stepped};
ghost use Rattle.str_scene.specs.declared.names.Event.TheVariants.{Client, Deliver};
ghost use Rattle.str_scene.specs.Scenes.{nth};

use crate::flags::GivenFlags;
use crate::members::{list_place, place_of, ready_at, step_at};
use node_core::{Node, Outbox};
use std::alloc::AllocError;
use str_base::{NodeId, SessionId};
use str_model::{Done, Input, Message};
use str_scene::{Event, Scene};

/// The scene, its nodes, all messages that were sent and all answers that were released, which of the messages were given, and
/// the journal. The steps of all nodes append to one outbox, so no message is moved or copied once it is sent.
#[derive(Drop)]
pub(crate) struct Parts {
    pub scene: Scene,
    pub nodes: Vec<Node>,
    pub out: Outbox,
    pub given: GivenFlags,
    pub journal: Vec<Done>,
}

impl Parts {
    /// The message with this number, counted from 1.
    fn message(&self, index: u64) -> Option<Message>
        ensures { result ≡ nth self.now.out.messages index }
    {
        if index == 0 {
            return None;
        }
        match self.out.messages().get(index as usize - 1) {
            Some(message) => Some(message.copy()),
            None => None,
        }
    }

    /// The node of a session.
    fn node_of(&self, session: SessionId) -> Option<NodeId>
        ensures { result ≡ option_map (λ s. s.node) (nth self.now.scene.sessions session.0) }
    {
        if session.0 == 0 {
            return None;
        }
        match self.scene.sessions().get(session.0 as usize - 1) {
            Some(text) => Some(text.node()),
            None => None,
        }
    }

    /// The place of the sender of the message with this number, counted from 1. The place counts from 0.
    pub fn sender_of(&self, index: u64) -> Option<usize>
        ensures { result ≡ option_map (λ m. m.sender.0 - 1) (nth self.now.out.messages index) }
    {
        if index == 0 {
            return None;
        }
        match self.out.messages().get(index as usize - 1) {
            Some(message) => Some(list_place(message.sender)),
            None => None,
        }
    }

    /// The place of the receiver of the message with this number, counted from 1. The place counts from 0.
    fn receiver_of(&self, index: u64) -> Option<usize>
        ensures { result ≡ option_map (λ m. m.receiver.0 - 1) (nth self.now.out.messages index) }
    {
        if index == 0 {
            return None;
        }
        match self.out.messages().get(index as usize - 1) {
            Some(message) => Some(list_place(message.receiver)),
            None => None,
        }
    }

    /// The place of the node that takes an event, counted from 0.
    pub fn taker(&self, event: &Event) -> Option<usize>
        ensures { result ≡ taken_by self.now.scene (world_of self.now) event.now }
    {
        match event {
            Event::Client { session, .. } => match self.node_of(*session) {
                Some(node) => Some(list_place(node)),
                None => None,
            },
            Event::Deliver { index } => self.receiver_of(*index),
        }
    }

    /// Whether a client step of the session is not idle.
    pub fn moves(&self, session: SessionId) -> bool
        requires { ArePlaced self.now.scene self.now.nodes.items }
        ensures { result ≡ moves self.now.scene (world_of self.now) session.0 }
    {
        let Some(node) = self.node_of(session) else {
            return false;
        };
        let Some(place) = place_of(&self.nodes, node) else {
            return false;
        };
        let member = &self.nodes[place];
        !member.client_idle(session)
    }

    /// Makes room for a journal entry, and for the step of the node on the input. The world stays, also after an error.
    fn make_room(&mut self, node: NodeId, input: &Input) -> Result<(), AllocError>
        ensures room { OnOk result (MayStep node input.now self.new) }
        ensures same { SameParts self.old self.new }
    {
        self.journal.reserve(1)?;
        let room = ready_at(&mut self.nodes, node, input, &mut self.out)?;
        self.given.reserve(room)
    }

    /// Makes room for the step of an event, and gives a number that is as great as the number of messages that it sends at least. The world stays, also
    /// after an error.
    pub fn room_for(&mut self, event: &Event) -> Result<usize, AllocError>
        requires { ArePlaced self.old.scene self.old.nodes.items }
        ensures room { IfOk result (λ n. length (happens self.old.scene (world_of self.old) event.now).sent ≤ length self.old.out.messages + n) }
        ensures same { SameParts self.old self.new }
    {
        match event {
            Event::Client { session, reading } => self.client_room(*session, *reading),
            Event::Deliver { index } => self.letter_room(*index),
        }
    }

    /// The same for a client step.
    fn client_room(&mut self, session: SessionId, reading: u64) -> Result<usize, AllocError>
        requires { ArePlaced self.old.scene self.old.nodes.items }
        ensures room { IfOk result (λ n.
            length (happens self.old.scene (world_of self.old) (Client session reading)).sent ≤ length self.old.out.messages + n) }
        ensures same { SameParts self.old self.new }
    {
        let Some(node) = self.node_of(session) else {
            return Ok(0);
        };
        let input = Input::Client { session, reading };
        ready_at(&mut self.nodes, node, &input, &mut self.out)
    }

    /// The same for a delivery.
    fn letter_room(&mut self, index: u64) -> Result<usize, AllocError>
        requires { ArePlaced self.old.scene self.old.nodes.items }
        ensures room { IfOk result (λ n. length (happens self.old.scene (world_of self.old) (Deliver index)).sent ≤ length self.old.out.messages + n) }
        ensures same { SameParts self.old self.new }
    {
        let Some(message) = self.message(index) else {
            return Ok(0);
        };
        let receiver = message.receiver;
        let input = Input::Deliver(message);
        ready_at(&mut self.nodes, receiver, &input, &mut self.out)
    }

    /// Enters an event that is idle in the journal.
    fn enter_idle(&mut self, event: Event) -> Result<bool, AllocError>
        requires { ArePlaced self.old.scene self.old.nodes.items }
        ensures ok { OnOk result (Comes (stepped event 0 (world_of self.old) None) self.old self.new) }
        ensures idle { IfOk result (λ moves. Entered event (not moves) (world_of self.old) (world_of self.new)) }
        ensures err { OnErr result (Comes (world_of self.old) self.old self.new) }
    {
        self.journal.push(Done {
            event,
            idle: true,
            answers: 0,
        })?;
        Ok(false)
    }

    /// The step of a node on an input by this event, with its journal entry. False exactly where it is idle. It takes no memory.
    fn step(&mut self, event: Event, node: NodeId, input: &Input) -> bool
        requires placed { ArePlaced self.old.scene self.old.nodes.items }
        requires even { length self.old.given.flags ≡ length self.old.out.messages }
        requires room { MayStep node input.now self.old }
        requires few { length (at_node self.old.scene event node input.now (world_of self.old)).answers < 2 ^ 32 }
        ensures comes { Comes (at_node self.old.scene event node input.now (world_of self.old)) self.old self.new }
        ensures idle { Entered event (not result) (world_of self.old) (world_of self.new) }
    {
        let answered = self.out.answers().len();
        let moves = step_at(&mut self.nodes, node, input, &mut self.out);
        self.given
            .extend(self.out.messages().len() - self.given.len());
        let answers = (self.out.answers().len() - answered) as u32;
        self.journal.push_reserved(Done {
            event,
            idle: !moves,
            answers,
        });
        moves
    }

    /// A client step.
    fn client(&mut self, session: SessionId, reading: u64) -> Result<bool, AllocError>
        requires { MayHappen self.old (Client session reading) }
        ensures ok { OnOk result (Comes (happens self.old.scene (world_of self.old) (Client session reading)) self.old self.new) }
        ensures idle { IfOk result (λ moves. Entered (Client session reading) (not moves) (world_of self.old) (world_of self.new)) }
        ensures err { OnErr result (Comes (world_of self.old) self.old self.new) }
    {
        let event = Event::Client { session, reading };
        let Some(node) = self.node_of(session) else {
            return self.enter_idle(event);
        };
        let input = Input::Client { session, reading };
        self.make_room(node, &input)?;
        Ok(self.step(event, node, &input))
    }

    /// The delivery of the message with this number, counted from 1. It counts as given then, also where that is idle.
    fn deliver(&mut self, index: u64) -> Result<bool, AllocError>
        requires { MayHappen self.old (Deliver index) }
        ensures ok { OnOk result (Comes (happens self.old.scene (world_of self.old) (Deliver index)) self.old self.new) }
        ensures idle { IfOk result (λ moves. Entered (Deliver index) (not moves) (world_of self.old) (world_of self.new)) }
        ensures err { OnErr result (Comes (world_of self.old) self.old self.new) }
    {
        let event = Event::Deliver { index };
        let Some(message) = self.message(index) else {
            return self.enter_idle(event);
        };
        let receiver = message.receiver;
        let input = Input::Deliver(message);
        self.make_room(receiver, &input)?;
        self.given.give(index as usize - 1);
        Ok(self.step(event, receiver, &input))
    }

    /// One event. False exactly where it is idle; the journal grows by it all the same. Where memory is wanting nothing has happened.
    pub fn event(&mut self, event: Event) -> Result<bool, AllocError>
        requires { MayHappen self.old event }
        ensures ok { OnOk result (Comes (happens self.old.scene (world_of self.old) event) self.old self.new) }
        ensures idle { IfOk result (λ moves. Entered event (not moves) (world_of self.old) (world_of self.new)) }
        ensures err { OnErr result (Comes (world_of self.old) self.old self.new) }
    {
        match event {
            Event::Client { session, reading } => self.client(session, reading),
            Event::Deliver { index } => self.deliver(index),
        }
    }
}
