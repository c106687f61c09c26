//! A node.
ghost use Rattle.node_core.specs.Working.{SameLists, SameNode, Stepped, here_of};
ghost use Rattle.std.specs.List.{count_by};
ghost use Rattle.std.specs.Prelude.{◌≡◌, ◌≤◌, ◌+◌, ◌*◌, ◌^◌, IfOk, IfSome, false, is_some, length, not, true, ℕ};
ghost use Rattle.str_model.specs.declared.messages.Input.TheVariants.{Client};
ghost use Rattle.str_model.specs.NodeFacts.{NodeFacts, ViewBelow};
ghost use Rattle.str_model.specs.Runs.{opening_view};
ghost use Rattle.str_model.specs.Steps.{need, step};
ghost use Rattle.str_model.specs.Strange.{has_node};
ghost use Rattle.str_model.specs.Views.{is_decided};
ghost use Rattle.version_chain.specs.ChainLists.{IsOrdered};

use crate::sizes::is_small_input;
use crate::work::Work;
use node_parts::Outbox;
use std::alloc::{AllocError, Global};
use std::marker::{Model, Send, Sync};
use str_base::{NodeId, SessionId};
use str_model::Input;
use str_scene::Scene;

/// A node of a scene. It is seen as its scene, its number, its view and the room for more items. Its type keeps what holds of a view whatever
/// messages came to the node.
#[derive(Drop)]
pub struct Node {
    pub(crate) work: Work,
}

impl Model for Node {
    ghost use Rattle.std.specs.Prelude.{◌≡◌, []};
    ghost use Rattle.node_core.specs.Working.{IsFresh, IsNode, NodeState as Value_};

    ghost Value = { Value_ };

    ghost view = { λ n. record { scene = n.work.here.scene; id = n.work.here.node; view = n.work.doing.view; room = n.work.room } };

    ghost invariant = { λ n. IsNode n.work.here n.work.doing.view × IsFresh n.work × (n.work.earlier ≡ []) × (n.work.answered ≡ []) };
}

impl Node {
    /// A node of a scene at the beginning. The error is want of memory.
    pub fn new(alloc: Global, id: NodeId, scene: &Scene) -> Result<Node, AllocError>
        requires { has_node (record { scene = scene.now; node = id }) id ≡ true }
        ensures scene { IfOk result (λ n. n.scene ≡ scene.now) }
        ensures id { IfOk result (λ n. n.id ≡ id) }
        ensures view { IfOk result (λ n. n.view ≡ opening_view scene.now) }
    {
        let work = Work::new(alloc, id, scene)?;
        Ok(Node { work })
    }

    /// Another node of the same scene at the beginning. The scene is shared and not copied. The error is want of memory.
    pub fn beside(&self, alloc: Global, id: NodeId) -> Result<Node, AllocError>
        requires { has_node (record { scene = self.now.scene; node = id }) id ≡ true }
        ensures scene { IfOk result (λ n. n.scene ≡ self.now.scene) }
        ensures id { IfOk result (λ n. n.id ≡ id) }
        ensures view { IfOk result (λ n. n.view ≡ opening_view self.now.scene) }
    {
        let work = self.work.beside(alloc, id)?;
        Ok(Node { work })
    }

    /// Makes room for the next step on this input in the node and in the outbox, and gives a number that is as
    /// great as the need at least. The view and the lists stay, also after an error.
    pub fn ready(&mut self, input: &Input, out: &mut Outbox) -> Result<usize, AllocError>
        ensures need { IfOk result (λ n. need (here_of self.old) input.now self.old.view ≤ n) }
        ensures room_made { IfOk result (λ n. n ≤ self.new.room) }
        ensures space_made { IfOk result (λ n. n ≤ out.new.space) }
        ensures node { SameNode self.old self.new }
        ensures lists { SameLists out.old out.new }
        ensures room { self.old.room ≤ self.new.room }
        ensures space { out.old.space ≤ out.new.space }
    {
        prove!(is_small_input(input));
        let Some(most) = most(self.work.undecided().len(), self.work.waiting()) else {
            return Err(AllocError);
        };
        self.work.reserve(most)?;
        out.reserve(most)?;
        Ok(most)
    }

    /// Does the step on this input, and appends what it sends and releases. It answers false exactly where the
    /// input is idle, and then nothing changes. It takes no memory.
    pub fn step(&mut self, input: &Input, out: &mut Outbox) -> bool
        requires room { need (here_of self.old) input.now self.old.view ≤ self.old.room }
        requires space { need (here_of self.old) input.now self.old.view ≤ out.old.space }
        ensures { Stepped (step (here_of self.old) input.now self.old.view) result self.old self.new out.old out.new }
    {
        self.work.begin_step(out);
        let moves = self.work.step(input);
        self.work.end_step(out);
        moves
    }

    /// Whether a client step of this session is idle.
    pub fn client_idle(&self, session: SessionId) -> bool
        ensures { (t : ℕ) → result ≡ not (is_some (step (here_of self.now) (Client session t) self.now.view)) }
    {
        self.work.client_idle(session)
    }

    /// The number of transactions that have begun.
    pub fn begun(&self) -> u32
        ensures { result ≡ length self.now.view.own }
    {
        self.work.own_len() as u32
    }

    /// The number of transactions that have begun and are undecided.
    pub fn held(&self) -> u32
        ensures { result ≡ count_by (λ x. not (is_decided x.phase)) self.now.view.own }
    {
        self.work.undecided().len() as u32
    }

    /// The scene.
    pub fn scene(&self) -> &Scene
        ensures { result.now ≡ self.now.scene }
    {
        self.work.site().scene()
    }

    /// The node's number. What holds of its view whatever messages came: its facts, among them that every timestamp is below 2^63, and that no key has
    /// two versions by one transaction.
    pub fn id(&self) -> NodeId
        ensures value { result ≡ self.now.id }
        ensures facts { NodeFacts (here_of self.now) self.now.view }
        ensures times { ViewBelow (2 ^ 63) self.now.view }
        ensures apart { IsOrdered self.now.view.versions }
    {
        self.work.site().id()
    }
}

/// How many versions, list items, messages and answers a step adds at most, with so many undecided transactions and so many who wait; none where
/// that is more than memory can hold.
fn most(undecided: usize, waiting: usize) -> Option<usize>
    requires { undecided ≤ 16 }
    ensures { IfSome result (λ n. n ≡ 242 * undecided + 25 * (waiting + 1) + 32) }
{
    let waiters = waiting.checked_add(1)?.checked_mul(25)?;
    waiters.checked_add(242 * undecided + 32)
}

fn sendable<T: Send + Sync>(_: &T) {}

fn all_sendable(node: &Node) {
    sendable(node);
}
