//! The work of a step.
ghost use Rattle.node_core.specs.Sizes.{AreSmallWaiters};
ghost use Rattle.node_core.specs.Working.{HasFacts, IsFresh, IsNode, IsPlaceOf};
ghost use Rattle.std.specs.Prelude.{◌≡◌, ◌<◌, ◌≤◌, ◌+◌, ◌-◌, ◌++◌, [], IfOk, MatchOption, None, OnOk, Some, length, not, slice_get, true};
ghost use Rattle.node_parts.specs.Owning.{open_from};
ghost use Rattle.node_parts.specs.Phases.{phase_of};
ghost use Rattle.str_model.specs.Clients.{last_index, of_session};
ghost use Rattle.str_model.specs.Runs.{opening_view};
ghost use Rattle.str_model.specs.Strange.{has_node, is_valid};
ghost use Rattle.str_model.specs.Views.{Own};
ghost use Rattle.str_scene.specs.SceneLimits.{IsScene};
ghost use Rattle.version_chain.specs.ChainLists.{IsOrdered};
ghost use Rattle.str_model.specs.Pass.{is_empty};
ghost use Rattle.str_model.specs.Returns.{has_asked, own_named};

use crate::sizes::is_small_waiter;
use node_parts::{Held, OpenPlaces, Outbox, OwnList, Phase, Sending, Site, is_valid};
use std::alloc::{AllocError, Global};
use std::marker::{Model, Send, Sync};
use str_base::{NodeId, PartId, SessionId, Ts, TxId};
use str_model::Message;
use str_scene::{Scene, TxPlace};

/// The work of a node: its place in the scene, what it holds, its own transactions, what goes out, and how much room the step began with and has
/// left. It is seen as what the step has done so far.
#[derive(Drop)]
pub struct Work {
    pub(crate) site: Site,
    pub(crate) held: Held,
    pub(crate) own: OwnList,
    pub(crate) out: Sending,
    pub(crate) left: usize,
    pub(crate) room: usize,
}

impl Model for Work {
    ghost use Rattle.std.specs.Prelude.{◌+◌, ◌-◌, length};
    ghost use Rattle.node_parts.specs.Holding.{view_of};
    ghost use Rattle.node_core.specs.Working.{IsWork, WorkState as Value_};

    ghost Value = { Value_ };

    ghost view = { λ w. record { here = w.site; doing = record { view = view_of w.held w.own.all; sent = w.out.sent; released = w.out.released; added = w.room - w.left }; room = w.room; space = w.out.space + (length w.out.sent + length w.out.released); earlier = w.out.earlier; answered = w.out.answered } };

    ghost invariant = { λ w. IsWork w.site w.held w.own w.left w.room };
}

impl Work {
    /// A node of a scene at the beginning, and no step. It fails where memory runs out.
    pub fn new(alloc: Global, id: NodeId, scene: &Scene) -> Result<Work, AllocError>
        requires { has_node (record { scene = scene.now; node = id }) id ≡ true }
        ensures here { IfOk result (λ w. w.here ≡ record { scene = scene.now; node = id }) }
        ensures view { IfOk result (λ w. w.doing.view ≡ opening_view scene.now) }
        ensures fresh { IfOk result IsFresh }
        ensures node { IfOk result (λ w. IsNode w.here w.doing.view) }
        ensures out { IfOk result (λ w. (w.earlier ≡ []) × (w.answered ≡ [])) }
    {
        Work::at(alloc, Site::new(alloc, id, scene)?)
    }

    /// Another node of the same scene at the beginning, and no step. The scene is shared and not copied. It fails where memory runs out.
    pub fn beside(&self, alloc: Global, id: NodeId) -> Result<Work, AllocError>
        requires { has_node (record { scene = self.now.here.scene; node = id }) id ≡ true }
        ensures here { IfOk result (λ w. w.here ≡ record { scene = self.now.here.scene; node = id }) }
        ensures view { IfOk result (λ w. w.doing.view ≡ opening_view self.now.here.scene) }
        ensures fresh { IfOk result IsFresh }
        ensures node { IfOk result (λ w. IsNode w.here w.doing.view) }
        ensures out { IfOk result (λ w. (w.earlier ≡ []) × (w.answered ≡ [])) }
    {
        Work::at(alloc, self.site.beside(id)?)
    }

    /// A node at its place in a scene at the beginning, and no step. It fails where memory runs out.
    fn at(alloc: Global, site: Site) -> Result<Work, AllocError>
        ensures here { IfOk result (λ w. w.here ≡ site) }
        ensures view { IfOk result (λ w. w.doing.view ≡ opening_view site.scene) }
        ensures fresh { IfOk result IsFresh }
        ensures node { IfOk result (λ w. IsNode w.here w.doing.view) }
        ensures out { IfOk result (λ w. (w.earlier ≡ []) × (w.answered ≡ [])) }
    {
        let held = Held::new(alloc, &site)?;
        let sessions = site.scene().sessions().len() + 1;
        let own = OwnList::new(alloc, site.id(), site.scripts(), sessions)?;
        let out = Sending::new(alloc);
        Ok(Work {
            site,
            held,
            own,
            out,
            left: 0,
            room: 0,
        })
    }

    /// Makes room for `n` versions and list items. What was done stays, also after an error.
    pub fn reserve(&mut self, n: usize) -> Result<(), AllocError>
        requires { IsFresh self.old }
        ensures here { self.new.here ≡ self.old.here }
        ensures doing { self.new.doing ≡ self.old.doing }
        ensures out { (self.new.earlier ≡ self.old.earlier) × (self.new.answered ≡ self.old.answered) }
        ensures room { OnOk result (n ≤ self.new.room) }
        ensures kept { self.old.room ≤ self.new.room }
    {
        self.held.reserve(n)?;
        self.left = self.left.max(n);
        self.room = self.left;
        Ok(())
    }

    /// A step begins, with what stands in the outbox before it.
    pub fn begin_step(&mut self, out: &mut Outbox)
        requires fresh { IsFresh self.old }
        requires out { (self.old.earlier ≡ []) × (self.old.answered ≡ []) }
        ensures here { self.new.here ≡ self.old.here }
        ensures doing { self.new.doing ≡ self.old.doing }
        ensures room { self.new.room ≡ self.old.room }
        ensures space { self.new.space ≡ out.old.space }
        ensures earlier { (self.new.earlier ≡ out.old.messages) × (self.new.answered ≡ out.old.answers) }
        ensures empty { (out.new.messages ≡ []) × (out.new.answers ≡ []) }
    {
        self.out.begin(out);
    }

    /// A step ends: what it has sent and released goes to the outbox. The versions stand in order, and no key has two by one transaction.
    pub fn end_step(&mut self, out: &mut Outbox)
        requires facts { HasFacts self.old }
        requires out { (out.old.messages ≡ []) × (out.old.answers ≡ []) }
        ensures ordered { IsOrdered self.new.doing.view.versions }
        ensures here { self.new.here ≡ self.old.here }
        ensures view { self.new.doing.view ≡ self.old.doing.view }
        ensures fresh { IsFresh self.new }
        ensures room { self.old.room ≡ self.new.room + self.old.doing.added }
        ensures messages { out.new.messages ≡ self.old.earlier ++ self.old.doing.sent }
        ensures answers { out.new.answers ≡ self.old.answered ++ self.old.doing.released }
        ensures space { self.old.space ≡ out.new.space + (length self.old.doing.sent + length self.old.doing.released) }
        ensures out { (self.new.earlier ≡ []) × (self.new.answered ≡ []) }
    {
        let _ = self.held.node();
        self.room = self.left;
        self.out.end(out);
    }

    // ---- what a rule looks at

    /// The node's place in the scene.
    pub(crate) fn site(&self) -> &Site
        ensures value { result.now ≡ self.now.here }
        ensures exists { has_node self.now.here self.now.here.node ≡ true }
        ensures limits { IsScene self.now.here.scene }
    {
        &self.site
    }

    /// Whether a message is for the node and is not strange.
    pub(crate) fn is_valid(&self, message: &Message) -> bool
        ensures { result ≡ is_valid self.now.here message.now }
    {
        is_valid(&self.site, message)
    }

    /// How many own transactions there are.
    pub(crate) fn own_len(&self) -> usize
        ensures { result ≡ length self.now.doing.view.own }
    {
        self.own.len()
    }

    /// The places of the undecided own transactions, upwards.
    pub(crate) fn undecided(&self) -> OpenPlaces
        ensures { result ≡ open_from 0 self.now.doing.view.own }
    {
        self.own.undecided()
    }

    /// The phase of an own transaction.
    pub(crate) fn phase(&self, i: usize) -> Phase
        requires { i < length self.now.doing.view.own }
        ensures { (x : Own) → slice_get self.now.doing.view.own i ≡ Some x → phase_of result ≡ x.phase }
    {
        self.own.at(i).phase()
    }

    /// The place of an own transaction in the scene.
    pub(crate) fn place(&self, i: usize) -> TxPlace
        requires { i < length self.now.doing.view.own }
        ensures { (x : Own) → slice_get self.now.doing.view.own i ≡ Some x → result ≡ x.place }
    {
        self.own.at(i).place()
    }

    /// The snapshot timestamp of an own transaction.
    pub(crate) fn rs(&self, i: usize) -> Ts
        requires { i < length self.now.doing.view.own }
        ensures { (x : Own) → slice_get self.now.doing.view.own i ≡ Some x → result.0 ≡ x.snap.rs }
    {
        self.own.at(i).snap().rs()
    }

    /// Whether an own transaction has a dependency.
    pub(crate) fn depends(&self, i: usize) -> bool
        requires { i < length self.now.doing.view.own }
        ensures { (x : Own) → slice_get self.now.doing.view.own i ≡ Some x → result ≡ not (is_empty x.snap.deps) }
    {
        !self.own.at(i).snap().deps().is_empty()
    }

    /// Whether an own transaction has written.
    pub(crate) fn writes(&self, i: usize) -> bool
        requires { i < length self.now.doing.view.own }
        ensures { (x : Own) → slice_get self.now.doing.view.own i ≡ Some x → result ≡ not (is_empty x.writes) }
    {
        self.own.at(i).writes().len() != 0
    }

    /// Whether a partition of an own transaction is asked.
    pub(crate) fn has_asked(&self, i: usize, part: PartId) -> bool
        requires { i < length self.now.doing.view.own }
        ensures { (x : Own) → slice_get self.now.doing.view.own i ≡ Some x → result ≡ has_asked x.parts part }
    {
        for other in self.own.at(i).parts().as_slice() {
            if other.part == part && other.asked {
                return true;
            }
        }
        false
    }

    /// The place of the last own transaction of a session.
    pub(crate) fn last_of(&self, session: SessionId) -> Option<usize>
        ensures { result ≡ last_index (of_session session) self.now.doing.view.own }
    {
        self.own.last_of(session)
    }

    /// The place of the own transaction with a name; none where the name is not of this node or there is none yet.
    pub(crate) fn place_of(&self, tx: TxId) -> Option<usize>
        ensures { IsPlaceOf tx self.now result }
    {
        self.own.place_of(tx)
    }

    /// The floor.
    pub(crate) fn floor(&self) -> Ts
        ensures { result.0 ≡ self.now.doing.view.floor }
    {
        self.held.floor
    }

    /// How many wait. None of them writes more than 16 keys.
    pub(crate) fn waiting(&self) -> usize
        ensures count { result ≡ length self.now.doing.view.waiters }
        ensures small { AreSmallWaiters self.now.doing.view.waiters }
    {
        let waiting = self.held.parked.len();
        let mut n = 0;
        while let Some(waiter) = self.held.parked.get(n) {
            prove!(is_small_waiter(waiter));
            n += 1;
        }
        waiting
    }
}

fn sendable<T: Send + Sync>(_: &T) {}

fn all_sendable(work: &Work) {
    sendable(work);
}
