//! The single changes of a node's view: each is done to its parts.
ghost use Rattle.node_parts.specs.Owning.{IsFree, turned};
ghost use Rattle.node_parts.specs.Phases.{phase_of};
ghost use Rattle.node_core.specs.Working.{Did, Fits, HasFacts, IsOpen, KeepsAck, OwnIs, Ruled, if_decides, with_abort};
ghost use Rattle.cascade_abort.specs.Fates.{turn_of as look_of};
ghost use Rattle.dependency_set.specs.Snapshots.{Snap as ASnap};
ghost use Rattle.std.specs.Prelude.{◌≡◌, ◌<◌, ◌≤◌, ◌+◌, ◌-◌, ◌∷◌, [], ℕ, None, Option, Some, false, if◌then◌else◌, length, option_map, remove, slice_get, true};
ghost use Rattle.str_base.specs.declared.names.Ts.{Ts as Time};
ghost use Rattle.str_base.specs.Versions.{stamp};
ghost use Rattle.str_model.specs.Acts.{abort_came, aborted, accepted, acked, asked, begun, certified, closed, commit_came, committed, in_phase, marked, refused, replied, requested, taken, waits, with_waiters};
ghost use Rattle.str_model.specs.NodeFacts.{MomentFacts};
ghost use Rattle.str_model.specs.Returns.{with_ack};
ghost use Rattle.str_model.specs.Scripts.{at_own, noted};
ghost use Rattle.str_model.specs.Steps.{decides, drop_held};
ghost use Rattle.str_model.specs.Strange.{has_key, has_node, has_part};
ghost use Rattle.str_model.specs.Turns.{dep_turn, left_by};
ghost use Rattle.str_model.specs.Views.{Own, is_decided, lc_of, put};
ghost use Rattle.str_scene.specs.Scenes.{hosts, script_at};
ghost use Rattle.tx_script.specs.Doing.{run_of};
ghost use Rattle.tx_script.specs.Turns.{turn_of};
ghost use Rattle.node_core.specs.Arriving.{CanCommit, CanPlace};
ghost use Rattle.node_core.specs.Reading.{CanTurn};

use crate::work::Work;
use cascade_abort::{DepTurn, drop_all};
use dependency_set::Snap;
use node_parts::{
    Phase, commit_all, insert_all, send, send_aborts, send_asks, send_commits, send_copies,
};
use replica_apply::{abort_at, commit_at, place};
use str_base::{Cause, KeyId, NodeId, PartId, Ts, TxId, Value};
use str_model::{Arrived, Body, KeyMarks, Waiter};
use str_scene::TxPlace;
use tx_script::Turn;

impl Work {
    // ---- own transactions

    /// A transaction begins.
    pub(crate) fn begin(&mut self, place: TxPlace, rs: Ts)
        requires fits { Fits self.old (begun place rs.0 self.old.doing) }
        requires facts { MomentFacts self.old.here (begun place rs.0 self.old.doing).view }
        ensures { Did (begun place rs.0 self.old.doing) self.old self.new }
    {
        self.own.begin(place, rs);
        self.held.floor = rs;
        self.left -= 1;
    }

    /// The mark of a key rises.
    pub(crate) fn mark(&mut self, key: KeyId, rs: Ts)
        requires { key.0 < length self.old.doing.view.marks }
        ensures { Did (marked key rs.0 self.old.doing) self.old self.new }
    {
        self.held.marks.raise(key, rs);
    }

    /// An own transaction that is not certified comes to another phase.
    pub(crate) fn set_phase(&mut self, i: usize, phase: Phase)
        requires old { OwnIs IsFree i self.old }
        requires new { (is_decided (phase_of phase) ≡ false) × (lc_of (phase_of phase) ≡ None) }
        ensures { Did (at_own i (λ x. put i (in_phase (phase_of phase) x)) self.old.doing) self.old self.new }
    {
        self.own.set_phase(i, phase);
    }

    /// The next operation of an own transaction's script, as far as it needs nothing of the node.
    pub(crate) fn operate(&mut self, i: usize) -> Turn
        requires { OwnIs (CanTurn self.old.here) i self.old }
        ensures turn { (x : Own) → slice_get self.old.doing.view.own i ≡ Some x → result ≡ (turn_of (script_at self.old.here.scene x.place) (run_of x)).turn }
        ensures done { Did (at_own i (λ x. put i (turned (turn_of (script_at self.old.here.scene x.place) (run_of x)) x)) self.old.doing) self.old self.new }
    {
        let ops = self.site.script(self.own.at(i).place());
        self.own.operate(i, ops)
    }

    /// A read of an own transaction is kept, with its snapshot from now on.
    pub(crate) fn keep_read(
        &mut self,
        i: usize,
        key: KeyId,
        value: Value,
        by: Option<TxId>,
        snap: Snap,
    )
        requires { OwnIs (λ x. IsFree x × (length x.reads < 16) × (snap.rs ≡ x.snap.rs)) i self.old }
        ensures { Did (at_own i (λ x. put i (noted key value by snap x)) self.old.doing) self.old self.new }
    {
        self.own.keep_read(i, key, value, by, snap);
    }

    /// The dependencies of an own transaction are looked at. Those that have committed leave its snapshot.
    pub(crate) fn look(&mut self, i: usize) -> DepTurn
        requires { IsOpen i self.old }
        ensures turn { (x : Own) → slice_get self.old.doing.view.own i ≡ Some x → let t = dep_turn self.old.doing.view.own x.snap in look_of result (left_by t x.snap) ≡ t }
        ensures done { Did (at_own i (λ x. put i (record x { snap = left_by (dep_turn self.old.doing.view.own x.snap) x.snap })) self.old.doing) self.old self.new }
    {
        self.own.look(i)
    }

    /// An own transaction aborts.
    pub(crate) fn abort(&mut self, i: usize, cause: Cause)
        requires facts { HasFacts self.old }
        requires own { IsOpen i self.old }
        requires fits { Fits self.old (at_own i (aborted self.old.here i cause) self.old.doing) }
        ensures { Did (at_own i (aborted self.old.here i cause) self.old.doing) self.old self.new }
    {
        let _ = self.held.node();
        let x = self.own.at(i);
        let tx = x.tx();
        drop_all(
            tx,
            x.writes(),
            self.site.map(),
            &mut self.held.store,
            &mut self.held.cache,
        );
        send_aborts(&self.site, tx, x.parts(), &mut self.out);
        let answer = self.own.abort(i, cause);
        self.out.release(answer);
    }

    /// An own transaction commits that wrote.
    pub(crate) fn commit(&mut self, i: usize, lc: Ts, fc: Ts)
        requires facts { HasFacts self.old }
        requires own { OwnIs (λ x. (is_decided x.phase ≡ false) × (lc_of x.phase ≡ Some lc.0)) i self.old }
        requires fits { Fits self.old (at_own i (committed self.old.here i lc.0 fc.0) self.old.doing) }
        ensures { Did (at_own i (committed self.old.here i lc.0 fc.0) self.old.doing) self.old self.new }
    {
        let _ = self.held.node();
        let x = self.own.at(i);
        let tx = x.tx();
        send_commits(
            &self.site,
            tx,
            fc,
            x.parts(),
            x.writes(),
            &self.held.marks,
            &mut self.out,
        );
        commit_all(
            &self.site,
            tx,
            x.writes(),
            fc,
            &mut self.held.store,
            &mut self.held.cache,
        );
        self.held.floor = self.held.floor.max(fc);
        let answer = self.own.commit(i, Some(fc));
        self.out.release(answer);
    }

    /// An own transaction commits that wrote nothing.
    pub(crate) fn close_free(&mut self, i: usize)
        requires own { OwnIs (λ x. IsFree x) i self.old }
        requires fits { Fits self.old (at_own i (closed self.old.here i) self.old.doing) }
        ensures { Did (at_own i (closed self.old.here i) self.old.doing) self.old self.new }
    {
        let answer = self.own.commit(i, None);
        self.out.release(answer);
    }

    /// An own transaction is certified.
    pub(crate) fn certify(&mut self, i: usize, lc: Ts, snap: Snap)
        requires facts { HasFacts self.old }
        requires own { OwnIs (λ x. IsFree x × (snap.rs ≡ x.snap.rs)) i self.old }
        requires fits { Fits self.old (at_own i (certified self.old.here i lc.0 snap) self.old.doing) }
        ensures { Did (at_own i (certified self.old.here i lc.0 snap) self.old.doing) self.old self.new }
    {
        let x = self.own.at(i);
        let (tx, writes) = (x.tx(), x.writes());
        let parts = self.site.map().participants(self.held.node(), writes);
        insert_all(
            &self.site,
            tx,
            writes,
            lc,
            &mut self.held.store,
            &mut self.held.cache,
        );
        self.left -= writes.len();
        self.held.floor = self.held.floor.max(lc);
        self.own.certify(i, lc, snap, parts);
    }

    /// An own transaction asks a partition.
    pub(crate) fn ask(&mut self, i: usize, lc: Ts, part: PartId)
        requires facts { HasFacts self.old }
        requires part { has_part self.old.here part ≡ true }
        requires own { OwnIs (λ x. (is_decided x.phase ≡ false) × (lc_of x.phase ≡ Some lc.0)) i self.old }
        requires fits { Fits self.old (at_own i (asked self.old.here i lc.0 part) self.old.doing) }
        ensures { Did (at_own i (asked self.old.here i lc.0 part) self.old.doing) self.old self.new }
    {
        let x = self.own.at(i);
        send_asks(
            &self.site,
            x.tx(),
            x.snap().rs(),
            lc,
            part,
            x.writes(),
            &mut self.out,
        );
        self.own.ask(i, lc, part);
    }

    /// The answer of a participant is kept. False exactly where the partition is not asked, or the participant is none or has answered.
    pub(crate) fn keep_ack(&mut self, i: usize, part: PartId, node: NodeId, ts: Ts) -> bool
        requires { IsOpen i self.old }
        ensures { KeepsAck i part node ts.0 result self.old self.new }
    {
        self.own.ack(i, part, node, ts)
    }

    /// A read of an own transaction goes to the master of its key.
    pub(crate) fn request(&mut self, i: usize, key: KeyId, master: NodeId)
        requires own { OwnIs IsFree i self.old }
        requires fits { Fits self.old (at_own i (requested self.old.here i key master) self.old.doing) }
        ensures { Did (at_own i (requested self.old.here i key master) self.old.doing) self.old self.new }
    {
        let x = self.own.at(i);
        let (tx, rs) = (x.tx(), x.snap().rs());
        send(
            &self.site,
            master,
            Body::ReadReq { tx, key, rs },
            &mut self.out,
        );
        self.own.set_phase(i, Phase::Remote { key });
    }

    // ---- what is held for others

    /// The master accepts what arrived.
    pub(crate) fn accept(&mut self, a: &Arrived, ts: Ts)
        requires can { CanPlace self.old a.now }
        requires fits { Fits self.old (accepted self.old.here a.now ts.0 self.old.doing) }
        ensures { Did (accepted self.old.here a.now ts.0 self.old.doing) self.old self.new }
    {
        let _ = self.held.node();
        self.left -= a.writes.len();
        place(&mut self.held.store, a, ts);
        let (tx, part) = (a.tx, a.part);
        send(
            &self.site,
            tx.node,
            Body::Ack { tx, part, ts },
            &mut self.out,
        );
        send_copies(&self.site, a, &mut self.out);
    }

    /// A slave takes what arrived.
    pub(crate) fn take(&mut self, a: &Arrived, ts: Ts)
        requires can { CanPlace self.old a.now }
        requires fits { Fits self.old (taken self.old.here a.now ts.0 self.old.doing) }
        ensures { Did (taken self.old.here a.now ts.0 self.old.doing) self.old self.new }
    {
        let _ = self.held.node();
        self.left -= a.writes.len();
        place(&mut self.held.store, a, ts);
        let (tx, part) = (a.tx, a.part);
        send(
            &self.site,
            tx.node,
            Body::Ack { tx, part, ts },
            &mut self.out,
        );
    }

    /// The master refuses what arrived.
    pub(crate) fn refuse(&mut self, a: &Arrived, by: TxId, key: KeyId)
        requires { Fits self.old (refused self.old.here a.now by key self.old.doing) }
        ensures { Did (refused self.old.here a.now by key self.old.doing) self.old self.new }
    {
        self.left -= 1;
        let (tx, part) = (a.tx, a.part);
        self.held.done.add(tx, part);
        let body = Body::Refuse { tx, part, by, key };
        send(&self.site, tx.node, body, &mut self.out);
    }

    /// One more waits.
    pub(crate) fn wait(&mut self, waiter: Waiter)
        requires { Fits self.old (waits waiter self.old.doing) }
        ensures { Did (waits waiter self.old.doing) self.old self.new }
    {
        self.left -= 1;
        self.held.parked.add(waiter);
    }

    /// One who waited waits no more.
    pub(crate) fn unwait(&mut self, j: usize) -> Waiter
        requires { j < length self.old.doing.view.waiters }
        ensures value { slice_get self.old.doing.view.waiters j ≡ Some result }
        ensures done { Did (with_waiters (remove self.old.doing.view.waiters j) self.old.doing) self.old self.new }
    {
        self.held.parked.take(j)
    }

    /// A read of another node is answered.
    pub(crate) fn reply(&mut self, tx: TxId, key: KeyId, value: Value, by: Option<TxId>, fc: Ts)
        requires { Fits self.old (replied self.old.here tx key value by fc.0 self.old.doing) }
        ensures { Did (replied self.old.here tx key value by fc.0 self.old.doing) self.old self.new }
    {
        let body = Body::ReadReply {
            tx,
            key,
            value,
            by,
            fc,
        };
        send(&self.site, tx.node, body, &mut self.out);
    }

    /// A commit has come: false exactly where it is not for this replica, or the pair was decided; then nothing changes.
    pub(crate) fn take_commit(&mut self, tx: TxId, part: PartId, fc: Ts, marks: &KeyMarks) -> bool
        requires facts { HasFacts self.old }
        requires can { CanCommit self.old part marks.now }
        requires fits { decides self.old.here tx part self.old.doing.view ≡ true → Fits self.old (commit_came tx part fc.0 marks.now self.old.doing) }
        ensures { Ruled (if_decides tx part self.old (commit_came tx part fc.0 marks.now self.old.doing)) result self.old self.new }
    {
        let node = self.held.node();
        if tx.node == node || !self.site.map().hosts(node, part) {
            return false;
        }
        let held = &mut self.held;
        if !commit_at(
            &mut held.store,
            &mut held.marks,
            &mut held.done,
            tx,
            part,
            fc,
            marks,
        ) {
            return false;
        }
        self.left -= 1;
        true
    }

    /// An abort has come: false exactly where it is not for this replica, or the pair was decided; then nothing changes.
    pub(crate) fn take_abort(&mut self, tx: TxId, part: PartId) -> bool
        requires facts { HasFacts self.old }
        requires part { has_part self.old.here part ≡ true }
        requires fits { decides self.old.here tx part self.old.doing.view ≡ true → Fits self.old (with_abort tx part self.old) }
        ensures { Ruled (if_decides tx part self.old (with_abort tx part self.old)) result self.old self.new }
    {
        let node = self.held.node();
        if tx.node == node || !self.site.map().hosts(node, part) {
            return false;
        }
        let held = &mut self.held;
        if !abort_at(&mut held.store, &mut held.done, &mut held.parked, tx, part) {
            return false;
        }
        self.left -= 1;
        true
    }
}
