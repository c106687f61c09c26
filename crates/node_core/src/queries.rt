//! What the rules ask of the node's parts. Nothing changes.
ghost use Rattle.commit_gate.specs.Answers.{Tells, turn_of as gate_said};
ghost use Rattle.local_certify.specs.Turning.{turn_of as cert_of};
ghost use Rattle.node_parts.specs.Owning.{IsFree};
ghost use Rattle.node_core.specs.Arriving.{AreEvicted, AreHere, AreKeys, IsNamed};
ghost use Rattle.node_core.specs.Working.{HasFacts, IsOpen, OwnIs};
ghost use Rattle.prepare_master.specs.MasterTurns.{turn_of as judged_as};
ghost use Rattle.replica_apply.specs.Slaves.{evicted_by, slave_done};
ghost use Rattle.snapshot_read.specs.Turning.{serve_of, turn_of as read_as};
ghost use Rattle.std.specs.List.{list_any};
ghost use Rattle.std.specs.Prelude.{◌≡◌, ◌+◌, ◌<◌, Some, length, map, slice_get, true, ℕ};
ghost use Rattle.str_base.specs.declared.names.Write.{Write as AWrite};
ghost use Rattle.str_model.specs.Arrivals.{replicate_rule, waits_read};
ghost use Rattle.str_model.specs.Gates.{gate_of};
ghost use Rattle.str_model.specs.NodeFacts.{IsMasters, OpenTo};
ghost use Rattle.str_model.specs.Proposals.{master_turn, prepare_turn};
ghost use Rattle.str_model.specs.Strange.{has_key, has_part};
ghost use Rattle.str_model.specs.Turns.{cert_turn, read_turn, reply_turn, serve_turn};
ghost use Rattle.str_model.specs.Views.{Own, lc_of};
ghost use Rattle.str_scene.specs.Scenes.{hosts_key, is_master, part_of};

use crate::work::Work;
use arrayvec::ArrayVec;
use commit_gate::{DepParts, GateTurn, gate};
use local_certify::{CertTurn, certify};
use node_parts::{OwnList, Site};
use prepare_master::{MasterTurn, prepare, retry};
use replica_apply::{SlaveTurn, replicate};
use snapshot_read::{ReadTurn, ServeTurn, serve, take_reply, try_read};
use str_base::{KeyId, NodeId, PartId, ShortList, Ts, TxId, Value, Writes};
use str_model::Arrived;

impl Work {
    /// What a read of a key by an own transaction comes to.
    pub(crate) fn read_turn(&self, i: usize, key: KeyId) -> ReadTurn
        requires facts { HasFacts self.now }
        requires own { OwnIs IsFree i self.now }
        requires open_ { OpenTo self.now.doing.view (i + 1) }
        requires key { has_key self.now.here key ≡ true }
        ensures { (x : Own) → slice_get self.now.doing.view.own i ≡ Some x → read_as result ≡ read_turn self.now.here self.now.doing.view x.snap key }
    {
        let x = self.own.at(i);
        let held = &self.held;
        try_read(
            held.node(),
            x.snap(),
            self.own.told(),
            &held.store,
            &held.cache,
            self.site.map(),
            key,
        )
    }

    /// What a reply of a master comes to for an own transaction.
    pub(crate) fn reply_turn(&self, i: usize, value: Value, by: Option<TxId>, fc: Ts) -> ReadTurn
        requires { i < length self.now.doing.view.own }
        ensures { (x : Own) → slice_get self.now.doing.view.own i ≡ Some x → read_as result ≡ reply_turn self.now.here x.snap value by fc.0 }
    {
        take_reply(self.site.id(), self.own.at(i).snap(), value, by, fc)
    }

    /// What the certification of an own transaction comes to.
    pub(crate) fn cert_turn(&self, i: usize) -> CertTurn
        requires facts { HasFacts self.now }
        requires own { OwnIs IsFree i self.now }
        requires open_ { OpenTo self.now.doing.view (i + 1) }
        ensures { (x : Own) → slice_get self.now.doing.view.own i ≡ Some x → cert_of result ≡ cert_turn self.now.here self.now.doing.view x.snap x.writes }
    {
        let x = self.own.at(i);
        let held = &self.held;
        certify(
            held.node(),
            x.snap(),
            x.writes(),
            self.own.told(),
            &held.store,
            &held.cache,
            &held.marks,
            self.site.map(),
        )
    }

    /// What the gate of an own transaction says that was certified at `lc`.
    pub(crate) fn gate_turn(&self, i: usize, lc: Ts) -> GateTurn
        requires facts { HasFacts self.now }
        requires own { OwnIs (λ x. lc_of x.phase ≡ Some lc.0) i self.now }
        requires open_ { IsOpen i self.now }
        ensures { (x : Own) → slice_get self.now.doing.view.own i ≡ Some x → gate_said result ≡ gate_of self.now.here self.now.doing.view lc.0 x }
    {
        let x = self.own.at(i);
        let wrote = wrote(&self.site, &self.own, i);
        gate(x.snap(), lc, x.parts(), wrote.as_slice())
    }

    /// What a Prepare comes to that has come.
    pub(crate) fn prepare_turn(&self, a: &Arrived) -> MasterTurn
        requires facts { HasFacts self.now }
        requires named { IsNamed self.now a.now }
        ensures { judged_as result ≡ prepare_turn self.now.here self.now.doing.view a.now }
    {
        let held = &self.held;
        prepare(
            a,
            held.node(),
            &held.store,
            &held.marks,
            &held.done,
            &held.parked,
            self.site.map(),
        )
    }

    /// What a parked Prepare comes to that is judged again.
    pub(crate) fn retry_turn(&self, a: &Arrived) -> MasterTurn
        requires facts { HasFacts self.now }
        requires named { IsNamed self.now a.now }
        requires masters { IsMasters self.now.here a.now }
        ensures { judged_as result ≡ master_turn self.now.doing.view a.now }
    {
        let held = &self.held;
        retry(a, held.node(), &held.store, &held.marks, self.site.map())
    }

    /// What a Replicate comes to.
    pub(crate) fn slave_turn(&self, a: &Arrived) -> SlaveTurn
        requires facts { HasFacts self.now }
        requires named { IsNamed self.now a.now }
        ensures rule { replicate_rule self.now.here a.now self.now.doing ≡ slave_done self.now.here a.now result self.now.doing }
        ensures evicted { AreEvicted self.now a.now (evicted_by result) }
    {
        let held = &self.held;
        replicate(
            a,
            held.node(),
            &held.store,
            &held.marks,
            &held.done,
            self.site.map(),
        )
    }

    /// What a read of another node comes to.
    pub(crate) fn serve_turn(&self, key: KeyId, rs: Ts) -> ServeTurn
        requires facts { HasFacts self.now }
        requires key { has_key self.now.here key ≡ true }
        requires hosted { hosts_key self.now.here key ≡ true }
        ensures { serve_of result ≡ serve_turn self.now.doing.view.versions key rs.0 }
    {
        let _ = self.held.node();
        serve(&self.held.store, key, rs)
    }

    /// Whether the node has a key.
    pub(crate) fn hosts_key(&self, key: KeyId) -> bool
        requires { has_key self.now.here key ≡ true }
        ensures { result ≡ hosts_key self.now.here key }
    {
        let map = self.site.map();
        map.hosts(self.site.id(), map.part_of(key))
    }

    /// Whether a read of a key by a transaction waits.
    pub(crate) fn has_read(&self, tx: TxId, key: KeyId) -> bool
        ensures { result ≡ list_any (waits_read tx key) self.now.doing.view.waiters }
    {
        self.held.parked.has_read(tx, key)
    }

    /// Whether a node is the master of a partition.
    pub(crate) fn is_master(&self, node: NodeId, part: PartId) -> bool
        requires { has_part self.now.here part ≡ true }
        ensures { result ≡ is_master self.now.here.scene node part }
    {
        self.site.map().master(part) == node
    }
}

/// The partitions that each dependency of an own transaction wrote in.
fn wrote(site: &Site, own: &OwnList, i: usize) -> ArrayVec<DepParts, 16>
    requires there { i < length own.now.all }
    requires deps { AreHere own.now.all i }
    requires keys { AreKeys site.now own.now.all }
    ensures { (x : Own) → slice_get own.now.all i ≡ Some x → Tells site.now own.now.all x.snap.deps result.items }
{
    let _ = site.id();
    let mut wrote = ArrayVec::new();
    for dep in own.at(i).snap().deps() {
        wrote.push(DepParts {
            seq: dep.seq,
            parts: parts_of(site, own.at(dep.seq as usize - 1).writes()),
        });
    }
    wrote
}

/// The partition of each of these writes.
fn parts_of(site: &Site, writes: &Writes) -> ShortList<PartId, 16>
    requires { (i : ℕ) (w : AWrite) → slice_get writes.now i ≡ Some w → has_key site.now w.key ≡ true }
    ensures { result ≡ map (λ (w : AWrite). part_of site.now.scene w.key) writes.now }
{
    let mut parts = ShortList::new();
    for write in writes.as_slice() {
        parts.push(site.map().part_of(write.key));
    }
    parts
}
