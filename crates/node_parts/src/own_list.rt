//! A node's own transactions.
ghost use Rattle.node_parts.specs.Owning.{ComesTo, HasPlace, IsAnswerAt, IsFree, IsPlaceOf, KeepsAck, Looked, Named, OwnHas, is_closed, is_told, open_from, told_again, told_also, told_no_more, turned};
ghost use Rattle.node_parts.specs.Phases.{number_if, phase_of};
ghost use Rattle.snapshot_read.specs.Shown.{told_from};
ghost use Rattle.std.specs.Prelude.{◌≡◌, ◌<◌, ◌≤◌, ◌+◌, ◌-◌, ◌^◌, ◌++◌, ◌∷◌, ◌==◌, [], ℕ, IfOk, None, Some, false, filter, length, map, nat_lt, not, slice_get, true, vec_capacity, vec_len};
ghost use Rattle.std.specs.List.{list_any, position_or_len};
ghost use Rattle.str_model.specs.Acts.{decided_as, fresh, in_phase, with_asked};
ghost use Rattle.str_model.specs.Clients.{last_index, of_session};
ghost use Rattle.str_model.specs.declared.messages.Outcome.TheVariants.{Aborted as Aborts, Committed as Commits};
ghost use Rattle.str_model.specs.NodeFacts.{how_many};
ghost use Rattle.str_model.specs.Scripts.{noted};
ghost use Rattle.cascade_abort.specs.Fates.{Names, kind_of};
ghost use Rattle.str_model.specs.Turns.{own_fate};
ghost use Rattle.str_model.specs.Views;
ghost use Rattle.str_model.specs.Views.{Own, is_decided, lc_of};
ghost use Rattle.tx_script.specs.Doing.{run_of};
ghost use Rattle.tx_script.specs.Turns.{turn_of};

use crate::own_tx::OwnTx;
use crate::phases::Phase;
use arrayvec::ArrayVec;
use cascade_abort::{DepTurn, Fate, FateKind};
use dependency_set::{Dep, OwnSnap, Snap};
use partition_map::Participants;
use std::alloc::{AllocError, Global};
use std::marker::{Model, Send, Sync};
use str_base::{Cause, KeyId, NodeId, PartId, SessionId, ShortList, Ts, TxId, Value};
use str_model::Answer;
use str_scene::{OpList, TxPlace};
use tx_script::Turn;

/// The places of those that are undecided, upwards.
pub type OpenPlaces = ShortList<u32, 16>;

/// A node's own transactions in order of number. It knows which are undecided, what to tell of those that are certified and undecided, and which is
/// the last of each session. It is seen as the node, the transactions, the number of sessions and the room for more transactions.
#[derive(Drop)]
pub struct OwnList {
    node: NodeId,
    all: Vec<OwnTx>,
    undecided: OpenPlaces,
    told: Vec<OwnSnap>,
    last: Vec<u32>,
}

impl Model for OwnList {
    ghost use Rattle.std.specs.Prelude.{◌-◌, ◌≤◌, length, map, vec_capacity, vec_len};
    ghost use Rattle.node_parts.specs.Owning.{IsOwnList, Named, OwnState};

    ghost Value = { OwnState };

    ghost view = { λ o. record { node = o.node; all = map (λ (x : Named). x.own) o.all.items; sessions = length o.last.items; spare = vec_capacity o.all - vec_len o.all } };

    ghost invariant = { λ o. IsOwnList o.node o.all.items o.undecided o.told.items o.last.items × (16 ≤ vec_capacity o.told) };
}

impl OwnList {
    /// None, at this node, with room for `most`, of sessions with numbers below `sessions`.
    pub fn new(
        alloc: Global,
        node: NodeId,
        most: usize,
        sessions: usize,
    ) -> Result<OwnList, AllocError>
        requires { sessions < 2 ^ 32 }
        ensures node { IfOk result (λ o. o.node ≡ node) }
        ensures all { IfOk result (λ o. o.all ≡ []) }
        ensures sessions { IfOk result (λ o. o.sessions ≡ sessions) }
        ensures spare { IfOk result (λ o. most ≤ o.spare) }
    {
        let mut all = Vec::new(alloc);
        all.reserve(most)?;
        let mut told = Vec::new(alloc);
        told.reserve(16)?;
        let mut last = Vec::new(alloc);
        last.resize(sessions, 0)?;
        let undecided = OpenPlaces::new();
        Ok(OwnList {
            node,
            all,
            undecided,
            told,
            last,
        })
    }

    /// How many there are.
    pub fn len(&self) -> usize
        ensures { result ≡ length self.now.all }
    {
        self.all.len()
    }

    /// The places of those that are undecided, upwards.
    pub fn undecided(&self) -> OpenPlaces
        ensures { result ≡ open_from 0 self.now.all }
    {
        self.undecided.copy()
    }

    /// What is told of those that are certified and undecided.
    pub fn told(&self) -> &[OwnSnap]
        ensures { result.now ≡ told_from 0 self.now.all }
    {
        self.told.as_slice()
    }

    /// The one at a place.
    pub fn at(&self, i: usize) -> &OwnTx
        requires { i < length self.now.all }
        ensures own { slice_get self.now.all i ≡ Some result.now.own }
        ensures tx { result.now.tx ≡ record { node = self.now.node; seq = i + 1 } }
        ensures limit { i < 2 ^ 32 - 1 }
    {
        &self.all[i]
    }

    /// The place of the one with a name; none where the name is not of this node or there is none yet.
    pub fn place_of(&self, tx: TxId) -> Option<usize>
        ensures { IsPlaceOf tx self.now result }
    {
        if tx.node != self.node || tx.seq == 0 {
            return None;
        }
        let i = tx.seq as usize - 1;
        if i < self.all.len() { Some(i) } else { None }
    }

    /// The place of the last one of a session.
    pub fn last_of(&self, session: SessionId) -> Option<usize>
        ensures { result ≡ last_index (of_session session) self.now.all }
    {
        let s = session.0 as usize;
        if s >= self.last.len() || self.last[s] == 0 {
            return None;
        }
        Some(self.last[s] as usize - 1)
    }

    /// One more begins.
    pub fn begin(&mut self, place: TxPlace, rs: Ts)
        requires room { 0 < self.old.spare }
        requires few { length self.old.all < 1024 }
        requires open_few { length (open_from 0 self.old.all) < 16 }
        requires session { place.session.0 < self.old.sessions }
        ensures all { self.new.all ≡ self.old.all ++ fresh place rs.0 ∷ [] }
        ensures here { (self.new.node ≡ self.old.node) × (self.new.sessions ≡ self.old.sessions) × (self.old.spare ≤ self.new.spare + 1) }
    {
        let i = self.all.len() as u32;
        let tx = TxId {
            node: self.node,
            seq: i + 1,
        };
        self.all.push_reserved(OwnTx::fresh(tx, place, rs));
        self.undecided.push(i);
        self.last[place.session.0 as usize] = i + 1;
    }

    /// Does the next operation of the script of one that is Active.
    pub fn operate(&mut self, i: usize, ops: &OpList) -> Turn
        requires { OwnHas (λ x. IsFree x × HasPlace ops.now x) i self.old.all }
        ensures turn { (x : Own) → slice_get self.old.all i ≡ Some x → result ≡ (turn_of ops.now (run_of x)).turn }
        ensures own { ComesTo (λ x. turned (turn_of ops.now (run_of x)) x) i self.old self.new }
    {
        let own = &mut self.all[i];
        own.operate(ops)
    }

    /// Keeps what a read gave to one that is not certified, with its snapshot from now on.
    pub fn keep_read(&mut self, i: usize, key: KeyId, value: Value, by: Option<TxId>, snap: Snap)
        requires { OwnHas (λ x. IsFree x × (length x.reads < 16) × (snap.rs ≡ x.snap.rs)) i self.old.all }
        ensures { ComesTo (noted key value by snap) i self.old self.new }
    {
        let own = &mut self.all[i];
        own.keep_read(key, value, by, snap);
    }

    /// One that is undecided and not certified comes to another such phase.
    pub fn set_phase(&mut self, i: usize, phase: Phase)
        requires old { OwnHas IsFree i self.old.all }
        requires new { (is_decided (phase_of phase) ≡ false) × (lc_of (phase_of phase) ≡ None) }
        ensures { ComesTo (in_phase (phase_of phase)) i self.old self.new }
    {
        let own = &mut self.all[i];
        own.set_phase(phase);
    }

    /// Looks at the dependencies of one that is undecided. Those that were looked at and committed leave its snapshot.
    pub fn look(&mut self, i: usize) -> DepTurn
        requires { OwnHas (λ x. is_decided x.phase ≡ false) i self.old.all }
        ensures looked { (x : Own) → slice_get self.old.all i ≡ Some x → Looked self.old.all self.new.all i x result }
        ensures here { (self.new.node ≡ self.old.node) × (self.new.sessions ≡ self.old.sessions) × (self.old.spare ≤ self.new.spare) }
    {
        let deps = self.all[i].snap().deps();
        if !has_closed(self.all.as_slice(), deps) {
            return DepTurn::Keep;
        }
        let fates = fates(self.all.as_slice(), deps);
        let own = &mut self.all[i];
        let turn = own.resolve(fates.as_slice());
        tell_again(&mut self.told, own.tx().seq, own.snap());
        turn
    }

    /// One that is not certified is certified at `lc`, with this snapshot and these participants from now on.
    pub fn certify(&mut self, i: usize, lc: Ts, snap: Snap, parts: Participants)
        requires own { OwnHas (λ x. IsFree x × (snap.rs ≡ x.snap.rs)) i self.old.all }
        requires few { how_many is_told self.old.all ≤ 15 }
        ensures { ComesTo (λ x. record x { snap = snap; parts = parts; phase = Views.Local lc.0 }) i self.old self.new }
    {
        let told = OwnSnap {
            seq: self.all[i].tx().seq,
            snap: snap.copy(),
        };
        tell(&mut self.told, told);
        let own = &mut self.all[i];
        own.certify(lc, snap, parts);
    }

    /// One that is certified and undecided has asked a partition.
    pub fn ask(&mut self, i: usize, lc: Ts, part: PartId)
        requires { OwnHas (λ x. (is_decided x.phase ≡ false) × (lc_of x.phase ≡ Some lc.0)) i self.old.all }
        ensures { ComesTo (λ x. record x { parts = with_asked part x.parts; phase = Views.Global lc.0 }) i self.old self.new }
    {
        let own = &mut self.all[i];
        own.ask(lc, part);
    }

    /// Keeps the answer of a participant. False exactly where the partition is not asked, or the participant is none or has answered; then nothing
    /// changes.
    pub fn ack(&mut self, i: usize, part: PartId, node: NodeId, ts: Ts) -> bool
        requires { i < length self.old.all }
        ensures { KeepsAck part node ts.0 i result self.old self.new }
    {
        let own = &mut self.all[i];
        own.ack(part, node, ts)
    }

    /// One commits, at `fc` where it wrote, and gives its answer away.
    pub fn commit(&mut self, i: usize, fc: Option<Ts>) -> Answer
        requires { OwnHas (λ x. is_decided x.phase ≡ false) i self.old.all }
        ensures own { ComesTo (λ x. decided_as (Views.Committed (lc_of x.phase) (number_if fc)) x) i self.old self.new }
        ensures answer { IsAnswerAt (λ x. Commits fc x.gets) i self.old result }
    {
        self.undecided = without(&self.undecided, i as u32);
        forget(&mut self.told, i as u32 + 1);
        let own = &mut self.all[i];
        own.commit(fc)
    }

    /// One aborts with this cause, and gives its answer away.
    pub fn abort(&mut self, i: usize, cause: Cause) -> Answer
        requires { OwnHas (λ x. is_decided x.phase ≡ false) i self.old.all }
        ensures own { ComesTo (λ x. decided_as (Views.Aborted (lc_of x.phase) cause) x) i self.old self.new }
        ensures answer { IsAnswerAt (λ x. Aborts cause) i self.old result }
    {
        self.undecided = without(&self.undecided, i as u32);
        forget(&mut self.told, i as u32 + 1);
        let own = &mut self.all[i];
        own.abort(cause)
    }
}

/// The places without one.
fn without(places: &OpenPlaces, i: u32) -> OpenPlaces
    ensures { result ≡ filter (λ n. not (n == i)) places.now }
{
    let mut list = OpenPlaces::new();
    for place in places.as_slice() {
        if *place != i {
            list.push(*place);
        }
    }
    list
}

/// Whether one of these dependencies has committed or aborted.
fn has_closed(all: &[OwnTx], deps: &[Dep]) -> bool
    ensures { result ≡ list_any (λ d. is_closed (own_fate (slice_get (map (λ (x : Named). x.own) all.now) (d.seq - 1)))) deps.now }
{
    for dep in deps {
        if !matches!(fate_of(all, dep.seq), FateKind::Undecided) {
            return true;
        }
    }
    false
}

/// What became of these dependencies.
fn fates(all: &[OwnTx], deps: &[Dep]) -> ArrayVec<Fate, 16>
    requires { length deps.now ≤ 16 }
    ensures { Names (map (λ (x : Named). x.own) all.now) deps.now result.items }
{
    let mut fates = ArrayVec::new();
    for dep in deps {
        fates.push(Fate {
            seq: dep.seq,
            kind: fate_of(all, dep.seq),
        });
    }
    fates
}

/// What became of the one with this number.
fn fate_of(all: &[OwnTx], seq: u32) -> FateKind
    ensures { kind_of result ≡ own_fate (slice_get (map (λ (x : Named). x.own) all.now) (seq - 1)) }
{
    let Some(own) = all.get((seq as usize).saturating_sub(1)) else {
        return FateKind::Undecided;
    };
    match own.phase() {
        Phase::Committed { fc: Some(fc), .. } => FateKind::Committed { fc },
        Phase::Aborted { .. } => FateKind::Aborted,
        _ => FateKind::Undecided,
    }
}

/// Tells of one more, in order of number. There is room.
fn tell(told: &mut Vec<OwnSnap>, own: OwnSnap)
    requires { vec_len told.old < vec_capacity told.old }
    ensures told { told.new.items ≡ told_also own told.old.items }
    ensures capacity { vec_capacity told.old ≤ vec_capacity told.new }
{
    let k = place_above(told.as_slice(), own.seq);
    match told.insert(k, own) {
        Ok(()) => {}
        Err(_) => unreachable!(),
    }
}

/// The place of the first with a greater number, how many there are where there is none.
fn place_above(told: &[OwnSnap], seq: u32) -> usize
    ensures { result ≡ position_or_len (λ y. nat_lt seq y.seq) told.now }
{
    for k in 0..told.len() {
        if seq < told[k].seq {
            return k;
        }
    }
    told.len()
}

/// Tells another snapshot of the one with this number, where it is told of.
fn tell_again(told: &mut Vec<OwnSnap>, seq: u32, snap: &Snap)
    ensures told { told.new.items ≡ told_again seq snap.now told.old.items }
    ensures capacity { vec_capacity told.old ≤ vec_capacity told.new }
{
    for k in 0..told.len() {
        let own = &mut told[k];
        if own.seq == seq {
            own.snap = snap.copy();
        }
    }
}

/// Tells no more of the one with this number.
fn forget(told: &mut Vec<OwnSnap>, seq: u32)
    ensures told { told.new.items ≡ told_no_more seq told.old.items }
    ensures capacity { vec_capacity told.old ≤ vec_capacity told.new }
{
    told.retain(|own| own.seq != seq);
}

fn sendable<T: Send + Sync>(_: &T) {}

fn all_sendable(own: &OwnList) {
    sendable(own);
}
