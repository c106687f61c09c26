//! An own transaction.
ghost use Rattle.cascade_abort.specs.Fates.{Names, left, turn_of as turn_of_look};
ghost use Rattle.node_parts.specs.Owning.{HasParts, HasPlace, IsFree, Named, turned};
ghost use Rattle.node_parts.specs.Phases.{number_if, phase_of};
ghost use Rattle.std.specs.Prelude.{◌≡◌, ◌<◌, ◌≤◌, ◌++◌, ◌&&◌, ◌∷◌, [], List, MatchOption, None, Some, false, is_some, length, not, true};
ghost use Rattle.str_base.specs.Versions.{same_node, same_part, stamp};
ghost use Rattle.str_model.specs.Acts.{decided_as, fresh, in_phase, with_asked};
ghost use Rattle.str_model.specs.declared.messages.Answer.{Answer as AnAnswer};
ghost use Rattle.str_model.specs.declared.messages.Outcome.TheVariants.{Aborted as Aborts, Committed as Commits};
ghost use Rattle.str_model.specs.Returns.{with_ack};
ghost use Rattle.str_model.specs.Scripts.{noted};
ghost use Rattle.str_model.specs.Turns.{dep_turn};
ghost use Rattle.str_model.specs.Views;
ghost use Rattle.str_model.specs.Views.{Own, is_decided, lc_of};
ghost use Rattle.tx_script.specs.Doing.{run_of};
ghost use Rattle.tx_script.specs.Turns.{turn_of};

use crate::phases::Phase;
use cascade_abort::{DepTurn, Fate, resolve};
use dependency_set::{Deps, Snap};
use held_answer::HeldAnswer;
use partition_map::{Asked, Participants};
use std::marker::{Model, Send, Sync};
use std::mem::replace;
use str_base::{Cause, KeyId, NodeId, PartId, Ts, TxId, Value, Writes};
use str_model::Answer;
use str_scene::{OpList, TxPlace};
use tx_script::{ScriptRun, Turn};

/// An own transaction: its name and place, its snapshot, how far its script has come, the answer that it holds until it is decided, its
/// participants once it is certified, and its phase.
#[derive(Drop)]
pub struct OwnTx {
    tx: TxId,
    place: TxPlace,
    snap: Snap,
    run: ScriptRun,
    held: Option<HeldAnswer>,
    parts: Participants,
    phase: Phase,
}

impl Model for OwnTx {
    ghost use Rattle.node_parts.specs.Owning.{IsHeld, Named as Value_, gets_of};
    ghost use Rattle.node_parts.specs.Phases.{phase_of};
    ghost use Rattle.str_model.specs.Views.{is_decided};

    ghost Value = { Value_ };

    ghost view = { λ x. record { tx = x.tx; own = record { place = x.place; snap = x.snap; next = x.run.next; writes = x.run.writes; reads = x.run.reads; gets = gets_of x.held; parts = x.parts; phase = phase_of x.phase } } };

    ghost invariant = { λ x. IsHeld x.tx x.place x.snap.rs (is_decided (phase_of x.phase)) x.held };
}

impl OwnTx {
    /// One that begins.
    pub(crate) fn fresh(tx: TxId, place: TxPlace, rs: Ts) -> OwnTx
        ensures { result ≡ record { tx = tx; own = fresh place rs.0 } }
    {
        OwnTx {
            tx,
            place,
            snap: Snap::new(rs, Ts(0), Deps::new()),
            run: ScriptRun::new(),
            held: Some(HeldAnswer::new(tx, place, rs)),
            parts: Participants::new(),
            phase: Phase::Active,
        }
    }

    /// Its name.
    pub fn tx(&self) -> TxId
        ensures { result ≡ self.now.tx }
    {
        self.tx
    }

    /// Its place in the scene.
    pub fn place(&self) -> TxPlace
        ensures { result ≡ self.now.own.place }
    {
        self.place
    }

    /// Its snapshot.
    pub fn snap(&self) -> &Snap
        ensures { result.now ≡ self.now.own.snap }
    {
        &self.snap
    }

    /// Its writes in order of first write.
    pub fn writes(&self) -> &Writes
        ensures { result.now ≡ self.now.own.writes }
    {
        self.run.writes()
    }

    /// Its participants, none before it is certified.
    pub fn parts(&self) -> &Participants
        ensures { result.now ≡ self.now.own.parts }
    {
        &self.parts
    }

    /// How far it has come.
    pub fn phase(&self) -> Phase
        ensures { phase_of result ≡ self.now.own.phase }
    {
        self.phase
    }

    /// Does the next operation of its script. A get is kept. Where the operation is done it is Active, and where a need is not met it closes
    /// with a wish.
    pub(crate) fn operate(&mut self, ops: &OpList) -> Turn
        requires free { IsFree self.old.own }
        requires gets { HasPlace ops.now self.old.own }
        ensures turn { result ≡ (turn_of ops.now (run_of self.old.own)).turn }
        ensures own { self.new.own ≡ turned (turn_of ops.now (run_of self.old.own)) self.old.own }
        ensures tx { self.new.tx ≡ self.old.tx }
    {
        let turn = self.run.turn(ops);
        match turn {
            Turn::Got { key, value } => self.note(key, value),
            Turn::Moved => self.phase = Phase::Active,
            Turn::Unmet => self.phase = Phase::Closing { wish: true },
            Turn::Ask { .. } | Turn::Wished | Turn::End => {}
        }
        turn
    }

    /// Keeps what a read gave, with the snapshot from now on.
    pub(crate) fn keep_read(&mut self, key: KeyId, value: Value, by: Option<TxId>, snap: Snap)
        requires reads { length self.old.own.reads < 16 }
        requires rs { snap.rs ≡ self.old.own.snap.rs }
        ensures { self.new ≡ record self.old { own = noted key value by snap self.old.own } }
    {
        self.run.give(key, value, by);
        self.snap = snap;
    }

    /// It comes to another phase of one that is undecided, or that is decided as before.
    pub(crate) fn set_phase(&mut self, phase: Phase)
        requires { is_decided (phase_of phase) ≡ is_decided self.old.own.phase }
        ensures { self.new ≡ record self.old { own = in_phase (phase_of phase) self.old.own } }
    {
        self.phase = phase;
    }

    /// Looks at its dependencies. Those that were looked at and committed leave its snapshot.
    pub(crate) fn resolve(&mut self, fates: &[Fate]) -> DepTurn
        ensures turn { (own : List Own) → Names own self.old.own.snap.deps fates.now → turn_of_look result self.new.own.snap ≡ dep_turn own self.old.own.snap }
        ensures own { self.new ≡ record self.old { own = record (self.old.own) { snap = left fates.now self.old.own.snap } } }
    {
        resolve(&mut self.snap, fates)
    }

    /// It is certified.
    pub(crate) fn certify(&mut self, lc: Ts, snap: Snap, parts: Participants)
        requires free { IsFree self.old.own }
        requires rs { snap.rs ≡ self.old.own.snap.rs }
        ensures { self.new ≡ record self.old { own = record (self.old.own) { snap = snap; parts = parts; phase = Views.Local lc.0 } } }
    {
        self.snap = snap;
        self.parts = parts;
        self.phase = Phase::Local { lc };
    }

    /// It has asked a partition.
    pub(crate) fn ask(&mut self, lc: Ts, part: PartId)
        requires { is_decided self.old.own.phase ≡ false }
        ensures { self.new ≡ record self.old { own = record (self.old.own) { parts = with_asked part self.old.own.parts; phase = Views.Global lc.0 } } }
    {
        self.parts = with_asked(&self.parts, part);
        self.phase = Phase::Global { lc };
    }

    /// Keeps the answer of a participant. False exactly where the partition is not asked, or the participant is none or has answered; then nothing
    /// changes.
    pub(crate) fn ack(&mut self, part: PartId, node: NodeId, ts: Ts) -> bool
        ensures { HasParts (with_ack self.old.own.parts part node ts.0) result self.old self.new }
    {
        match with_ack(&self.parts, part, node, ts) {
            Some(parts) => {
                self.parts = parts;
                true
            }
            None => false,
        }
    }

    /// It commits, at `fc` where it wrote, and gives its answer away.
    pub(crate) fn commit(&mut self, fc: Option<Ts>) -> Answer
        requires { is_decided self.old.own.phase ≡ false }
        ensures own { self.new ≡ record self.old { own = decided_as (Views.Committed (lc_of self.old.own.phase) (number_if fc)) self.old.own } }
        ensures answer { result ≡ record { tx = self.old.tx; place = self.old.own.place; rs = stamp self.old.own.snap.rs; outcome = Commits fc self.old.own.gets } }
    {
        let lc = self.phase.lc();
        self.phase = Phase::Committed { lc, fc };
        match replace(&mut self.held, None) {
            Some(held) => held.commit(fc),
            None => unreachable!(),
        }
    }

    /// It aborts with this cause, and gives its answer away.
    pub(crate) fn abort(&mut self, cause: Cause) -> Answer
        requires { is_decided self.old.own.phase ≡ false }
        ensures own { self.new ≡ record self.old { own = decided_as (Views.Aborted (lc_of self.old.own.phase) cause) self.old.own } }
        ensures answer { result ≡ record { tx = self.old.tx; place = self.old.own.place; rs = stamp self.old.own.snap.rs; outcome = Aborts cause } }
    {
        let lc = self.phase.lc();
        self.phase = Phase::Aborted { lc, cause };
        match replace(&mut self.held, None) {
            Some(held) => held.abort(cause),
            None => unreachable!(),
        }
    }

    /// Notes a get. It is Active.
    fn note(&mut self, key: KeyId, value: Value)
        requires free { is_decided self.old.own.phase ≡ false }
        requires gets { length self.old.own.gets < 16 }
        ensures { self.new ≡ record self.old { own = record (self.old.own) { gets = self.old.own.gets ++ record { key = key; value = value } ∷ []; phase = Views.Active } } }
    {
        if let Some(held) = &mut self.held {
            held.note(key, value);
        }
        self.phase = Phase::Active;
    }
}

/// The participants with a partition asked.
fn with_asked(parts: &Participants, part: PartId) -> Participants
    ensures { result ≡ with_asked part parts.now }
{
    let mut list = Participants::new();
    for other in parts.as_slice() {
        let asked = other.asked || other.part == part;
        list.push(Asked { asked, ..*other });
    }
    list
}

/// The participants with an answer; none where the partition is not asked, or the participant is none or has answered.
fn with_ack(parts: &Participants, part: PartId, node: NodeId, ts: Ts) -> Option<Participants>
    ensures { result ≡ with_ack parts.now part node ts.0 }
{
    let mut list = Participants::new();
    let mut is_missing = true;
    for other in parts.as_slice() {
        if is_missing && awaits(other, part, node) {
            is_missing = false;
            list.push(Asked {
                ack: Some(ts),
                ..*other
            });
        } else {
            list.push(*other);
        }
    }
    if is_missing { None } else { Some(list) }
}

/// Whether it is this participant, was asked and has not answered.
fn awaits(other: &Asked, part: PartId, node: NodeId) -> bool
    ensures { result ≡ (same_part other.now.part part && (same_node other.now.node node && (other.now.asked && not (is_some other.now.ack)))) }
{
    other.part == part && other.node == node && other.asked && other.ack.is_none()
}

fn sendable<T: Send + Sync>(_: &T) {}

fn all_sendable(own: &OwnTx) {
    sendable(own);
}
