//! Answers against the evaluation of their scripts on a ledger.
ghost use Rattle.history_audit.specs.Ledgers.{IsLedger, IsRisingLedger};
ghost use Rattle.history_audit.specs.Orders.{IsRisingOrder, members_by};
ghost use Rattle.history_audit.specs.Tests.{IsSnapshotOn, IsWishOn, evaluated_on};
ghost use Rattle.si_laws.specs.SnapshotIsolation.{IsAnswer, IsFinal};
ghost use Rattle.std.specs.Prelude.{IsTrue, List, OnOk, [], length, ◌↔◌, ◌≡◌, ℕ};
ghost use Rattle.str_model.specs.declared.messages.Answer.{Answer};

use crate::evaluations::{Ending, Evaluation, evaluate};
use crate::ledgers::Ledger;
use crate::orders::FinalCommit;
use crate::places::script_at;
use std::alloc::AllocError;
use str_base::{Cause, Ts};
use str_model::{Answer, Gets, Outcome};
use str_scene::Scene;

/// Fills a ledger with the commits of an order, each of which evaluates its script on those before it.
pub fn refill(ledger: &mut Ledger, scene: &Scene, order: &[FinalCommit]) -> Result<(), AllocError>
    requires keys { length ledger.old ≡ length scene.now.keys.names }
    requires rising { IsRisingOrder order.now }
    ensures keys { length ledger.new ≡ length ledger.old }
    ensures filled { OnOk result (IsLedger ledger.new (members_by scene.now [] order.now)) }
    ensures rising { OnOk result (IsRisingLedger ledger.new) }
{
    ledger.clear();
    for commit in order {
        let done = evaluate(ledger, &script_at(scene, commit.place), commit.rs);
        ledger.push(commit.fc, &done.writes)?;
    }
    Ok(())
}

/// What an answer's script gives on a ledger.
fn evaluated(ledger: &Ledger, scene: &Scene, answer: &Answer) -> Evaluation
    requires { IsRisingLedger ledger.now }
    ensures { result ≡ evaluated_on scene.now ledger.now answer.now }
{
    evaluate(ledger, &script_at(scene, answer.place), answer.rs)
}

/// Whether the gets are the same.
fn same_gets(gets: &Gets, others: &Gets) -> bool
    ensures { IsTrue result ↔ gets.now ≡ others.now }
{
    gets.as_slice() == others.as_slice()
}

/// Whether the final timestamp is missing exactly where there are no writes, and else is above the snapshot.
fn is_final(rs: Ts, fc: Option<Ts>, done: &Evaluation) -> bool
    ensures { IsTrue result ↔ IsFinal rs.0 fc done.now.writes }
{
    match fc {
        None => done.writes.len() == 0,
        Some(fc) => done.writes.len() > 0 && rs.0 < fc.0,
    }
}

/// Whether a committed answer is what its script gives.
fn is_snapshot(ledger: &Ledger, scene: &Scene, answer: &Answer) -> bool
    requires { IsRisingLedger ledger.now }
    ensures { IsTrue result ↔ IsSnapshotOn scene.now ledger.now answer.now }
{
    match &answer.outcome {
        Outcome::Committed { fc, gets } => {
            let done = evaluated(ledger, scene, answer);
            matches!(done.ending, Ending::AtEnd)
                && same_gets(&done.gets, gets)
                && is_final(answer.rs, *fc, &done)
        }
        Outcome::Aborted { .. } => true,
    }
}

/// Whether each committed answer is what its script gives.
pub fn are_snapshots(ledger: &Ledger, scene: &Scene, answers: &[Answer]) -> bool
    requires { IsRisingLedger ledger.now }
    ensures { IsTrue result ↔ ((i : ℕ) (a : Answer) → IsAnswer answers.now i a → IsSnapshotOn scene.now ledger.now a) }
{
    for answer in answers {
        if !is_snapshot(ledger, scene, answer) {
            return false;
        }
    }
    true
}

/// Whether the script of an answer that wished to abort does not come to its end.
fn is_wish(ledger: &Ledger, scene: &Scene, answer: &Answer) -> bool
    requires { IsRisingLedger ledger.now }
    ensures { IsTrue result ↔ IsWishOn scene.now ledger.now answer.now }
{
    match &answer.outcome {
        Outcome::Aborted { cause: Cause::Wish } => {
            let done = evaluated(ledger, scene, answer);
            !matches!(done.ending, Ending::AtEnd)
        }
        _ => true,
    }
}

/// Whether the script of each answer that wished to abort does not come to its end.
pub fn are_wishes(ledger: &Ledger, scene: &Scene, answers: &[Answer]) -> bool
    requires { IsRisingLedger ledger.now }
    ensures { IsTrue result ↔ ((i : ℕ) (a : Answer) → IsAnswer answers.now i a → IsWishOn scene.now ledger.now a) }
{
    for answer in answers {
        if !is_wish(ledger, scene, answer) {
            return false;
        }
    }
    true
}
