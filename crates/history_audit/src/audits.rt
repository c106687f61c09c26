//! Whether answers are a run of the snapshot isolation machine.
ghost use Rattle.history_audit.specs.Orders.{order_of};
ghost use Rattle.history_audit.specs.Verdicts.{IsFound, IsVerdict};
ghost use Rattle.history_audit.specs.declared.verdicts.Verdict.TheVariants.{Yes};
ghost use Rattle.si_laws.specs.SnapshotIsolation.{SI, SIRun};
ghost use Rattle.std.specs.Prelude.{IfOk, None, OnOk, [], length, ◌++◌, ◌∷◌, ◌↔◌, ◌≡◌};

use crate::ledgers::Ledger;
use crate::orders::{FinalCommit, put_commit};
use crate::places::is_placed;
use crate::sessions::{keeps_order, overlaps_none};
use crate::snapshots::{are_snapshots, are_wishes, refill};
use crate::verdicts::Verdict;
use std::alloc::{AllocError, Global};
use str_model::Answer;
use str_scene::Scene;

/// The commits of the answers so far in their order, and a ledger to fill with them.
#[derive(Drop)]
struct Books {
    order: Vec<FinalCommit>,
    ledger: Ledger,
}

/// The least clause of snapshot isolation that fails of all answers, where one does: of the earlier ones, of which it holds, and one more.
fn failing(
    books: &mut Books,
    scene: &Scene,
    earlier: &[Answer],
    answer: &Answer,
    all: &[Answer],
) -> Result<Option<u8>, AllocError>
    requires whole { earlier.now ++ answer.now ∷ [] ≡ all.now }
    requires before { SI scene.now earlier.now }
    requires order { books.old.order.items ≡ order_of earlier.now }
    requires keys { length books.old.ledger ≡ length scene.now.keys.names }
    ensures keys { length books.new.ledger ≡ length books.old.ledger }
    ensures found { IfOk result (λ o. IsFound scene.now all.now o) }
    ensures order { IfOk result (λ o. o ≡ None → books.new.order.items ≡ order_of all.now) }
{
    if !is_placed(scene, earlier, answer) {
        return Ok(Some(1));
    }
    put_commit(&mut books.order, answer)?;
    refill(&mut books.ledger, scene, &books.order)?;
    if !are_snapshots(&books.ledger, scene, all) {
        return Ok(Some(2));
    }
    if !overlaps_none(scene, earlier, answer) {
        return Ok(Some(3));
    }
    if !keeps_order(earlier, answer) {
        return Ok(Some(4));
    }
    if !are_wishes(&books.ledger, scene, all) {
        return Ok(Some(5));
    }
    Ok(None)
}

/// Whether answers are a run of the snapshot isolation machine of a scene, and else the least answer and the least clause of
/// snapshot isolation that fails there.
///
/// # Errors
///
/// Where memory is wanting.
pub fn audit(alloc: Global, scene: &Scene, answers: &Vec<Answer>) -> Result<Verdict, AllocError>
    ensures verdict { IfOk result (λ v. IsVerdict scene.now answers.now.items v) }
    ensures yes { IfOk result (λ v. v ≡ Yes ↔ SIRun scene.now answers.now.items) }
{
    let answers = answers.as_slice();
    let mut books = Books {
        order: Vec::new(alloc),
        ledger: Ledger::new(alloc, scene.keys().len())?,
    };
    for count in 0..answers.len() {
        let earlier = &answers[..count];
        let all = &answers[..count + 1];
        match failing(&mut books, scene, earlier, &answers[count], all)? {
            None => {}
            Some(clause) => {
                let answer = count as u64 + 1;
                return Ok(Verdict::No { answer, clause });
            }
        }
    }
    Ok(Verdict::Yes)
}
