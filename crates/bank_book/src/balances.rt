//! The balances of the accounts of a bank after a run.
ghost use Rattle.std.specs.Prelude.{◌≡◌, IfOk};
ghost use Rattle.bank_book.specs.Balances.{balances_of};
ghost use Rattle.bank_book.specs.BankScenes.{IsBank};
ghost use Rattle.si_laws.specs.SnapshotIsolation.{SIRun};

use crate::books::Book;
use crate::scripts::keeps_limits;
use crate::tallies::tallies;
use std::alloc::{AllocError, Global};
use str_model::{Answer, Got};
use str_scene::Scene;

/// Each account in order of the opening, with its value in the commit list of the answers. The book is the scene's, and the answers
/// are a run of the snapshot isolation machine.
pub fn balances(
    alloc: Global,
    book: &Book,
    scene: &Scene,
    answers: &Vec<Answer>,
) -> Result<Vec<Got>, AllocError>
    requires bank { IsBank scene.now book.now.accounts.items book.now.amounts.items }
    requires run { SIRun scene.now answers.now.items }
    ensures { IfOk result (λ gots. gots.items ≡ balances_of scene.now answers.now.items book.now.accounts.items) }
{
    keeps_limits(scene);
    tallies(
        alloc,
        book.accounts.as_slice(),
        book.amounts.as_slice(),
        scene,
        answers.as_slice(),
    )
}
