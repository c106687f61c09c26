//! The book of a scene that is to be a bank's.
ghost use Rattle.bank_book.specs.BankScenes.{IsBank};
ghost use Rattle.std.specs.Prelude.{◌≡◌, IfErr, IfOk};
ghost use Rattle.strun.specs.Failing.{RefusesScene};
ghost use Rattle.strun.specs.Inputs.{not_bank_said};
ghost use Rattle.top_status.specs.Failures.{RefusesWith};

use bank_book::reading::book;
use bank_book::{Book, BookFault};
use std::alloc::{AllocError, Global};
use str_base::push_u64;
use str_scene::{Scene, TxPlace};
use top_status::Failure;

/// The book of a scene. A scene that is no bank's is refused, by its first transaction that fits no form.
pub(crate) fn book_of(alloc: Global, scene: &Scene) -> Result<Book, Failure>
    ensures bank { IfOk result (λ b. IsBank scene.now b.accounts.items b.amounts.items) }
    ensures refused { IfErr result (RefusesScene scene.now) }
{
    match book(alloc, scene) {
        Ok(book) => Ok(book),
        Err(BookFault::Not { place }) => Err(refuse_not_bank(alloc, place)),
        Err(BookFault::Memory) => Err(Failure::Memory),
    }
}

/// The refusal of a scene whose transaction at this place shows that it is no bank's, or want of memory.
fn refuse_not_bank(alloc: Global, place: TxPlace) -> Failure
    ensures { RefusesWith (not_bank_said place) result }
{
    match not_bank_text(alloc, place) {
        Ok(said) => Failure::Refused(said),
        Err(_) => Failure::Memory,
    }
}

/// What is said of it.
fn not_bank_text(alloc: Global, place: TxPlace) -> Result<Vec<u8>, AllocError>
    ensures { IfOk result (λ text. text.items ≡ not_bank_said place) }
{
    let mut text = Vec::new(alloc);
    text.extend_from_slice(b"transaction ")?;
    push_u64(&mut text, u64::from(place.session.0))?;
    text.extend_from_slice(b"/")?;
    push_u64(&mut text, u64::from(place.index))?;
    text.extend_from_slice(b": not a bank")?;
    Ok(text)
}
