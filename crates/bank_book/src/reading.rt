//! The book of a scene: its accounts, and what each was opened with.
ghost use Rattle.std.specs.Prelude.{◌≡◌, ◌≤◌, IfErr, IfNone, IfOk, IfSome, length};
ghost use Rattle.bank_book.specs.BankScenes.{IsBank};
ghost use Rattle.bank_book.specs.Books.{AllFit, AllFitIn, IsFirstIn, IsFirstUnfit, IsReason, skipped};
ghost use Rattle.str_base.specs.declared.limits.TheConstants.{TRANSACTIONS};

use crate::books::{Book, BookFault};
use crate::scripts::{accounts, amounts, fits, is_opening, script};
use std::alloc::Global;
use str_base::{KeyId, SessionId};
use str_scene::{OpList, Scene, TxPlace};

/// The place of the opening.
const OPENING: TxPlace = TxPlace {
    session: SessionId(1),
    index: 1,
};

/// The book of a scene. It fails where the scene is no bank's, by the place of the first transaction that fits no form, which is
/// the first one of the first session where that is no opening; and where memory runs out.
#[tactic(auto, using(crate::proofs::NoBook::without_opening, crate::proofs::NoBook::with_unfit, crate::proofs::NoBook::all_fit))]
pub fn book(alloc: Global, scene: &Scene) -> Result<Book, BookFault>
    ensures ok { IfOk result (λ b. IsBank scene.now b.accounts.items b.amounts.items) }
    ensures err { IfErr result (λ f. IsReason scene.now f) }
{
    let opening = script(scene, OPENING);
    let accounts = accounts(alloc, opening)?;
    if !is_opening(opening, accounts.as_slice()) {
        return Err(BookFault::Not { place: OPENING });
    }
    if let Some(place) = first_unfit(accounts.as_slice(), scene) {
        return Err(BookFault::Not { place });
    }
    let amounts = amounts(alloc, opening)?;
    Ok(Book { accounts, amounts })
}

/// How many scripts of the session with this index, from 0, are the opening.
fn skipped(session: usize) -> usize
    ensures { result ≡ skipped session }
{
    if session == 0 { 1 } else { 0 }
}

/// The place of the first transaction after the opening that is neither a transfer nor a statement.
#[tactic(auto, using(crate::proofs::FirstUnfit::first_here, crate::proofs::FirstUnfit::all_fit_here, crate::proofs::FirstUnfit::few_scripts))]
fn first_unfit(accounts: &[KeyId], scene: &Scene) -> Option<TxPlace>
    ensures some { IfSome result (λ place. IsFirstUnfit scene.now accounts.now place) }
    ensures none { IfNone result (AllFit scene.now accounts.now) }
{
    let sessions = scene.sessions();
    for (i, session) in sessions.iter().enumerate() {
        if let Some(index) = first_unfit_in(accounts, session.txs(), skipped(i)) {
            let session = SessionId(i as u8 + 1);
            return Some(TxPlace { session, index });
        }
    }
    None
}

/// The index, from 1, of the first script after the skipped ones that is neither a transfer nor a statement.
#[tactic(auto, using(crate::proofs::FirstUnfit::first_in, crate::proofs::FirstUnfit::none_before))]
fn first_unfit_in(accounts: &[KeyId], txs: &[OpList], skipped: usize) -> Option<u32>
    requires { length txs.now ≤ TRANSACTIONS }
    ensures some { IfSome result (λ index. IsFirstIn accounts.now txs.now skipped index) }
    ensures none { IfNone result (AllFitIn accounts.now txs.now skipped) }
{
    for (i, ops) in txs.iter().enumerate() {
        if skipped <= i && !fits(accounts, ops.as_slice()) {
            return Some(i as u32 + 1);
        }
    }
    None
}
