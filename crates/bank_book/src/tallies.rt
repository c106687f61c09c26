//! What the committed transfers come to at an account.
ghost use Rattle.std.specs.Prelude.{◌≡◌, IfOk, length, ◌+ℤ◌};
ghost use Rattle.std.specs.List.{list_any};
ghost use Rattle.std.specs.Int.{int_wrap, w64};
ghost use Rattle.bank_book.specs.Tallies.{added as added_to, adds as adds_to, has_committed as is_commit, moved as moved_to, gained, tallied, tallies as all_tallied};

use crate::scripts::script;
use std::alloc::{AllocError, Global};
use str_base::{KeyId, Value};
use str_model::{Answer, Got, Outcome};
use str_scene::{Op, Scene};

/// Each account with its value by the tally, where the opening gives these amounts.
#[tactic(auto, using(crate::proofs::Tallied::tallies_more))]
pub(crate) fn tallies(
    alloc: Global,
    accounts: &[KeyId],
    amounts: &[i64],
    scene: &Scene,
    answers: &[Answer],
) -> Result<Vec<Got>, AllocError>
    requires { length accounts.now ≡ length amounts.now }
    ensures { IfOk result (λ gots. gots.items ≡ all_tallied scene.now answers.now accounts.now amounts.now) }
{
    let mut gots = Vec::new(alloc);
    for (i, key) in accounts.iter().enumerate() {
        let value = balance(scene, answers, *key, amounts[i]);
        gots.push(Got { key: *key, value })?;
    }
    Ok(gots)
}

/// The value of an account that the opening gives an amount. Only the first committed transaction opens accounts, so nothing is held where
/// nothing has committed.
fn balance(scene: &Scene, answers: &[Answer], key: KeyId, amount: i64) -> Value
    ensures { result ≡ tallied scene.now key amount answers.now }
{
    if !any_committed(answers) {
        return Value::Absent;
    }
    Value::Num(credited(amount, gained(scene, answers, key)))
}

/// An amount and what was gained, wrapped to 64 bits.
fn credited(amount: i64, gained: i64) -> i64
    ensures { result ≡ int_wrap w64 (amount +ℤ gained) }
{
    amount.wrapping_add(gained)
}

/// What the answers add to a key, in any order: that sum may leave 64 bits on the way and wraps, and comes back.
fn gained(scene: &Scene, answers: &[Answer], key: KeyId) -> i64
    ensures { result ≡ int_wrap w64 (gained scene.now key answers.now) }
{
    let mut sum: i64 = 0;
    for answer in answers {
        sum = sum.wrapping_add(moved(scene, key, answer));
    }
    sum
}

/// Whether one of the answers is in the commit list.
fn any_committed(answers: &[Answer]) -> bool
    ensures { result ≡ list_any (λ a. is_commit a.outcome) answers.now }
{
    answers.iter().any(|answer| has_committed(&answer.outcome))
}

/// Whether an answer is in the commit list.
fn has_committed(outcome: &Outcome) -> bool
    ensures { result ≡ is_commit outcome.now }
{
    matches!(outcome, Outcome::Committed { fc: Some(_), .. })
}

/// What an answer in the commit list adds to a key, wrapped to 64 bits.
fn moved(scene: &Scene, key: KeyId, answer: &Answer) -> i64
    ensures { result ≡ int_wrap w64 (moved_to scene.now key answer.now) }
{
    if !has_committed(&answer.outcome) {
        return 0;
    }
    added(key, script(scene, answer.place))
}

/// What a script adds to a key, wrapped to 64 bits.
fn added(key: KeyId, ops: &[Op]) -> i64
    ensures { result ≡ int_wrap w64 (added_to key ops.now) }
{
    let mut sum: i64 = 0;
    for op in ops {
        sum = sum.wrapping_add(adds(key, *op));
    }
    sum
}

/// What an operation adds to a key.
fn adds(key: KeyId, op: Op) -> i64
    ensures { result ≡ adds_to key op }
{
    match op {
        Op::Add(account, number) if account.0 == key.0 => number,
        _ => 0,
    }
}
