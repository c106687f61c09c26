//! The scripts of a bank scene: the opening, transfers and statements.
ghost use Rattle.std.specs.Prelude.{◌≡◌, ◌↔◌, IfOk, IsTrue, map};
ghost use Rattle.std.specs.List.{list_all};
ghost use Rattle.bank_book.specs.BankScenes.{Fits, IsStatement, IsTransfer, account as account_of, amount as amount_of, are_distinct, are_gets, is_among, is_amount, is_get, is_opening, opens};
ghost use Rattle.str_scene.specs.SceneLimits.{IsScene};
ghost use Rattle.str_scene.specs.Scenes.{script_at};

use std::alloc::{AllocError, Global};
use str_base::KeyId;
use str_scene::{Op, Scene, TxPlace};

/// The most that an account may be opened with, and that a transfer may pay.
const MOST: i64 = 2_147_483_647;

/// The script at a place of a scene, empty where there is none.
pub(crate) fn script(scene: &Scene, place: TxPlace) -> &[Op]
    ensures { result.now ≡ script_at scene.now place }
{
    let sessions = scene.sessions();
    let session = place.session.0 as usize;
    if session == 0 || session > sessions.len() {
        return &[];
    }
    let txs = sessions[session - 1].txs();
    let index = place.index as usize;
    if index == 0 || index > txs.len() {
        return &[];
    }
    txs[index - 1].as_slice()
}

/// Whether an account may be opened with the amount.
fn is_amount(amount: i64) -> bool
    ensures { result ≡ is_amount amount }
{
    0 <= amount && amount <= MOST
}

/// Whether the operation opens an account.
fn opens(op: Op) -> bool
    ensures { result ≡ opens op }
{
    match op {
        Op::Put(_, amount) => is_amount(amount),
        _ => false,
    }
}

/// The account that an operation opens.
fn account(op: Op) -> KeyId
    ensures { result ≡ account_of op }
{
    match op {
        Op::Put(key, _) => key,
        _ => KeyId(0),
    }
}

/// What an operation opens its account with.
fn amount(op: Op) -> i64
    ensures { result ≡ amount_of op }
{
    match op {
        Op::Put(_, amount) => amount,
        _ => 0,
    }
}

/// The accounts that the operations open.
pub(crate) fn accounts(alloc: Global, ops: &[Op]) -> Result<Vec<KeyId>, AllocError>
    ensures { IfOk result (λ keys. keys.items ≡ map account_of ops.now) }
{
    let mut keys = Vec::new(alloc);
    for op in ops {
        keys.push(account(*op))?;
    }
    Ok(keys)
}

/// What the operations open their accounts with.
pub(crate) fn amounts(alloc: Global, ops: &[Op]) -> Result<Vec<i64>, AllocError>
    ensures { IfOk result (λ numbers. numbers.items ≡ map amount_of ops.now) }
{
    let mut numbers = Vec::new(alloc);
    for op in ops {
        numbers.push(amount(*op))?;
    }
    Ok(numbers)
}

/// Whether the key is one of these.
fn is_among(keys: &[KeyId], key: KeyId) -> bool
    ensures { result ≡ is_among keys.now key }
{
    keys.iter().any(|account| account.0 == key.0)
}

/// Whether no key stands twice.
fn are_distinct(keys: &[KeyId]) -> bool
    ensures { result ≡ are_distinct keys.now }
{
    match keys {
        [] => true,
        [first, rest @ ..] => !is_among(rest, *first) && are_distinct(rest),
    }
}

/// Whether each of the operations opens an account.
fn all_open(ops: &[Op]) -> bool
    ensures { result ≡ list_all opens ops.now }
{
    ops.iter().all(|op| opens(*op))
}

/// Whether the operations are an opening, where they name these accounts.
pub(crate) fn is_opening(ops: &[Op], accounts: &[KeyId]) -> bool
    requires { accounts.now ≡ map account_of ops.now }
    ensures { result ≡ is_opening ops.now }
{
    !ops.is_empty() && (all_open(ops) && are_distinct(accounts))
}

/// Whether the operations are a transfer between two of these accounts.
fn is_transfer(accounts: &[KeyId], ops: &[Op]) -> bool
    ensures { IsTrue result ↔ IsTransfer accounts.now ops.now }
{
    let [
        Op::Need(payer, paid),
        Op::Add(giver, less),
        Op::Add(payee, more),
    ] = ops
    else {
        return false;
    };
    1 <= *paid
        && *paid <= MOST
        && *less == -*paid
        && more == paid
        && giver == payer
        && payee != payer
        && is_among(accounts, *payer)
        && is_among(accounts, *payee)
}

/// Whether the operation gets the key.
fn is_get(key: KeyId, op: Op) -> bool
    ensures { result ≡ is_get key op }
{
    match op {
        Op::Get(got) => got.0 == key.0,
        _ => false,
    }
}

/// Whether the operations get these keys, one after the other.
fn are_gets(keys: &[KeyId], ops: &[Op]) -> bool
    ensures { result ≡ are_gets keys.now ops.now }
{
    match keys {
        [] => ops.is_empty(),
        [key, keys @ ..] => match ops {
            [] => false,
            [op, ops @ ..] => is_get(*key, *op) && are_gets(keys, ops),
        },
    }
}

/// Whether the operations are a statement of these accounts.
#[tactic(auto, using(crate::proofs::Gets::gets_decided))]
fn is_statement(accounts: &[KeyId], ops: &[Op]) -> bool
    ensures { IsTrue result ↔ IsStatement accounts.now ops.now }
{
    are_gets(accounts, ops)
}

/// Whether the operations are a transfer or a statement.
pub(crate) fn fits(accounts: &[KeyId], ops: &[Op]) -> bool
    ensures { IsTrue result ↔ Fits accounts.now ops.now }
{
    is_transfer(accounts, ops) || is_statement(accounts, ops)
}

/// A scene keeps its limits. It has no effect.
pub(crate) fn keeps_limits(scene: &Scene)
    ensures { IsScene scene.now }
{
    let _sessions = scene.sessions();
}
