//! What stood at a timestamp.
ghost use Rattle.history_audit.specs.Ledgers.{IsRisingLedger, look_in};
ghost use Rattle.history_audit.specs.Values.{listed, values_at, values_by};
ghost use Rattle.si_laws.specs.SnapshotIsolation.{SIRun};
ghost use Rattle.std.specs.Prelude.{IfOk, OnOk, ◌++◌, ◌≡◌};

use crate::ledgers::Ledger;
use crate::orders::order_of;
use crate::snapshots::refill;
use std::alloc::{AllocError, Global};
use str_base::{KeyId, Ts, Value};
use str_model::{Answer, Got};
use str_scene::Scene;

/// A key and its value, where it has one.
fn list_key(values: &mut Vec<Got>, key: KeyId, value: Value) -> Result<(), AllocError>
    ensures { OnOk result (values.new.items ≡ values.old.items ++ listed key value) }
{
    match value {
        Value::Absent => Ok(()),
        Value::Num(_) | Value::Text(_) => {
            values.push(Got { key, value })?;
            Ok(())
        }
    }
}

/// Each of the first keys of a ledger with its value at a timestamp, where it has one.
fn listed(alloc: Global, ledger: &Ledger, keys: u32, t: Ts) -> Result<Vec<Got>, AllocError>
    requires { IsRisingLedger ledger.now }
    ensures { IfOk result (λ v. v.items ≡ values_by (look_in ledger.now t.0) keys) }
{
    let mut values = Vec::new(alloc);
    for number in 0..keys {
        let key = KeyId(number);
        list_key(&mut values, key, ledger.look(key, t))?;
    }
    Ok(values)
}

/// Each key of the scene that has a value in what was committed with a final timestamp of at most `t`, with that value, in the order
/// of the scene's table of keys. The answers are those of a run of the snapshot isolation machine.
///
/// # Errors
///
/// Where memory is wanting.
pub fn values_at(
    alloc: Global,
    scene: &Scene,
    answers: &Vec<Answer>,
    t: Ts,
) -> Result<Vec<Got>, AllocError>
    requires { SIRun scene.now answers.now.items }
    ensures { IfOk result (λ v. v.items ≡ values_at scene.now answers.now.items t.0) }
{
    let order = order_of(alloc, answers)?;
    let keys = scene.keys().len();
    let mut ledger = Ledger::new(alloc, keys)?;
    refill(&mut ledger, scene, &order)?;
    listed(alloc, &ledger, keys, t)
}
