//! The evaluation of a script on a snapshot that is looked up.
ghost use Rattle.history_audit.specs.Ledgers.{IsRisingLedger, look_in};
ghost use Rattle.history_audit.specs.Steps.{IsAfter, after_step, step_of};
ghost use Rattle.str_base.specs.declared.names.KeyId.{KeyId};
ghost use Rattle.str_base.specs.declared.names.Value.{Value};
ghost use Rattle.str_scene.specs.declared.names.Op.{Op};
ghost use Rattle.str_base.specs.Values.{is_below, number_or_zero, set_write, sum_with};
ghost use Rattle.str_base.specs.Versions.{same_key};
ghost use Rattle.str_model.specs.Evaluation.{eval, value_at, write_or};
ghost use Rattle.std.specs.Prelude.{List, find, length, ◌+◌, ◌≡◌, ◌<◌, ◌≤◌};

use crate::ledgers::Ledger;
use std::marker::Model;
use str_base::{KeyId, Ts, Value, Write, Writes};
use str_model::{Gets, Got};
use str_scene::{Op, OpList};

/// How a script stops: at its end, at a need that is not met, or at an abort.
#[derive(Drop)]
pub enum Ending {
    AtEnd,
    Unmet,
    Wished,
}

/// What an operation comes to: a get, a write, nothing, or that the script stops.
#[derive(Drop)]
enum Step {
    Gave(Got),
    Wrote(Write),
    Passed,
    Stopped(Ending),
}

/// What a script gives: its gets, its writes in order of first write, and how it stops.
#[derive(Drop)]
pub struct Evaluation {
    pub gets: Gets,
    pub writes: Writes,
    pub ending: Ending,
}

impl Model for Evaluation {
    ghost use Rattle.history_audit.specs.Steps.{stop_of};
    ghost use Rattle.str_model.specs.Evaluation.{Evaluated};

    ghost Value = { Evaluated };

    ghost view = { λ e. record { gets = e.gets; writes = e.writes; stop = stop_of e.ending } };
}

/// The writes with one more, in the place of an earlier write of its key.
#[tactic(auto, using(crate::proofs::Lengths::set_write_length))]
fn with_write(writes: &Writes, write: Write) -> Writes
    requires { length writes.now < 16 }
    ensures list { result ≡ set_write write writes.now }
    ensures more { length result ≤ length writes.now + 1 }
{
    let mut list = Writes::new();
    let mut is_missing = true;
    for earlier in writes.as_slice() {
        if is_missing && earlier.key == write.key {
            is_missing = false;
            list.push(write);
        } else {
            list.push(*earlier);
        }
    }
    if is_missing {
        list.push(write);
    }
    list
}

/// The number that a value stands for: a missing value and a byte string stand for 0.
fn number_of(value: Value) -> i64
    ensures { result ≡ number_or_zero value }
{
    match value {
        Value::Num(number) => number,
        Value::Absent | Value::Text(_) => 0,
    }
}

/// The sum of a value and a number, wrapped to 64 bits.
fn sum(value: Value, number: i64) -> Value
    ensures { result ≡ sum_with value number }
{
    Value::Num(number_of(value).wrapping_add(number))
}

/// Whether a value does not reach a number.
fn is_below(value: Value, number: i64) -> bool
    ensures { result ≡ is_below value number }
{
    number_of(value) < number
}

/// The value of a key after these writes.
fn value_at(ledger: &Ledger, rs: Ts, writes: &Writes, key: KeyId) -> Value
    requires { IsRisingLedger ledger.now }
    ensures { result ≡ value_at (look_in ledger.now rs.0) writes.now key }
{
    for write in writes.as_slice() {
        if write.key == key {
            return write.value;
        }
    }
    ledger.look(key, rs)
}

/// What an operation comes to after these writes.
fn operate(ledger: &Ledger, rs: Ts, writes: &Writes, op: Op) -> Step
    requires { IsRisingLedger ledger.now }
    ensures { result ≡ step_of (look_in ledger.now rs.0) writes.now op }
{
    match op {
        Op::Get(key) => Step::Gave(Got {
            key,
            value: value_at(ledger, rs, writes, key),
        }),
        Op::Put(key, number) => Step::Wrote(Write {
            key,
            value: Value::Num(number),
        }),
        Op::Puts(key, text) => Step::Wrote(Write {
            key,
            value: Value::Text(text),
        }),
        Op::Add(key, number) => Step::Wrote(Write {
            key,
            value: sum(value_at(ledger, rs, writes, key), number),
        }),
        Op::Del(key) => Step::Wrote(Write {
            key,
            value: Value::Absent,
        }),
        Op::Need(key, number) => {
            if is_below(value_at(ledger, rs, writes, key), number) {
                return Step::Stopped(Ending::Unmet);
            }
            Step::Passed
        }
        Op::Abort => Step::Stopped(Ending::Wished),
    }
}

/// Takes up what an operation comes to: one more get or write, or that the script stops.
fn take_step(gets: &mut Gets, writes: &mut Writes, step: Step) -> Option<Ending>
    requires gets { length gets.old < 16 }
    requires writes { length writes.old < 16 }
    ensures gets { length gets.new ≤ length gets.old + 1 }
    ensures writes { length writes.new ≤ length writes.old + 1 }
    ensures after { (look : KeyId → Value) (ops : List Op) → IsAfter look ops gets.new writes.new result (after_step look ops writes.old gets.old step) }
{
    match step {
        Step::Gave(got) => gets.push(got),
        Step::Wrote(write) => *writes = with_write(writes, write),
        Step::Passed => {}
        Step::Stopped(ending) => return Some(ending),
    }
    None
}

/// What a script gives on a ledger at a snapshot timestamp.
pub fn evaluate(ledger: &Ledger, ops: &OpList, rs: Ts) -> Evaluation
    requires { IsRisingLedger ledger.now }
    ensures { result ≡ eval ops.now (look_in ledger.now rs.0) }
{
    let mut gets = Gets::new();
    let mut writes = Writes::new();
    for op in ops.as_slice() {
        let done = operate(ledger, rs, &writes, *op);
        match take_step(&mut gets, &mut writes, done) {
            None => {}
            Some(ending) => {
                return Evaluation {
                    gets,
                    writes,
                    ending,
                };
            }
        }
    }
    Evaluation {
        gets,
        writes,
        ending: Ending::AtEnd,
    }
}
