//! The run of a bank's scene, with the balances of its accounts.
ghost use Rattle.bank_book.specs.BankScenes.{IsBank};
ghost use Rattle.std.specs.Int.{int_wrap, w64};
ghost use Rattle.std.specs.Io.KnownBytes.{Appends};
ghost use Rattle.std.specs.Prelude.{◌≡◌, ◌≤◌, ◌++◌, FitsSigned, IfErr, OnErr, OnOk, flat_map};
ghost use Rattle.str_base.specs.Values.{number_or_zero};
ghost use Rattle.str_model.specs.Lines.{value_spelled};
ghost use Rattle.str_outer.specs.Pieces.{AppendsPrefix};
ghost use Rattle.strun.specs.Banks.{balance_line, bank_lines, pair_spelled, total_line, total_of};
ghost use Rattle.strun.specs.Outputs.{output};
ghost use Rattle.strun_words.specs.declared.task.Task.TheVariants.{Bank};
ghost use Rattle.top_status.specs.Failures.{HasWriteCause};

use crate::writing::run_cluster;
use bank_book::Book;
use bank_book::balances::balances;
use run_io::write_cluster;
use std::alloc::{AllocError, Global};
use str_base::{Value, push_i64};
use str_model::Got;
use str_outer::Sink;
use str_scene::{KeyTable, Scene};
use top_status::{Failure, write_piece};

/// Runs the scene of a bank, and writes its answers, the last line, the balance of each account and their sum.
pub(crate) fn write_bank<K: Sink>(
    alloc: Global,
    scene: Scene,
    book: &Book,
    out: &mut K,
) -> Result<(), Failure>
    requires { IsBank scene book.now.accounts.items book.now.amounts.items }
    ensures written { OnOk result (Appends (K.held out.old) (K.held out.new) (output Bank scene)) }
    ensures partial { OnErr result (AppendsPrefix (K.held out.old) (K.held out.new) (output Bank scene)) }
    ensures failed { IfErr result (HasWriteCause (K.faults out.old) (K.faults out.new)) }
{
    let cluster = run_cluster(alloc, scene)?;
    let gots = balances(alloc, book, cluster.scene(), cluster.answers())?;
    write_cluster(alloc, &cluster, out)?;
    write_balances(alloc, gots.as_slice(), cluster.keys(), out)
}

/// Writes the line of each balance, and that of their sum.
fn write_balances<K: Sink>(
    alloc: Global,
    gots: &[Got],
    keys: &KeyTable,
    out: &mut K,
) -> Result<(), Failure>
    requires { FitsSigned w64 (total_of gots.now) }
    ensures written { OnOk result (Appends (K.held out.old) (K.held out.new) (bank_lines keys.now gots.now)) }
    ensures partial { OnErr result (AppendsPrefix (K.held out.old) (K.held out.new) (bank_lines keys.now gots.now)) }
    ensures later { K.faults out.old ≤ K.faults out.new }
    ensures failed { IfErr result (HasWriteCause (K.faults out.old) (K.faults out.new)) }
{
    let mut lines = Vec::new(alloc);
    push_balances(gots, keys, &mut lines)?;
    push_total(total(gots), &mut lines)?;
    write_piece(out, lines.as_slice())
}

/// Appends the line of each balance.
fn push_balances(gots: &[Got], keys: &KeyTable, lines: &mut Vec<u8>) -> Result<(), AllocError>
    ensures { OnOk result (lines.new.items ≡ lines.old.items ++ flat_map (balance_line keys.now) gots.now) }
{
    for got in gots {
        push_balance(*got, keys, lines)?;
    }
    Ok(())
}

/// Appends the line of a balance.
fn push_balance(got: Got, keys: &KeyTable, lines: &mut Vec<u8>) -> Result<(), AllocError>
    ensures { OnOk result (lines.new.items ≡ lines.old.items ++ balance_line keys.now got) }
{
    lines.extend_from_slice(b"balance ")?;
    push_pair(got, keys, lines)?;
    lines.extend_from_slice(b"\n")
}

/// Appends a key with its value.
pub(crate) fn push_pair(got: Got, keys: &KeyTable, lines: &mut Vec<u8>) -> Result<(), AllocError>
    ensures { OnOk result (lines.new.items ≡ lines.old.items ++ pair_spelled keys.now got) }
{
    keys.push_key(got.key, lines)?;
    lines.extend_from_slice(b"=")?;
    push_value(got.value, keys, lines)
}

/// Appends a value.
fn push_value(value: Value, keys: &KeyTable, lines: &mut Vec<u8>) -> Result<(), AllocError>
    ensures { OnOk result (lines.new.items ≡ lines.old.items ++ value_spelled keys.now value) }
{
    match value {
        Value::Absent => lines.extend_from_slice(b"none"),
        Value::Num(n) => push_i64(lines, n),
        Value::Text(text) => keys.push_text(text, lines),
    }
}

/// Appends the line of the sum.
fn push_total(sum: i64, lines: &mut Vec<u8>) -> Result<(), AllocError>
    ensures { OnOk result (lines.new.items ≡ lines.old.items ++ total_line sum) }
{
    lines.extend_from_slice(b"bank total=")?;
    push_i64(lines, sum)?;
    lines.extend_from_slice(b"\n")
}

/// The sum of balances, wrapped to 64 bits.
fn total(gots: &[Got]) -> i64
    ensures { result ≡ int_wrap w64 (total_of gots.now) }
{
    let mut sum: i64 = 0;
    for got in gots {
        sum = sum.wrapping_add(number(got.value));
    }
    sum
}

/// The number of a value. There is none for no value and for a string of bytes, which count as 0.
fn number(value: Value) -> i64
    ensures { result ≡ number_or_zero value }
{
    match value {
        Value::Num(n) => n,
        Value::Absent | Value::Text(_) => 0,
    }
}
