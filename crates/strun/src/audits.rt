//! What the audit of a history finds, and the values that stood at a timestamp.
ghost use Rattle.history_audit.specs.Values.{values_at};
ghost use Rattle.history_audit.specs.Verdicts.{IsVerdict};
ghost use Rattle.si_laws.specs.SnapshotIsolation.{SIRun};
ghost use Rattle.std.specs.Io.KnownBytes.{Appends};
ghost use Rattle.std.specs.Prelude.{◌≡◌, ◌++◌, length, IfErr, OnErr, OnOk, flat_map};
ghost use Rattle.str_outer.specs.Pieces.{AppendsPrefix};
ghost use Rattle.strun.specs.Audits.{at_lines, keys_line, no_line, pair_line, value_lines, verdict_line, yes_line};
ghost use Rattle.top_status.specs.Failures.{HasWriteCause};

use crate::banks::push_pair;
use history_audit::{Verdict, values_at};
use history_reading::History;
use std::alloc::{AllocError, Global};
use str_base::{Ts, push_u64};
use str_model::{Answer, Got};
use str_outer::Sink;
use str_scene::KeyTable;
use top_status::{Failure, write_piece};

/// Writes what the audit of answers finds.
pub(crate) fn write_verdict<K: Sink>(
    alloc: Global,
    answers: &[Answer],
    verdict: Verdict,
    out: &mut K,
) -> Result<(), Failure>
    ensures written { OnOk result (Appends (K.held out.old) (K.held out.new) (verdict_line answers.now verdict)) }
    ensures partial { OnErr result (AppendsPrefix (K.held out.old) (K.held out.new) (verdict_line answers.now verdict)) }
    ensures failed { IfErr result (HasWriteCause (K.faults out.old) (K.faults out.new)) }
{
    let mut line = Vec::new(alloc);
    push_verdict(answers, verdict, &mut line)?;
    write_piece(out, line.as_slice())
}

/// Appends the line of a verdict.
fn push_verdict(answers: &[Answer], verdict: Verdict, line: &mut Vec<u8>) -> Result<(), AllocError>
    ensures { OnOk result (line.new.items ≡ line.old.items ++ verdict_line answers.now verdict) }
{
    match verdict {
        Verdict::Yes => push_yes(answers.len() as u64, line),
        Verdict::No { answer, clause } => push_no(answer, clause, line),
    }
}

/// Appends the line of a yes.
fn push_yes(count: u64, line: &mut Vec<u8>) -> Result<(), AllocError>
    ensures { OnOk result (line.new.items ≡ line.old.items ++ yes_line count) }
{
    line.extend_from_slice(b"si yes answers=")?;
    push_u64(line, count)?;
    line.extend_from_slice(b"\n")
}

/// Appends the line of a no.
fn push_no(answer: u64, clause: u8, line: &mut Vec<u8>) -> Result<(), AllocError>
    ensures { OnOk result (line.new.items ≡ line.old.items ++ no_line answer clause) }
{
    line.extend_from_slice(b"si no answer=")?;
    push_u64(line, answer)?;
    line.extend_from_slice(b" clause=I")?;
    push_u64(line, u64::from(clause))?;
    line.extend_from_slice(b"\n")
}

/// Writes the values that stood at a timestamp, or what the audit finds where that is a no.
pub(crate) fn write_at<K: Sink>(
    alloc: Global,
    time: u64,
    history: &History,
    verdict: Verdict,
    out: &mut K,
) -> Result<(), Failure>
    requires { IsVerdict history.now.scene history.now.answers.items verdict }
    ensures written { OnOk result (Appends (K.held out.old) (K.held out.new)
        (at_lines time history.now.scene history.now.answers.items verdict)) }
    ensures partial { OnErr result (AppendsPrefix (K.held out.old) (K.held out.new)
        (at_lines time history.now.scene history.now.answers.items verdict)) }
    ensures failed { IfErr result (HasWriteCause (K.faults out.old) (K.faults out.new)) }
{
    match verdict {
        Verdict::Yes => write_values(alloc, time, history, out),
        Verdict::No { .. } => write_verdict(alloc, history.answers.as_slice(), verdict, out),
    }
}

/// Writes the line of each key that had a value at a timestamp, and that of their number.
fn write_values<K: Sink>(
    alloc: Global,
    time: u64,
    history: &History,
    out: &mut K,
) -> Result<(), Failure>
    requires { SIRun history.now.scene history.now.answers.items }
    ensures written { OnOk result (Appends (K.held out.old) (K.held out.new)
        (value_lines history.now.scene.keys time (values_at history.now.scene history.now.answers.items time))) }
    ensures partial { OnErr result (AppendsPrefix (K.held out.old) (K.held out.new)
        (value_lines history.now.scene.keys time (values_at history.now.scene history.now.answers.items time))) }
    ensures failed { IfErr result (HasWriteCause (K.faults out.old) (K.faults out.new)) }
{
    let gots = values_at(alloc, &history.scene, &history.answers, Ts(time))?;
    let mut lines = Vec::new(alloc);
    push_values(time, gots.as_slice(), history.scene.keys(), &mut lines)?;
    write_piece(out, lines.as_slice())
}

/// Appends the lines of values at a timestamp.
fn push_values(
    time: u64,
    gots: &[Got],
    keys: &KeyTable,
    lines: &mut Vec<u8>,
) -> Result<(), AllocError>
    ensures { OnOk result (lines.new.items ≡ lines.old.items ++ value_lines keys.now time gots.now) }
{
    push_pairs(gots, keys, lines)?;
    push_keys(time, gots.len() as u64, lines)
}

/// Appends the line of each key with its value.
fn push_pairs(gots: &[Got], keys: &KeyTable, lines: &mut Vec<u8>) -> Result<(), AllocError>
    ensures { OnOk result (lines.new.items ≡ lines.old.items ++ flat_map (pair_line keys.now) gots.now) }
{
    for got in gots {
        push_line(*got, keys, lines)?;
    }
    Ok(())
}

/// Appends the line of a key with its value.
fn push_line(got: Got, keys: &KeyTable, lines: &mut Vec<u8>) -> Result<(), AllocError>
    ensures { OnOk result (lines.new.items ≡ lines.old.items ++ pair_line keys.now got) }
{
    push_pair(got, keys, lines)?;
    lines.extend_from_slice(b"\n")
}

/// Appends the line of the number of keys that had a value.
fn push_keys(time: u64, count: u64, lines: &mut Vec<u8>) -> Result<(), AllocError>
    ensures { OnOk result (lines.new.items ≡ lines.old.items ++ keys_line time count) }
{
    lines.extend_from_slice(b"at ")?;
    push_u64(lines, time)?;
    lines.extend_from_slice(b" keys=")?;
    push_u64(lines, count)?;
    lines.extend_from_slice(b"\n")
}
