//! The line of an answer.
ghost use Rattle.history_reading.specs.Parts.{IsAbortParts, IsAnswerParts, IsBadAbort, IsBadAnswer, IsBadCommit, IsBadEnd, IsCommitParts, SpellsAnswer, SpellsEnd, SpellsNoAbort, SpellsNoAnswer, SpellsNoCommit, wide_fault};
ghost use Rattle.history_reading.specs.Histories.{HasFewGets, gets_of};
ghost use Rattle.history_reading.specs.Places.{ArePlaces, byte_texts, key_texts};
ghost use Rattle.str_base.specs.declared.limits.TheConstants.{OPERATIONS};
ghost use Rattle.std.specs.Prelude.{IfErr, IfOk, IfSome, IsNone, codes, ◌++◌, ◌≡◌, ◌≤◌};

use crate::causes::read_cause;
use crate::gets::{first_word, read_gets, short_gets};
use crate::key_texts::KeyTexts;
use crate::parts::{read_final, read_name, read_place, read_time};
use scene_text::parting::{rest_after, split_at_byte};
use std::alloc::Global;
use str_base::Ts;
use str_base::limits::OPERATIONS;
use str_model::{Answer, Outcome};
use str_scene::{Scene, SceneFault};

/// The snapshot, the final timestamp and the gets of a commit as text, after its first word.
fn commit_parts(text: &[u8]) -> Option<(&[u8], &[u8], &[u8])>
    ensures parts { IfSome result (λ p. IsCommitParts text.now p.0.now p.1.now p.2.now) }
    ensures none { IsNone result → SpellsNoCommit text.now }
{
    let (rs, rest) = split_at_byte(rest_after(text, b"rs=")?, b' ')?;
    let (fc, gets) = first_word(rest_after(rest, b"fc=")?);
    Some((rs, fc, gets))
}

/// The snapshot and the cause of an abort as text, after its first word.
fn abort_parts(text: &[u8]) -> Option<(&[u8], &[u8])>
    ensures parts { IfSome result (λ p. IsAbortParts text.now p.0.now p.1.now) }
    ensures none { IsNone result → SpellsNoAbort text.now }
{
    split_at_byte(rest_after(text, b"rs=")?, b' ')
}

/// The name, the place and the end of an answer as text.
fn answer_parts(text: &[u8]) -> Option<(&[u8], &[u8], &[u8])>
    ensures parts { IfSome result (λ p. IsAnswerParts text.now p.0.now p.1.now p.2.now) }
    ensures none { IsNone result → SpellsNoAnswer text.now }
{
    let (name, rest) = split_at_byte(text, b' ')?;
    let (place, end) = split_at_byte(rest, b' ')?;
    Some((name, place, end))
}

/// A commit after its first word, as `rs=R fc=F` and the gets.
fn read_commit(
    alloc: Global,
    scene: &Scene,
    keys: &KeyTexts,
    text: &[u8],
) -> Result<(Ts, Outcome), SceneFault>
    requires keys { ArePlaces (key_texts scene.now.keys) keys.now.keys }
    requires texts { ArePlaces (byte_texts scene.now.keys) keys.now.texts }
    ensures end { IfOk result (λ e. SpellsEnd scene.now (codes "commit " ++ text.now) e) }
    ensures few_gets { IfOk result (λ e. gets_of e.1 ≤ OPERATIONS) }
    ensures bad { IfErr result (λ f. IsBadCommit scene.now text.now f) }
{
    let Some((rs, fc, gets)) = commit_parts(text) else {
        return Err(SceneFault::Form);
    };
    let Some(rs) = read_time(rs) else {
        return Err(SceneFault::Form);
    };
    let Some(fc) = read_final(fc) else {
        return Err(SceneFault::Form);
    };
    let Ok(gets) = read_gets(alloc, scene, keys, gets) else {
        return Err(SceneFault::Memory);
    };
    let Some(gets) = gets else {
        return Err(SceneFault::Form);
    };
    let Some((rs, fc)) = rs.zip(fc) else {
        return Err(SceneFault::Range);
    };
    if !gets.all_kept {
        return Err(SceneFault::Range);
    }
    if gets.list.len() > OPERATIONS {
        return Err(SceneFault::Count);
    }
    let gets = short_gets(gets.list.as_slice());
    Ok((rs, Outcome::Committed { fc, gets }))
}

/// An abort after its first word, as `rs=R` and the cause.
fn read_abort(scene: &Scene, keys: &KeyTexts, text: &[u8]) -> Result<(Ts, Outcome), SceneFault>
    requires { ArePlaces (key_texts scene.now.keys) keys.now.keys }
    ensures end { IfOk result (λ e. SpellsEnd scene.now (codes "abort " ++ text.now) e) }
    ensures few_gets { IfOk result (λ e. gets_of e.1 ≤ OPERATIONS) }
    ensures bad { IfErr result (λ f. IsBadAbort scene.now text.now f) }
{
    let Some((rs, cause)) = abort_parts(text) else {
        return Err(SceneFault::Form);
    };
    let Some(rs) = read_time(rs) else {
        return Err(SceneFault::Form);
    };
    let Some(cause) = read_cause(scene, keys, cause) else {
        return Err(SceneFault::Form);
    };
    match rs.zip(cause) {
        Some((rs, cause)) => Ok((rs, Outcome::Aborted { cause })),
        None => Err(SceneFault::Range),
    }
}

/// How a transaction ended: its snapshot and its outcome.
fn read_end(
    alloc: Global,
    scene: &Scene,
    keys: &KeyTexts,
    text: &[u8],
) -> Result<(Ts, Outcome), SceneFault>
    requires keys { ArePlaces (key_texts scene.now.keys) keys.now.keys }
    requires texts { ArePlaces (byte_texts scene.now.keys) keys.now.texts }
    ensures end { IfOk result (λ e. SpellsEnd scene.now text.now e) }
    ensures few_gets { IfOk result (λ e. gets_of e.1 ≤ OPERATIONS) }
    ensures bad { IfErr result (λ f. IsBadEnd scene.now text.now f) }
{
    if let Some(rest) = rest_after(text, b"commit ") {
        return read_commit(alloc, scene, keys, rest);
    }
    match rest_after(text, b"abort ") {
        Some(rest) => read_abort(scene, keys, rest),
        None => Err(SceneFault::Form),
    }
}

/// Why an answer is refused that names a transaction or a place which the scene does not have, where its end reads so.
fn wide_fault(end: &Result<(Ts, Outcome), SceneFault>) -> SceneFault
    ensures { result ≡ wide_fault end.now }
{
    match end {
        Err(SceneFault::Form) => SceneFault::Form,
        Err(SceneFault::Memory) => SceneFault::Memory,
        _ => SceneFault::Range,
    }
}

/// The answer that the line spells, or why it is refused.
pub fn read_answer(
    alloc: Global,
    scene: &Scene,
    keys: &KeyTexts,
    text: &[u8],
) -> Result<Answer, SceneFault>
    requires keys { ArePlaces (key_texts scene.now.keys) keys.now.keys }
    requires texts { ArePlaces (byte_texts scene.now.keys) keys.now.texts }
    ensures answer { IfOk result (λ a. SpellsAnswer scene.now text.now a) }
    ensures few_gets { IfOk result (λ a. HasFewGets a) }
    ensures bad { IfErr result (λ f. IsBadAnswer scene.now text.now f) }
{
    let Some((name, place, end)) = answer_parts(text) else {
        return Err(SceneFault::Form);
    };
    let Some(tx) = read_name(scene, name) else {
        return Err(SceneFault::Form);
    };
    let Some(place) = read_place(scene, place) else {
        return Err(SceneFault::Form);
    };
    let end = read_end(alloc, scene, keys, end);
    let Some((tx, place)) = tx.zip(place) else {
        return Err(wide_fault(&end));
    };
    let (rs, outcome) = end?;
    Ok(Answer {
        tx,
        place,
        rs,
        outcome,
    })
}
