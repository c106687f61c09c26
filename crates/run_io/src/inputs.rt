//! The reading of a scene, as its text or as its frames, or of a history.
ghost use Rattle.history_reading.specs.Histories.{IsHistoryText};
ghost use Rattle.run_io.specs.Inputs.{HasHistory, HasRead, InputFails, IsSpelled, RefusesInput, bad_said, place_said, why_said};
ghost use Rattle.run_io.specs.declared.inputs.Form.{Form};
ghost use Rattle.std.specs.Io.KnownBytes.{Consumes, IsAtEnd};
ghost use Rattle.std.specs.Prelude.{◌≡◌, ◌≤◌, length, IfErr, IfOk, OnOk};
ghost use Rattle.top_status.specs.Failures.{RefusesWith};

use history_reading::{History, HistoryFault, read_history};
use request_frame::{FrameFault, read_frames};
use scene_text::{TextFault, read_scene};
use std::alloc::Global;
use str_outer::Source;
use str_scene::{Scene, Why};
use top_status::{Failure, read_input, refuse, refuse_at};

/// The form of what is read.
#[derive(Clone, Copy, Debug, PartialEq, Eq)]
pub enum Form {
    /// The text of a scene, line by line.
    Text,
    /// The frames of a scene.
    Frames,
    /// The text of a scene with answers and their last line behind it.
    History,
}

/// All bytes of the source. More than 1,048,576 are refused.
fn read_bytes<S: Source>(alloc: Global, src: &mut S) -> Result<Vec<u8>, Failure>
    ensures taken { IfOk result (λ bytes. Consumes (S.left src.old) (S.left src.new) bytes.items) }
    ensures ended { OnOk result (IsAtEnd (S.left src.new)) }
    ensures short { IfOk result (λ bytes. length bytes.items ≤ 1048576) }
    ensures failed { (form : Form) → IfErr result (InputFails form (S.left src.old) (S.left src.new) (S.faults src.old) (S.faults src.new)) }
{
    let bytes = read_input(alloc, src)?;
    if bytes.len() > 1_048_576 {
        return Err(refuse(alloc, b"more than 1048576 bytes"));
    }
    Ok(bytes)
}

/// Reads the text of a scene, to the end of the source or to 1,048,577 bytes.
///
/// # Errors
///
/// `Refused` exactly where the bytes are too many or have a bad line, the first of which is named; `Read` where a read failed, as the source's
/// count of faults tells; and `Memory` where memory was wanting.
pub fn read_text<S: Source>(alloc: Global, src: &mut S) -> Result<Scene, Failure>
    ensures taken { IfOk result (λ scene. HasRead Form.Text (S.left src.old) (S.left src.new) scene) }
    ensures failed { IfErr result (InputFails Form.Text (S.left src.old) (S.left src.new) (S.faults src.old) (S.faults src.new)) }
{
    let bytes = read_bytes(alloc, src)?;
    accept_text(alloc, bytes.as_slice())
}

/// Reads the frames of a scene, to the end of the source or to 1,048,577 bytes.
///
/// # Errors
///
/// As those of `read_text`, but that the place of the first bad frame is named.
pub fn read_packed<S: Source>(alloc: Global, src: &mut S) -> Result<Scene, Failure>
    ensures taken { IfOk result (λ scene. HasRead Form.Frames (S.left src.old) (S.left src.new) scene) }
    ensures failed { IfErr result (InputFails Form.Frames (S.left src.old) (S.left src.new) (S.faults src.old) (S.faults src.new)) }
{
    let bytes = read_bytes(alloc, src)?;
    accept_frames(alloc, bytes.as_slice())
}

/// Reads a history, to the end of the source or to 1,048,577 bytes.
///
/// # Errors
///
/// As those of `read_text`.
pub fn read_past<S: Source>(alloc: Global, src: &mut S) -> Result<History, Failure>
    ensures taken { IfOk result (λ h. HasHistory (S.left src.old) (S.left src.new) h.scene h.answers.items) }
    ensures failed { IfErr result (InputFails Form.History (S.left src.old) (S.left src.new) (S.faults src.old) (S.faults src.new)) }
{
    let bytes = read_bytes(alloc, src)?;
    accept_history(alloc, bytes.as_slice())
}

/// The scene of a text.
fn accept_text(alloc: Global, text: &[u8]) -> Result<Scene, Failure>
    requires { length text.now ≤ 1048576 }
    ensures accepted { IfOk result (λ scene. IsSpelled Form.Text text.now scene) }
    ensures refused { IfErr result (RefusesInput Form.Text text.now) }
{
    match read_scene(alloc, text) {
        Ok(scene) => Ok(scene),
        Err(TextFault::Bad { line, why }) => Err(refuse_bad(alloc, Form::Text, line, why)),
        Err(TextFault::Memory) => Err(Failure::Memory),
    }
}

/// The scene of frames.
fn accept_frames(alloc: Global, bytes: &[u8]) -> Result<Scene, Failure>
    requires { length bytes.now ≤ 1048576 }
    ensures accepted { IfOk result (λ scene. IsSpelled Form.Frames bytes.now scene) }
    ensures refused { IfErr result (RefusesInput Form.Frames bytes.now) }
{
    match read_frames(alloc, bytes) {
        Ok(scene) => Ok(scene),
        Err(FrameFault::Bad { place, why }) => Err(refuse_bad(alloc, Form::Frames, place, why)),
        Err(FrameFault::Memory) => Err(Failure::Memory),
    }
}

/// The history of a text.
fn accept_history(alloc: Global, text: &[u8]) -> Result<History, Failure>
    requires { length text.now ≤ 1048576 }
    ensures accepted { IfOk result (λ h. IsHistoryText text.now h.scene h.answers.items) }
    ensures refused { IfErr result (RefusesInput Form.History text.now) }
{
    match read_history(alloc, text) {
        Ok(history) => Ok(history),
        Err(HistoryFault::Bad { line, why }) => Err(refuse_bad(alloc, Form::History, line, why)),
        Err(HistoryFault::Memory) => Err(Failure::Memory),
    }
}

/// The refusal of a bad line or frame, or want of memory.
fn refuse_bad(alloc: Global, form: Form, place: u64, why: Why) -> Failure
    ensures { RefusesWith (bad_said form place why) result }
{
    refuse_at(alloc, place_said(form), place, why_said(why))
}

/// What stands before the number of a bad line or the place of a bad frame.
fn place_said(form: Form) -> &'static [u8]
    ensures { result.now ≡ place_said form }
{
    match form {
        Form::Text | Form::History => b"line ",
        Form::Frames => b"byte ",
    }
}

/// Why it is bad, as it stands behind the number.
fn why_said(why: Why) -> &'static [u8]
    ensures { result.now ≡ why_said why }
{
    match why {
        Why::Cut => b": cut",
        Why::Form => b": form",
        Why::Range => b": range",
        Why::Count => b": count",
    }
}
