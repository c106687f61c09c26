//! Why a transaction aborted.
ghost use Rattle.history_reading.specs.HistoryLines.{conflict_text, late_text};
ghost use Rattle.history_reading.specs.Parts.{SpellsCause, SpellsConflict, SpellsLate, SpellsNoCause, SpellsNoConflict, SpellsNoLate};
ghost use Rattle.history_reading.specs.Places.{ArePlaces, byte_texts, key_texts};
ghost use Rattle.std.specs.Prelude.{IfSome, IsNone, ◌≡◌};

use crate::gets::read_known_key;
use crate::key_texts::KeyTexts;
use crate::parts::{read_name, read_node, read_time};
use scene_text::parting::{is_same, rest_after, split_at_byte};
use str_base::Cause;
use str_scene::Scene;

/// A conflict, as `m.p K at=M`. It is kept where it names what the scene has.
fn read_conflict(scene: &Scene, keys: &KeyTexts, text: &[u8]) -> Option<Option<Cause>>
    requires { ArePlaces (key_texts scene.now.keys) keys.now.keys }
    ensures cause { IfSome result (λ kept. SpellsConflict scene.now text.now kept) }
    ensures none { IsNone result → SpellsNoConflict text.now }
{
    let (by, rest) = split_at_byte(text, b' ')?;
    let (key, node) = split_at_byte(rest, b' ')?;
    let by = read_name(scene, by)?;
    let key = read_known_key(scene, keys, key)?;
    let node = read_node(scene, rest_after(node, b"at=")?)?;
    match by.zip(key).zip(node) {
        Some(((by, key), node)) => Some(Some(Cause::Conflict { by, key, node })),
        None => Some(None),
    }
}

/// A dependency that committed late, as `m.p fc=F`. It is kept where it is one of the scene.
fn read_late(scene: &Scene, text: &[u8]) -> Option<Option<Cause>>
    ensures cause { IfSome result (λ kept. SpellsLate scene.now text.now kept) }
    ensures none { IsNone result → SpellsNoLate text.now }
{
    let (by, fc) = split_at_byte(text, b' ')?;
    let by = read_name(scene, by)?;
    let fc = read_time(rest_after(fc, b"fc=")?)?;
    match by.zip(fc) {
        Some((by, fc)) => Some(Some(Cause::Late { by, fc })),
        None => Some(None),
    }
}

/// Why a transaction aborted. It is kept where it names what the scene has.
pub fn read_cause(scene: &Scene, keys: &KeyTexts, text: &[u8]) -> Option<Option<Cause>>
    requires { ArePlaces (key_texts scene.now.keys) keys.now.keys }
    ensures cause { IfSome result (λ kept. SpellsCause scene.now text.now kept) }
    ensures none { IsNone result → SpellsNoCause text.now }
{
    if is_same(text, b"wish") {
        return Some(Some(Cause::Wish));
    }
    if let Some(rest) = rest_after(text, b"conflict ") {
        return read_conflict(scene, keys, rest);
    }
    if let Some(rest) = rest_after(text, b"late ") {
        return read_late(scene, rest);
    }
    match read_name(scene, rest_after(text, b"lost ")?)? {
        Some(by) => Some(Some(Cause::Lost { by })),
        None => Some(None),
    }
}
