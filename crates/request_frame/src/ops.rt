//! An operation, read from the bytes of a transaction.
ghost use Rattle.std.specs.Prelude.{◌≡◌, ◌<◌, ◌≤◌, ◌++◌, ◌∷◌, ℕ, List, true, IfSome, IsNone, length};
ghost use Rattle.request_frame.specs.FrameBytes.{key_bytes, number_bytes, string_bytes, value_bytes};
ghost use Rattle.request_frame.specs.Reading.{ReadsNoOp, ReadsOp};
ghost use Rattle.str_base.specs.declared.names.PartId.{PartId as Partition};
ghost use Rattle.str_scene.specs.SceneLimits.{is_name};

use scene_text::Line;
use str_base::PartId;
use str_base::limits::TEXT_BYTES;
use str_scene::{ByteText, Name, short_name, spells_name};

/// The number with which the bytes begin, and what follows it; `None` where they are fewer than eight.
fn read_number(bytes: &[u8]) -> Option<(u64, &[u8])>
    ensures number { IfSome result (λ k. bytes.now ≡ number_bytes k.0 ++ k.1.now) }
    ensures none { IsNone result → length bytes.now < 8 }
{
    let (number, rest) = bytes.split_first_chunk::<8>()?;
    Some((u64::from_be_bytes(*number), rest))
}

/// The number that the bytes are, `None` where they are not eight.
pub fn whole_number(bytes: &[u8]) -> Option<u64>
    ensures number { IfSome result (λ n. bytes.now ≡ number_bytes n) }
    ensures none { IsNone result → ¬ (length bytes.now ≡ 8) }
{
    let (number, rest) = read_number(bytes)?;
    if !rest.is_empty() {
        return None;
    }
    Some(number)
}

/// The signed number with which the bytes begin, and what follows it; `None` where they are fewer than eight.
fn read_value(bytes: &[u8]) -> Option<(i64, &[u8])>
    ensures number { IfSome result (λ k. bytes.now ≡ value_bytes k.0 ++ k.1.now) }
    ensures none { IsNone result → length bytes.now < 8 }
{
    let (number, rest) = read_number(bytes)?;
    Some((number.cast_signed(), rest))
}

/// The so many first bytes, after the byte that tells how many, and what follows them; `None` where they are fewer.
fn read_sized(bytes: &[u8]) -> Option<(&[u8], &[u8])>
    ensures string { IfSome result (λ k. bytes.now ≡ string_bytes k.0.now ++ k.1.now) }
    ensures none { IsNone result → (text rest : List ℕ) → ¬ (bytes.now ≡ string_bytes text ++ rest) }
{
    let (size, rest) = bytes.split_first()?;
    let size = usize::from(*size);
    if rest.len() < size {
        return None;
    }
    Some((&rest[..size], &rest[size..]))
}

/// The name and the partition of the key with which the bytes begin, and what follows it; `None` where they begin with none.
fn read_key(bytes: &[u8]) -> Option<(Name, PartId, &[u8])>
    ensures key { IfSome result (λ k. bytes.now ≡ key_bytes k.0 k.1 ++ k.2.now) }
    ensures named { IfSome result (λ k. is_name k.0 ≡ true) }
    ensures small { IfSome result (λ k. k.1.0 < 256) }
    ensures none { IsNone result → (name : List ℕ) (p : Partition) (rest : List ℕ) → is_name name ≡ true
        → ¬ (bytes.now ≡ key_bytes name p ++ rest) }
{
    let (part, rest) = bytes.split_first()?;
    let (name, rest) = read_sized(rest)?;
    if !spells_name(name) {
        return None;
    }
    Some((short_name(name), PartId(*part), rest))
}

/// A byte string, where it is short enough.
fn short_text(bytes: &[u8]) -> Option<ByteText>
    ensures text { IfSome result (λ text. text ≡ bytes.now) }
    ensures short { IfSome result (λ text. length bytes.now ≤ TEXT_BYTES) }
    ensures none { IsNone result → TEXT_BYTES < length bytes.now }
{
    if bytes.len() > TEXT_BYTES {
        return None;
    }
    let mut text = ByteText::new();
    for byte in bytes {
        text.push(*byte);
    }
    Some(text)
}

/// A read of a key, by what follows its code.
fn get_op(bytes: &[u8]) -> Option<(Option<Line>, &[u8])>
    ensures op { IfSome result (λ k. ReadsOp (1 ∷ bytes.now) k.0 k.1.now) }
    ensures none { IsNone result → ReadsNoOp (1 ∷ bytes.now) }
{
    let (name, part, rest) = read_key(bytes)?;
    Some((Some(Line::Get(name, part)), rest))
}

/// A write of a number, by what follows its code.
fn put_op(bytes: &[u8]) -> Option<(Option<Line>, &[u8])>
    ensures op { IfSome result (λ k. ReadsOp (2 ∷ bytes.now) k.0 k.1.now) }
    ensures none { IsNone result → ReadsNoOp (2 ∷ bytes.now) }
{
    let (name, part, rest) = read_key(bytes)?;
    let (number, rest) = read_value(rest)?;
    Some((Some(Line::Put(name, part, number)), rest))
}

/// A sum, by what follows its code.
fn add_op(bytes: &[u8]) -> Option<(Option<Line>, &[u8])>
    ensures op { IfSome result (λ k. ReadsOp (3 ∷ bytes.now) k.0 k.1.now) }
    ensures none { IsNone result → ReadsNoOp (3 ∷ bytes.now) }
{
    let (name, part, rest) = read_key(bytes)?;
    let (number, rest) = read_value(rest)?;
    Some((Some(Line::Add(name, part, number)), rest))
}

/// A deletion, by what follows its code.
fn del_op(bytes: &[u8]) -> Option<(Option<Line>, &[u8])>
    ensures op { IfSome result (λ k. ReadsOp (4 ∷ bytes.now) k.0 k.1.now) }
    ensures none { IsNone result → ReadsNoOp (4 ∷ bytes.now) }
{
    let (name, part, rest) = read_key(bytes)?;
    Some((Some(Line::Del(name, part)), rest))
}

/// A need, by what follows its code.
fn need_op(bytes: &[u8]) -> Option<(Option<Line>, &[u8])>
    ensures op { IfSome result (λ k. ReadsOp (5 ∷ bytes.now) k.0 k.1.now) }
    ensures none { IsNone result → ReadsNoOp (5 ∷ bytes.now) }
{
    let (name, part, rest) = read_key(bytes)?;
    let (number, rest) = read_value(rest)?;
    Some((Some(Line::Need(name, part, number)), rest))
}

/// A write of a byte string, by what follows its code. It is not kept where it has more than 64 bytes.
fn puts_op(bytes: &[u8]) -> Option<(Option<Line>, &[u8])>
    ensures op { IfSome result (λ k. ReadsOp (7 ∷ bytes.now) k.0 k.1.now) }
    ensures none { IsNone result → ReadsNoOp (7 ∷ bytes.now) }
{
    let (name, part, rest) = read_key(bytes)?;
    let (text, rest) = read_sized(rest)?;
    match short_text(text) {
        Some(text) => Some((Some(Line::Puts(name, part, text)), rest)),
        None => Some((None, rest)),
    }
}

/// The operation with which the bytes begin, and what follows it; `None` where they begin with none. It is not kept where it
/// writes more than 64 bytes.
pub fn read_op(bytes: &[u8]) -> Option<(Option<Line>, &[u8])>
    ensures op { IfSome result (λ k. ReadsOp bytes.now k.0 k.1.now) }
    ensures none { IsNone result → ReadsNoOp bytes.now }
{
    let (code, rest) = bytes.split_first()?;
    match code {
        1 => get_op(rest),
        2 => put_op(rest),
        3 => add_op(rest),
        4 => del_op(rest),
        5 => need_op(rest),
        6 => Some((Some(Line::Abort), rest)),
        7 => puts_op(rest),
        _ => None,
    }
}
