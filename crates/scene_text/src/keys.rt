//! Keys and byte strings as text.
ghost use Rattle.std.specs.List.{list_all};
ghost use Rattle.str_base.specs.declared.limits.TheConstants.{TEXT_BYTES};
ghost use Rattle.std.specs.Prelude.{◌≡◌, ◌<◌, ◌≤◌, ◌+◌, ◌*◌, ◌++◌, ◌==◌, ℕ, false, true, IfSome, IsNone, length, nat_lt};
ghost use Rattle.scene_text.specs.HexDigits.{digit_number, is_hex, paired};
ghost use Rattle.scene_text.specs.LineReading.{SpellsBytes, SpellsKey, SpellsNoBytes, SpellsNoKey};
ghost use Rattle.str_scene.specs.SceneLimits.{is_name};

use crate::numbers::read_small;
use crate::parting::{rest_after, split_at_byte};
use str_base::PartId;
use str_base::limits::TEXT_BYTES;
use str_scene::{ByteText, Name, short_name, spells_name};

/// The name that the bytes are, and `None` where they are no name.
fn read_name(bytes: &[u8]) -> Option<Name>
    ensures named { IfSome result (λ name. is_name name ≡ true) }
    ensures name { IfSome result (λ name. name ≡ bytes.now) }
    ensures none { IsNone result → is_name bytes.now ≡ false }
{
    if spells_name(bytes) {
        Some(short_name(bytes))
    } else {
        None
    }
}

/// The name and the partition of the key that the text spells, and `None` where it spells none. The partition is `None`
/// where its number has more than 8 bits.
pub fn read_key(text: &[u8]) -> Option<(Name, Option<PartId>)>
    ensures key { IfSome result (λ k. SpellsKey text.now k.0 k.1) }
    ensures none { IsNone result → SpellsNoKey text.now }
{
    let (name, part) = split_at_byte(text, b'@')?;
    let part = read_small(part)?;
    let name = read_name(name)?;
    match part {
        Some(part) => Some((name, Some(PartId(part)))),
        None => Some((name, None)),
    }
}

/// The number of a digit from 0 to 9 or from a to f.
fn digit_number(digit: u8) -> u8
    requires { is_hex digit ≡ true }
    ensures value { result ≡ digit_number digit }
    ensures small { result < 16 }
{
    if digit < b'a' {
        digit - b'0'
    } else {
        digit - b'a' + 10
    }
}

/// The byte is a digit from 0 to 9 or from a to f.
fn is_hex(byte: u8) -> bool
    ensures { result ≡ is_hex byte }
{
    byte.is_ascii_digit() || (b'a' <= byte && byte <= b'f')
}

/// All of the bytes are digits from 0 to 9 or from a to f.
fn all_hex(bytes: &[u8]) -> bool
    ensures { result ≡ list_all is_hex bytes.now }
{
    bytes.iter().all(|byte| is_hex(*byte))
}

/// The bytes that the digits write, two for each byte.
fn bytes_of_digits(digits: &[u8]) -> ByteText
    requires few { length digits.now ≤ 2 * TEXT_BYTES }
    requires hex { list_all is_hex digits.now ≡ true }
    ensures { result ≡ paired digits.now }
{
    let mut bytes = ByteText::new();
    let mut left = digits;
    while let [high, low, rest @ ..] = left {
        bytes.push(digit_number(*high) * 16 + digit_number(*low));
        left = rest;
    }
    bytes
}

/// The byte string that the text spells, and `None` where it spells none. The byte string is `None` where it has more
/// than 64 bytes.
pub fn read_bytes(text: &[u8]) -> Option<Option<ByteText>>
    ensures bytes { IfSome result (λ kept. SpellsBytes text.now kept) }
    ensures none { IsNone result → SpellsNoBytes text.now }
{
    let digits = rest_after(text, b"x")?;
    if digits.len() % 2 != 0 {
        return None;
    }
    if !all_hex(digits) {
        return None;
    }
    if digits.len() > 2 * TEXT_BYTES {
        return Some(None);
    }
    Some(Some(bytes_of_digits(digits)))
}
