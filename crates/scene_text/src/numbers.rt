//! Decimals of numbers of any size. Each number has one: no plus, no leading zero, and a minus only before a number
//! that is not 0.
ghost use Rattle.std.specs.Char.{is_ascii_digit};
ghost use Rattle.std.specs.List.{list_all};
ghost use Rattle.std.specs.Prelude.{◌≡◌, ◌<◌, ◌^◌, ◌∷◌, [], ◌⊎◌, ◌↔◌, ℕ, ℤ, false, IsTrue, IfSome, IsNone, slice_index};
ghost use Rattle.scene_text.specs.LineReading.{Spells, SpellsNoSigned, SpellsNone, SpellsSigned};
ghost use Rattle.scene_text.specs.Numerals.{numeral, signed_numeral};

use crate::parting::{is_same, rest_after};
use str_base::{read_i64, read_u64};

/// The text is a zero, or begins with a byte above zero, as every decimal does.
fn starts_plain(text: &[u8]) -> bool
    ensures { IsTrue result ↔ ((text.now ≡ 48 ∷ []) ⊎ (48 < slice_index text.now 0)) }
{
    match text {
        [] => false,
        [b'0'] => true,
        [first, ..] => b'0' < *first,
    }
}

/// All of the bytes are digits.
fn all_digits(text: &[u8]) -> bool
    ensures { result ≡ list_all is_ascii_digit text.now }
{
    text.iter().all(|byte| byte.is_ascii_digit())
}

/// The text is the decimal of a number.
fn is_decimal(text: &[u8]) -> bool
    ensures yes { IsTrue result → (n : ℕ) × (text.now ≡ numeral n) }
    ensures no { result ≡ false → SpellsNone text.now }
{
    starts_plain(text) && all_digits(text)
}

/// The text is the decimal of a signed number.
fn is_signed_decimal(text: &[u8]) -> bool
    ensures yes { IsTrue result → (z : ℤ) × (text.now ≡ signed_numeral z) }
    ensures no { result ≡ false → SpellsNoSigned text.now }
{
    match rest_after(text, b"-") {
        Some(digits) => is_decimal(digits) && !is_same(digits, b"0"),
        None => is_decimal(text),
    }
}

/// The number that the text spells, and `None` where it spells none. The number is `None` where it has more than 64 bits.
pub fn read_number(text: &[u8]) -> Option<Option<u64>>
    ensures number { IfSome result (λ kept. Spells (2 ^ 64) text.now kept) }
    ensures none { IsNone result → SpellsNone text.now }
{
    if is_decimal(text) {
        Some(read_u64(text))
    } else {
        None
    }
}

/// The number that the text spells, and `None` where it spells none. The number is `None` where it has more than 8 bits.
pub fn read_small(text: &[u8]) -> Option<Option<u8>>
    ensures number { IfSome result (λ kept. Spells 256 text.now kept) }
    ensures none { IsNone result → SpellsNone text.now }
{
    match read_number(text)? {
        Some(n) => Some(u8::try_from(n).ok()),
        None => Some(None),
    }
}

/// The signed number that the text spells, and `None` where it spells none. The number is `None` where it does not fit 64
/// bits.
pub fn read_signed(text: &[u8]) -> Option<Option<i64>>
    ensures number { IfSome result (λ kept. SpellsSigned text.now kept) }
    ensures none { IsNone result → SpellsNoSigned text.now }
{
    if is_signed_decimal(text) {
        Some(read_i64(text))
    } else {
        None
    }
}
