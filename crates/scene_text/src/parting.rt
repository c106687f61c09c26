//! Bytes parted at a byte.
ghost use Rattle.std.specs.Prelude.{◌≡◌, ◌<◌, ◌≤◌, ◌+◌, ◌++◌, ◌∷◌, [], ℕ, List, true, IfSome, IsNone, IsTrue, ◌↔◌, drop, length, slice_get, slice_range, take};
ghost use Rattle.scene_text.specs.LineReading.{is_without};

/// The place of the first of these bytes at `start` or after it, and `None` where there is none.
fn place_of(bytes: &[u8], byte: u8, start: usize) -> Option<usize>
    ensures after { IfSome result (λ i. start ≤ i) }
    ensures within { IfSome result (λ i. i < length bytes.now) }
    ensures byte { IfSome result (λ i. slice_get bytes.now i ≡ Some byte) }
    ensures first { IfSome result (λ i. is_without byte (slice_range bytes.now start i) ≡ true) }
    ensures none { IsNone result → is_without byte (drop start bytes.now) ≡ true }
{
    for i in start..bytes.len() {
        if bytes[i] == byte {
            return Some(i);
        }
    }
    None
}

/// The place of the first line feed at `start` or after it, and `None` where there is none.
pub fn next_feed(text: &[u8], start: usize) -> Option<usize>
    ensures after { IfSome result (λ i. start ≤ i) }
    ensures within { IfSome result (λ i. i < length text.now) }
    ensures feed { IfSome result (λ i. slice_get text.now i ≡ Some 10) }
    ensures line { IfSome result (λ i. is_without 10 (slice_range text.now start i) ≡ true) }
    ensures parts { IfSome result
        (λ i. drop start text.now ≡ slice_range text.now start i ++ 10 ∷ drop (i + 1) text.now) }
    ensures passed { IfSome result
        (λ i. take (i + 1) text.now ≡ take start text.now ++ (slice_range text.now start i ++ 10 ∷ [])) }
    ensures none { IsNone result → is_without 10 (drop start text.now) ≡ true }
{
    place_of(text, b'\n', start)
}

/// The parts before and after the first of these bytes, and `None` where there is none.
pub fn split_at_byte(bytes: &[u8], byte: u8) -> Option<(&[u8], &[u8])>
    ensures parts { IfSome result (λ p. bytes.now ≡ p.0.now ++ byte ∷ p.1.now) }
    ensures first { IfSome result (λ p. is_without byte p.0.now ≡ true) }
    ensures none { IsNone result → is_without byte bytes.now ≡ true }
{
    let place = place_of(bytes, byte, 0)?;
    Some((&bytes[..place], &bytes[place + 1..]))
}

/// What follows the prefix, and `None` where the bytes do not begin with it.
pub fn rest_after<'a>(bytes: &'a [u8], prefix: &[u8]) -> Option<&'a [u8]>
    ensures rest { IfSome result (λ rest. bytes.now ≡ prefix.now ++ rest.now) }
    ensures none { IsNone result → (rest : List ℕ) → ¬ (bytes.now ≡ prefix.now ++ rest) }
{
    bytes.strip_prefix(prefix)
}

/// The bytes are the other bytes.
pub fn is_same(bytes: &[u8], other: &[u8]) -> bool
    ensures { IsTrue result ↔ (bytes.now ≡ other.now) }
{
    bytes == other
}
