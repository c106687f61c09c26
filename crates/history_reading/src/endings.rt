//! The end line of a history.
ghost use Rattle.history_reading.specs.Parts.{SpellsCounted, SpellsNoCounted, SpellsNoNumbers, SpellsNumbers};
ghost use Rattle.std.specs.Prelude.{IfSome, IsNone, List, ℕ, ◌≡◌};

use scene_text::numbers::read_number;
use scene_text::parting::{rest_after, split_at_byte};

/// The numbers of commits and of aborts that an end line gives.
#[derive(Clone, Copy, Debug, PartialEq, Eq)]
pub struct Ending {
    pub commits: u64,
    pub aborts: u64,
}

/// A number after a word, and what follows it and a space.
fn split_counted<'a>(text: &'a [u8], word: &[u8]) -> Option<(Option<u64>, &'a [u8])>
    ensures number { IfSome result (λ p. SpellsCounted text.now word.now p.0 p.1.now) }
    ensures none { IsNone result → SpellsNoCounted text.now word.now }
{
    let (digits, rest) = split_at_byte(rest_after(text, word)?, b' ')?;
    Some((read_number(digits)?, rest))
}

/// The numbers of an end line. Two of them are kept where all have 64 bits.
pub fn read_ending(text: &[u8]) -> Option<Option<Ending>>
    ensures numbers { IfSome result (λ kept. SpellsNumbers text.now kept) }
    ensures none { IsNone result → SpellsNoNumbers text.now }
{
    let (commits, rest) = split_counted(text, b"commits=")?;
    let (aborts, rest) = split_counted(rest, b"aborts=")?;
    let (held, rest) = split_counted(rest, b"held=")?;
    let (unbegun, rest) = split_counted(rest, b"unbegun=")?;
    let messages = read_number(rest_after(rest, b"messages=")?)?;
    match commits.zip(aborts).zip(held.zip(unbegun)).zip(messages) {
        Some((((commits, aborts), _), _)) => Some(Some(Ending { commits, aborts })),
        None => Some(None),
    }
}
