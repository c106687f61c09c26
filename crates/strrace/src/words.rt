//! The words of the program.
ghost use Rattle.std.specs.Prelude.{map, IfSome, IsNone};
ghost use Rattle.std.specs.String.{string_bytes};
ghost use Rattle.strrace.specs.RaceWords.{AskRace, AskRounds};

use str_base::read_u64;

/// The number of rounds that the words ask for. None where they are not one number from 1 to 256, without a zero in front.
pub(crate) fn rounds_asked(words: &[String]) -> Option<u32>
    ensures asked { IfSome result (λ count. AskRounds (map string_bytes words.now) count) }
    ensures unasked { IsNone result → ¬ AskRace (map string_bytes words.now) }
{
    let [word] = words else {
        return None;
    };
    match read_u64(word.as_bytes()) {
        Some(count) if 1 <= count && count <= 256 => Some(count as u32),
        _ => None,
    }
}
