//! Where the scene's text ends in a history's.
ghost use Rattle.history_reading.specs.Reading.{IsHead};
ghost use Rattle.std.specs.Prelude.{length, ◌≡◌, ◌≤◌};

use scene_text::parting::{is_same, next_feed};

/// Where the line after the first line `end` starts, and how many lines there are up to it. Where there is no such line it is the end of
/// the text.
pub fn after_scene(text: &[u8]) -> (usize, u64)
    ensures head { IsHead text.now result.0 result.1 }
    ensures within { result.0 ≤ length text.now }
    ensures few { result.1 ≤ result.0 }
{
    let mut start = 0;
    let mut count = 0;
    while let Some(feed) = next_feed(text, start) {
        let is_end = is_same(&text[start..feed], b"end");
        start = feed + 1;
        count += 1;
        if is_end {
            return (start, count);
        }
    }
    (text.len(), count)
}
