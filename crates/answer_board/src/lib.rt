//! A board: one writer shows entries, and readers look up answers with no lock, no memory and no wait.
#![tactic(auto)]

ghost use Rattle.std.specs.Prelude.{◌≡◌, All, IfOk, [], length};
ghost use Rattle.answer_board.specs.Places.{places_of};

pub mod boards;
pub mod entries;
mod history;
mod listing;
mod places;
pub mod reader;
mod rules;
mod shelf;
#[cfg(test)]
mod tests;
pub mod writer;

pub use entries::Entry;
pub use reader::BoardReader;
use std::alloc::{AllocError, Global};
use std::sync::Wait;
use str_scene::Scene;
pub use writer::{BoardWriter, Shown};

/// A board with an empty place for each transaction of the scene, nothing shown, and so many readers. It has a seat for each reader, for a
/// note of each, and for 16 notes more. A note or a reader that is let go gives its seat back.
///
/// # Errors
///
/// The error is want of memory. Nothing stays then.
pub fn board<R: Wait>(
    rt: &R,
    alloc: Global,
    scene: &Scene,
    readers: u8,
) -> Result<boards::Board, AllocError>
    ensures places { IfOk result (λ b. b.writer.places ≡ places_of scene.now) }
    ensures list { IfOk result (λ b. b.writer.list ≡ []) }
    ensures held { IfOk result (λ b. b.writer.held ≡ []) }
    ensures board { IfOk result (λ b. All (λ r. r.board ≡ b.writer.board) b.readers.items) }
    ensures empty { IfOk result (λ b. All (λ r. r.list ≡ []) b.readers.items) }
    ensures count { IfOk result (λ b. length b.readers.items ≡ readers) }
{
    let mut writer = BoardWriter::new(rt, alloc, scene, 2 * usize::from(readers) + 16)?;
    match boards::readers_of(alloc, &mut writer, readers) {
        Ok(readers) => Ok(boards::Board { writer, readers }),
        Err(refused) => {
            writer.end(rt);
            Err(refused)
        }
    }
}
