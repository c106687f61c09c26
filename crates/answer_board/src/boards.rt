//! A board with its writer and its readers.
ghost use Rattle.std.specs.Prelude.{◌≡◌, All, IfOk, length};

use crate::reader::BoardReader;
use crate::writer::BoardWriter;
use std::alloc::{AllocError, Global};

/// A board's writer and its readers.
pub struct Board {
    pub writer: BoardWriter,
    pub readers: Vec<BoardReader>,
}

/// Makes so many readers.
pub(crate) fn readers_of(
    alloc: Global,
    writer: &mut BoardWriter,
    count: u8,
) -> Result<Vec<BoardReader>, AllocError>
    ensures same { writer.new ≡ writer.old }
    ensures board { IfOk result (λ v. All (λ r. r.board ≡ writer.old.board) v.items) }
    ensures list { IfOk result (λ v. All (λ r. r.list ≡ writer.old.list) v.items) }
    ensures count { IfOk result (λ v. length v.items ≡ count) }
{
    let mut readers = Vec::new(alloc);
    for _ in 0..count {
        readers.push(BoardReader::new(writer.tell()?))?;
    }
    Ok(readers)
}
