//! The writing of a program's output, piece by piece.
ghost use Rattle.std.specs.Io.KnownBytes.{Appends};
ghost use Rattle.std.specs.Prelude.{◌≤◌, IfErr, OnErr, OnOk, length};
ghost use Rattle.str_outer.specs.Pieces.{AppendsPrefix};
ghost use Rattle.top_status.specs.Failures.{HasWriteCause};
ghost use Rattle.top_status.specs.Waiting.{WrittenBut};

use crate::failure::Failure;
use str_outer::{Sink, Stopped, write_all};

/// How many bytes may wait until they are written.
const PIECE_BYTES: usize = 4096;

/// Writes a piece of the output.
///
/// # Errors
///
/// `Write` where a write failed, and `Memory` where memory was wanting. The sink has then taken a prefix of the piece.
pub fn write_piece<K: Sink>(out: &mut K, piece: &[u8]) -> Result<(), Failure>
    ensures written { OnOk result (Appends (K.held out.old) (K.held out.new) piece.now) }
    ensures partial { OnErr result (AppendsPrefix (K.held out.old) (K.held out.new) piece.now) }
    ensures later { K.faults out.old ≤ K.faults out.new }
    ensures failed { IfErr result (λ failure. HasWriteCause (K.faults out.old) (K.faults out.new) failure) }
{
    match write_all(out, piece) {
        Ok(()) => Ok(()),
        Err(Stopped::Failed) => Err(Failure::Write),
        Err(Stopped::Memory) => Err(Failure::Memory),
    }
}

/// Writes what waits, where that is more than 4,096 bytes; then nothing waits any more. So output goes out in pieces of some kilobytes.
///
/// # Errors
///
/// `Write` where a write failed, and `Memory` where memory was wanting. The sink has then taken a prefix of what waits.
pub fn write_full<K: Sink>(out: &mut K, waiting: &mut Vec<u8>) -> Result<(), Failure>
    ensures written { OnOk result (WrittenBut (K.held out.old) (K.held out.new) waiting.new.items waiting.old.items) }
    ensures few { OnOk result (length waiting.new.items ≤ 4096) }
    ensures partial { OnErr result (AppendsPrefix (K.held out.old) (K.held out.new) waiting.old.items) }
    ensures later { K.faults out.old ≤ K.faults out.new }
    ensures failed { IfErr result (λ failure. HasWriteCause (K.faults out.old) (K.faults out.new) failure) }
{
    if waiting.len() <= PIECE_BYTES {
        return Ok(());
    }
    write_piece(out, waiting.as_slice())?;
    waiting.clear();
    Ok(())
}
