//! The reading of a whole source, up to a limit.
ghost use Rattle.std.specs.Prelude.{◌≡◌, ◌+◌, ◌≤◌, ◌⊎◌, length, IfOk, IsErrOf};
ghost use Rattle.str_base.specs.declared.limits.TheConstants.{INPUT_BYTES};
ghost use Rattle.std.specs.Io.KnownBytes.{Consumes, IsAtEnd};
ghost use Rattle.str_outer.specs.Causes.{Rose};

use crate::outside::Source;
use std::alloc::Global;
use str_base::limits::INPUT_BYTES;

/// The most bytes that are read of a source: one more than an input may have.
pub const LIMIT: usize = INPUT_BYTES + 1;

/// Why a source was not read.
#[derive(Clone, Copy, Debug, PartialEq, Eq)]
pub enum ReadError {
    /// Memory was wanting.
    Memory,
    /// A read failed.
    Failed,
}

/// All bytes of a source, or the first `LIMIT` of them.
///
/// # Errors
///
/// `Failed` where a read failed, and `Memory` where memory was wanting. The bytes read until then
/// are lost.
pub fn read_all<S: Source>(alloc: Global, source: &mut S) -> Result<Vec<u8>, ReadError>
    // What was taken is what the source lost.
    ensures taken { IfOk result (λ bytes.
        Consumes (S.left source.old) (S.left source.new) bytes.items) }
    ensures whole { IfOk result (λ bytes.
        (length bytes.items ≡ INPUT_BYTES + 1) ⊎ IsAtEnd (S.left source.new)) }
    ensures limit { IfOk result (λ bytes. length bytes.items ≤ INPUT_BYTES + 1) }

    ensures later { S.faults source.old ≤ S.faults source.new }
    ensures failed { IsErrOf result ReadError.Failed
        → Rose (S.faults source.old) (S.faults source.new) }
{
    let mut bytes = Vec::new(alloc);
    let mut buf = [0u8; 4096];
    while bytes.len() < LIMIT {
        let room = LIMIT - bytes.len();
        let want = room.min(buf.len());
        let piece = &mut buf[..want];
        let count = match source.read(piece) {
            Ok(count) => count,
            Err(_) => return Err(ReadError::Failed),
        };
        if count == 0 {
            return Ok(bytes);
        }
        match bytes.extend_from_slice(&buf[..count]) {
            Ok(()) => {}
            Err(_) => return Err(ReadError::Memory),
        }
    }
    Ok(bytes)
}
