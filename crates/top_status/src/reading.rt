//! The reading of a program's input.
ghost use Rattle.std.specs.Io.KnownBytes.{Consumes, IsAtEnd};
ghost use Rattle.str_base.specs.declared.limits.TheConstants.{INPUT_BYTES};
ghost use Rattle.std.specs.Prelude.{◌≡◌, ◌+◌, ◌≤◌, ◌⊎◌, length, IfErr, IfOk};
ghost use Rattle.top_status.specs.Failures.{HasReadCause};

use crate::failure::Failure;
use std::alloc::Global;
use str_outer::{ReadError, Source, read_all};

/// All bytes of the source, or the first 1,048,577 of them.
///
/// # Errors
///
/// `Read` where a read failed, and `Memory` where memory was wanting. The bytes read until then are lost.
pub fn read_input<S: Source>(alloc: Global, src: &mut S) -> Result<Vec<u8>, Failure>
    ensures taken { IfOk result (λ bytes. Consumes (S.left src.old) (S.left src.new) bytes.items) }
    ensures whole { IfOk result (λ bytes. (length bytes.items ≡ INPUT_BYTES + 1) ⊎ IsAtEnd (S.left src.new)) }
    ensures limit { IfOk result (λ bytes. length bytes.items ≤ INPUT_BYTES + 1) }
    ensures later { S.faults src.old ≤ S.faults src.new }
    ensures failed { IfErr result (λ failure. HasReadCause (S.faults src.old) (S.faults src.new) failure) }
{
    match read_all(alloc, src) {
        Ok(bytes) => Ok(bytes),
        Err(ReadError::Failed) => Err(Failure::Read),
        Err(ReadError::Memory) => Err(Failure::Memory),
    }
}
