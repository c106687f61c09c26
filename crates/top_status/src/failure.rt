//! Why a top call didn't do what its words ask for.
ghost use Rattle.std.specs.Prelude.{◌≡◌, ◌++◌, decimal, IfOk};
ghost use Rattle.top_status.specs.Failures.{RefusesWith};

use crate::status::Status;
use std::alloc::{AllocError, Global};
use str_base::push_u64;

/// Why a top call didn't do what its words ask for.
#[derive(Debug, Drop)]
pub enum Failure {
    /// The words after the program's name are none of its lists.
    Usage,
    /// The input was read, and is refused. This text, behind the program's name, says why.
    Refused(Vec<u8>),
    /// A read failed.
    Read,
    /// A write failed.
    Write,
    /// Memory was wanting.
    Memory,
}

impl Failure {
    ghost use Rattle.top_status.specs.Failures.{status_of_failure, text_of};

    /// The status with which the program ends.
    pub fn status(&self) -> Status
        ensures { result ≡ status_of_failure self.now }
    {
        match self {
            Failure::Usage => Status::Usage,
            Failure::Refused(_) => Status::Refused,
            Failure::Read => Status::ReadFault,
            Failure::Write => Status::WriteFault,
            Failure::Memory => Status::NoMemory,
        }
    }

    /// What the program says of it behind its name.
    pub fn text(&self) -> &[u8]
        ensures { result.now ≡ text_of self.now }
    {
        match self {
            Failure::Usage => b"usage",
            Failure::Refused(text) => text.as_slice(),
            Failure::Read => b"read fault",
            Failure::Write => b"write fault",
            Failure::Memory => b"out of memory",
        }
    }
}

impl From<AllocError> for Failure {
    ghost use Rattle.top_status.specs.declared.failure.Failure.TheVariants.{Memory};

    ghost from_gives = { λ _ failure. failure ≡ Memory };

    fn from(_error: AllocError) -> Failure {
        Failure::Memory
    }
}

/// A refusal that says this text, or want of memory.
pub fn refuse(alloc: Global, text: &[u8]) -> Failure
    ensures { RefusesWith text.now result }
{
    match text.to_vec(alloc) {
        Ok(said) => Failure::Refused(said),
        Err(_) => Failure::Memory,
    }
}

/// A refusal that names a place by its number, as in `line 12: form`: what stands before the number, the number, and what
/// stands behind it. Or want of memory.
pub fn refuse_at(alloc: Global, before: &[u8], place: u64, behind: &[u8]) -> Failure
    ensures { RefusesWith (before.now ++ decimal place ++ behind.now) result }
{
    match place_text(alloc, before, place, behind) {
        Ok(said) => Failure::Refused(said),
        Err(_) => Failure::Memory,
    }
}

/// The text that names a place.
fn place_text(
    alloc: Global,
    before: &[u8],
    place: u64,
    behind: &[u8],
) -> Result<Vec<u8>, AllocError>
    ensures { IfOk result (λ text. text.items ≡ before.now ++ decimal place ++ behind.now) }
{
    let mut text = before.to_vec(alloc)?;
    push_u64(&mut text, place)?;
    text.extend_from_slice(behind)?;
    Ok(text)
}
