//! The words of a program's call.
ghost use Rattle.std.specs.Prelude.{IfErr};
ghost use Rattle.top_status.specs.Failures.{IsWithoutWords};

use crate::failure::Failure;
use std::env::{self, Env};
use std::io::ErrorKind;

/// The words after the program's name.
///
/// # Errors
///
/// `Usage` where one is no UTF-8, since it is then no word of any program, and `Memory` where memory was wanting.
pub fn words_of(rt: &(impl Env + AllocGlobal)) -> Result<Vec<String>, Failure>
    ensures { IfErr result IsWithoutWords }
{
    let words = match env::args(rt) {
        Ok(words) => words,
        Err(error) if error.kind() == ErrorKind::OutOfMemory => return Err(Failure::Memory),
        Err(_) => return Err(Failure::Usage),
    };
    match words.skip(1).collect(rt.alloc()) {
        Ok(words) => Ok(words),
        Err(_) => Err(Failure::Memory),
    }
}
