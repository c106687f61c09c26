//! The end of a top call.
ghost use Rattle.std.specs.Io.KnownBytes.{Appends};
ghost use Rattle.std.specs.Prelude.{◌≡◌, OnErr, OnOk};
ghost use Rattle.str_outer.specs.Causes.{HasCauses};
ghost use Rattle.str_outer.specs.Pieces.{AppendsPrefix};
ghost use Rattle.top_status.specs.Failures.{refusal_of, status_of, text_of};
ghost use Rattle.top_status.specs.Statuses.{line, line_of};
ghost use Rattle.top_status.specs.Telling.{Tells};

use crate::failure::Failure;
use crate::status::Status;
use str_outer::{Sink, Stopped, write_all};

/// Ends a top call: says the line of a failure on `err`, behind the program's name, and gives the status.
///
/// A refusal of `err` is dropped. Where all was done nothing is written.
pub fn answer<E: Sink>(err: &mut E, name: &[u8], done: Result<(), Failure>) -> Status
    ensures status { result ≡ status_of done }
    ensures told { Tells (line_of name.now (refusal_of done) result) (E.held err.old) (E.held err.new)
        (E.faults err.old) (E.faults err.new) (E.wants err.old) (E.wants err.new) }
{
    match done {
        Ok(()) => Status::Ok,
        Err(failure) => {
            tell(err, name, failure.text());
            failure.status()
        }
    }
}

/// Writes a line on `err`. A refusal is dropped.
fn tell<E: Sink>(err: &mut E, name: &[u8], text: &[u8])
    ensures { Tells (line name.now text.now) (E.held err.old) (E.held err.new)
        (E.faults err.old) (E.faults err.new) (E.wants err.old) (E.wants err.new) }
{
    match write_line(err, name, text) {
        Ok(()) => {}
        Err(_) => {}
    }
}

/// Writes a line: the program's name, a colon, the text and a line feed.
fn write_line<E: Sink>(err: &mut E, name: &[u8], text: &[u8]) -> Result<(), Stopped>
    ensures ok { OnOk result (Appends (E.held err.old) (E.held err.new) (line name.now text.now)) }
    ensures err { OnErr result (AppendsPrefix (E.held err.old) (E.held err.new) (line name.now text.now)) }
    ensures cause { HasCauses (E.faults err.old) (E.faults err.new) (E.wants err.old) (E.wants err.new) result }
{
    write_all(err, name)?;
    write_all(err, b": ")?;
    write_all(err, text)?;
    write_all(err, b"\n")
}
