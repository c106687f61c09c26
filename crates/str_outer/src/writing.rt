//! The writing of a whole text.
ghost use Rattle.std.specs.Prelude.{OnOk, OnErr};
ghost use Rattle.std.specs.Io.KnownBytes.{Appends};
ghost use Rattle.str_outer.specs.Causes.{HasCauses};
ghost use Rattle.str_outer.specs.Pieces.{AppendsPrefix};

use crate::outside::{Sink, Stopped};

/// Writes all of `text`, piece by piece.
///
/// # Errors
///
/// `Failed` where a write failed, and `Memory` where memory was wanting. The sink has then taken
/// a prefix of the text.
pub fn write_all<K: Sink>(sink: &mut K, text: &[u8]) -> Result<(), Stopped>
    ensures ok { OnOk result (Appends (K.held sink.old) (K.held sink.new) text.now) }
    ensures err { OnErr result (AppendsPrefix (K.held sink.old) (K.held sink.new) text.now) }
    ensures cause { HasCauses (K.faults sink.old) (K.faults sink.new)
        (K.wants sink.old) (K.wants sink.new) result }
{
    let mut at = 0;
    while at < text.len() {
        at += sink.write(&text[at..])?;
    }
    Ok(())
}
