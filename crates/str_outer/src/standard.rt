//! A source over a reader of the standard library, and a sink over a writer.
ghost use Rattle.std.specs.Prelude.{◌≡◌, ◌<◌, length, IfOk, OnOk};
ghost use Rattle.std.specs.Io.{ReadsAtMost, WritesAtMost};
ghost use Rattle.std.specs.Io.KnownBytes.{ReadConsumes, WriteAppends};
ghost use Rattle.str_outer.specs.Causes.{HasCause, HasCauses};

use crate::outside::{Failed, Sink, Source, Stopped};
use std::io::{Read, Write};

/// A source over a reader. It tells what its reader tells, and counts each error of a read.
#[derive(Drop)]
pub struct StdSource<R> {
    reader: R,
    faults: u64,
}

impl<R: Read> StdSource<R> {
    ghost use Rattle.str_outer.specs.Standard.{source_left, source_faults};

    /// A source over this reader.
    pub fn new(reader: R) -> StdSource<R>
        ensures left { source_left R.remaining result ≡ R.remaining reader }
        ensures faults { source_faults result ≡ 0 }
    {
        StdSource { reader, faults: 0 }
    }
}

impl<R: Read> Source for StdSource<R> {
    ghost use Rattle.str_outer.specs.Standard.{source_left, source_faults};

    ghost left = { source_left R.remaining };

    ghost faults = { source_faults };

    fn read(&mut self, buf: &mut [u8]) -> Result<usize, Failed>
        ensures bound { ReadsAtMost result buf.new }
        ensures bytes { ReadConsumes (source_left R.remaining self.old)
            (source_left R.remaining self.new) result buf.new }
        ensures cause { HasCause (source_faults self.old) (source_faults self.new) result }
        ensures quiet { OnOk result (source_faults self.new ≡ source_faults self.old) }
    {
        match self.reader.read(buf) {
            Ok(count) => Ok(count),
            Err(_) => {
                self.faults = self.faults.saturating_add(1);
                Err(Failed)
            }
        }
    }
}

/// A sink over a writer. It tells what its writer tells, and counts each error of a write. A writer
/// that takes nothing of a piece fails too.
#[derive(Drop)]
pub struct StdSink<W> {
    writer: W,
    faults: u64,
}

impl<W: Write> StdSink<W> {
    ghost use Rattle.str_outer.specs.Standard.{sink_held, sink_faults};

    /// A sink over this writer.
    pub fn new(writer: W) -> StdSink<W>
        ensures held { sink_held W.contents result ≡ W.contents writer }
        ensures faults { sink_faults result ≡ 0 }
    {
        StdSink { writer, faults: 0 }
    }
}

impl<W: Write> Sink for StdSink<W> {
    ghost use Rattle.str_outer.specs.Standard.{sink_held, sink_faults};

    ghost held = { sink_held W.contents };

    ghost faults = { sink_faults };

    ghost wants = { λ _. 0 };

    fn write(&mut self, piece: &[u8]) -> Result<usize, Stopped>
        ensures bound { WritesAtMost result piece.now }
        ensures some { 0 < length piece.now → IfOk result (λ n. 0 < n) }
        ensures bytes { WriteAppends (sink_held W.contents self.old)
            (sink_held W.contents self.new) result piece.now }
        ensures cause { HasCauses (sink_faults self.old) (sink_faults self.new) 0 0 result }
        ensures quiet { OnOk result (sink_faults self.new ≡ sink_faults self.old) }
    {
        match self.writer.write(piece) {
            Ok(count) if count > 0 || piece.is_empty() => Ok(count),
            _ => {
                self.faults = self.faults.saturating_add(1);
                Err(Stopped::Failed)
            }
        }
    }
}
