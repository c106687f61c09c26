//! A source and a sink in memory, which never fail.
ghost use Rattle.std.specs.Prelude.{◌≡◌, ◌<◌, ◌≤◌, min, length, [], Some, IfOk, OnOk};
ghost use Rattle.std.specs.Io.{ReadsAtMost, WritesAtMost};
ghost use Rattle.std.specs.Io.KnownBytes.{ReadConsumes, WriteAppends};
ghost use Rattle.str_outer.specs.Causes.{HasCause, HasCauses};

use crate::memory::copy_from;
use crate::outside::{Failed, Sink, Source, Stopped};
use std::alloc::Global;

/// A source that gives the bytes of a list. No read of it fails.
#[derive(Drop)]
pub struct SureSource {
    bytes: Vec<u8>,
    at: usize,
    ghost at_in: { at ≤ length bytes.items },
}

impl SureSource {
    ghost use Rattle.str_outer.specs.Sure.{source_left};

    /// A source of these bytes.
    pub fn new(bytes: Vec<u8>) -> SureSource
        ensures { source_left result ≡ Some bytes.items }
    {
        SureSource { bytes, at: 0 }
    }
}

impl Source for SureSource {
    ghost use Rattle.str_outer.specs.Sure.{source_left, source_ahead};

    ghost left = { source_left };

    ghost faults = { λ _. 0 };

    fn read(&mut self, buf: &mut [u8]) -> Result<usize, Failed>
        ensures bound { ReadsAtMost result buf.new }
        ensures bytes { ReadConsumes (source_left self.old) (source_left self.new) result buf.new }
        ensures cause { HasCause 0 0 result }
        ensures count { result ≡ Ok (min (length buf.old) (source_ahead self.old)) }
    {
        let count = copy_from(&self.bytes, self.at, buf.len(), buf);
        self.at += count;
        Ok(count)
    }
}

/// A sink that keeps its bytes. No write of it fails, though memory may be wanting.
#[derive(Drop)]
pub struct SureSink {
    bytes: Vec<u8>,
    wants: u64,
}

impl SureSink {
    ghost use Rattle.str_outer.specs.Sure.{sink_held, sink_wants};

    /// A sink that holds nothing.
    pub fn new(alloc: Global) -> SureSink
        ensures held { sink_held result ≡ Some [] }
        ensures wants { sink_wants result ≡ 0 }
    {
        SureSink {
            bytes: Vec::new(alloc),
            wants: 0,
        }
    }

    /// What it holds.
    pub fn bytes(&self) -> &[u8]
        ensures { sink_held self.now ≡ Some result.now }
    {
        &self.bytes
    }
}

impl Sink for SureSink {
    ghost use Rattle.str_outer.specs.Sure.{sink_held, sink_wants};

    ghost held = { sink_held };

    ghost faults = { λ _. 0 };

    ghost wants = { sink_wants };

    fn write(&mut self, piece: &[u8]) -> Result<usize, Stopped>
        ensures bound { WritesAtMost result piece.now }
        ensures some { 0 < length piece.now → IfOk result (λ n. 0 < n) }
        ensures bytes { WriteAppends (sink_held self.old) (sink_held self.new) result piece.now }
        ensures cause { HasCauses 0 0 (sink_wants self.old) (sink_wants self.new) result }
        ensures quiet { OnOk result (sink_wants self.new ≡ sink_wants self.old) }
        ensures count { IfOk result (λ n. n ≡ length piece.now) }
    {
        match self.bytes.extend_from_slice(piece) {
            Ok(()) => Ok(piece.len()),
            Err(_) => {
                self.wants = self.wants.saturating_add(1);
                Err(Stopped::Memory)
            }
        }
    }
}
