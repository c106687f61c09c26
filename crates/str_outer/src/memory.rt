//! A source and a sink in memory, which fail at given calls.
ghost use Rattle.std.specs.Prelude.{◌≡◌, ◌+◌, ◌-◌, ◌<◌, ◌≤◌, ◌↔◌, min, drop, length, take, ◌++◌, [], Some, IfOk, OnOk, IsErr, IsTrue};
ghost use Rattle.std.specs.Io.{ReadsAtMost, WritesAtMost};
ghost use Rattle.std.specs.Io.KnownBytes.{ReadConsumes, WriteAppends};
ghost use Rattle.str_outer.specs.Causes.{HasCause, HasCauses};
ghost use Rattle.str_outer.specs.Plan.{planned, next_call, is_failing};

use crate::outside::{Failed, Sink, Source, Stopped};
use std::alloc::Global;

/// A source that gives the bytes of a list.
#[derive(Drop)]
pub struct MemSource {
    bytes: Vec<u8>,
    at: usize,
    failing: Vec<u64>,
    most: usize,
    calls: u64,
    faults: u64,
    ghost most_is: { 1 ≤ most },
    ghost at_in: { at ≤ length bytes.items },
}

impl MemSource {
    ghost use Rattle.str_outer.specs.Memory.{source_left, source_faults, source_plan, source_calls};

    /// A source of these bytes. It gives at most `most` a call, and fails at the calls whose numbers,
    /// from 1, stand in `failing`.
    pub fn new(bytes: Vec<u8>, failing: Vec<u64>, most: usize) -> MemSource
        requires { 1 ≤ most }
        ensures left { source_left result ≡ Some bytes.items }
        ensures faults { source_faults result ≡ 0 }
        ensures plan { source_plan result ≡ planned failing.items most }
        ensures calls { source_calls result ≡ 0 }
    {
        MemSource {
            bytes,
            at: 0,
            failing,
            most,
            calls: 0,
            faults: 0,
        }
    }
}

impl Source for MemSource {
    ghost use Rattle.str_outer.specs.Memory.{source_left, source_ahead, source_faults, source_plan, source_calls};

    ghost left = { source_left };

    ghost faults = { source_faults };

    fn read(&mut self, buf: &mut [u8]) -> Result<usize, Failed>
        ensures bound { ReadsAtMost result buf.new }
        ensures bytes { ReadConsumes (source_left self.old) (source_left self.new) result buf.new }
        ensures cause { HasCause (source_faults self.old) (source_faults self.new) result }
        ensures quiet { OnOk result (source_faults self.new ≡ source_faults self.old) }

        // It fails at the planned calls, and else gives as many bytes as there can be.
        ensures fails { IsErr result
            ↔ IsTrue (is_failing (source_plan self.old) (source_calls self.new)) }
        ensures count { IfOk result (λ n.
            n ≡ min (source_plan self.old).most (min (length buf.old) (source_ahead self.old))) }
        ensures calls { source_calls self.new ≡ next_call (source_calls self.old) }
        ensures plan { source_plan self.new ≡ source_plan self.old }
    {
        self.calls = self.calls.saturating_add(1);
        if self.failing.contains(&self.calls) {
            self.faults = self.faults.saturating_add(1);
            return Err(Failed);
        }
        let count = copy_from(&self.bytes, self.at, self.most, buf);
        self.at += count;
        Ok(count)
    }
}

// Copies the bytes from `at` on into the front of `buf`, at most `most`, and says how many.
pub(crate) fn copy_from(bytes: &[u8], at: usize, most: usize, buf: &mut [u8]) -> usize
    requires { at ≤ length bytes.now }
    ensures count { result ≡ min most (min (length buf.old) (length bytes.now - at)) }
    ensures piece { drop at bytes.now ≡ take result buf.new ++ drop (at + result) bytes.now }
{
    let count = most.min(buf.len()).min(bytes.len() - at);
    let end = at + count;
    buf[..count].copy_from_slice(&bytes[at..end]);
    count
}

/// A sink that keeps its bytes.
#[derive(Drop)]
pub struct MemSink {
    bytes: Vec<u8>,
    failing: Vec<u64>,
    most: usize,
    calls: u64,
    faults: u64,
    wants: u64,
    ghost most_is: { 1 ≤ most },
}

impl MemSink {
    ghost use Rattle.str_outer.specs.Memory.{sink_held, sink_faults, sink_wants, sink_plan, sink_calls};

    /// A sink that holds nothing. It takes at most `most` bytes a call, and fails at the calls whose
    /// numbers, from 1, stand in `failing`.
    pub fn new(alloc: Global, failing: Vec<u64>, most: usize) -> MemSink
        requires { 1 ≤ most }
        ensures held { sink_held result ≡ Some [] }
        ensures faults { sink_faults result ≡ 0 }
        ensures wants { sink_wants result ≡ 0 }
        ensures plan { sink_plan result ≡ planned failing.items most }
        ensures calls { sink_calls result ≡ 0 }
    {
        MemSink {
            bytes: Vec::new(alloc),
            failing,
            most,
            calls: 0,
            faults: 0,
            wants: 0,
        }
    }

    /// What it holds.
    pub fn bytes(&self) -> &[u8]
        ensures { sink_held self.now ≡ Some result.now }
    {
        &self.bytes
    }
}

impl Sink for MemSink {
    ghost use Rattle.str_outer.specs.Memory.{sink_held, sink_faults, sink_wants, sink_plan, sink_calls};

    ghost held = { sink_held };

    ghost faults = { sink_faults };

    ghost wants = { sink_wants };

    fn write(&mut self, piece: &[u8]) -> Result<usize, Stopped>
        ensures bound { WritesAtMost result piece.now }
        ensures some { 0 < length piece.now → IfOk result (λ n. 0 < n) }
        ensures bytes { WriteAppends (sink_held self.old) (sink_held self.new) result piece.now }
        ensures cause { HasCauses (sink_faults self.old) (sink_faults self.new)
            (sink_wants self.old) (sink_wants self.new) result }
        ensures quiet { OnOk result ((sink_faults self.new ≡ sink_faults self.old)
            × (sink_wants self.new ≡ sink_wants self.old)) }
        ensures failed_alone { result ≡ Err Stopped.Failed
            → sink_wants self.new ≡ sink_wants self.old }
        ensures memory_alone { result ≡ Err Stopped.Memory
            → sink_faults self.new ≡ sink_faults self.old }

        // It fails at the planned calls, and else takes as many bytes as it may.
        ensures fails { (result ≡ Err Stopped.Failed)
            ↔ IsTrue (is_failing (sink_plan self.old) (sink_calls self.new)) }
        ensures count { IfOk result (λ n. n ≡ min (sink_plan self.old).most (length piece.now)) }
        ensures calls { sink_calls self.new ≡ next_call (sink_calls self.old) }
        ensures plan { sink_plan self.new ≡ sink_plan self.old }
    {
        self.calls = self.calls.saturating_add(1);
        if self.failing.contains(&self.calls) {
            self.faults = self.faults.saturating_add(1);
            return Err(Stopped::Failed);
        }
        let count = self.most.min(piece.len());
        match self.bytes.extend_from_slice(&piece[..count]) {
            Ok(()) => Ok(count),
            Err(_) => {
                self.wants = self.wants.saturating_add(1);
                Err(Stopped::Memory)
            }
        }
    }
}
