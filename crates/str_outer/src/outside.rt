//! The traits of the outside.
ghost use Rattle.std.specs.Prelude.{ℕ, ◌<◌, List, length, Option, IfOk};
ghost use Rattle.std.specs.Io.{ReadsAtMost, WritesAtMost};
ghost use Rattle.std.specs.Io.KnownBytes.{ReadConsumes, WriteAppends};
ghost use Rattle.str_outer.specs.Causes.{HasCause, HasCauses};
ghost use Rattle.str_outer.specs.Clocks.{Gives};

use str_base::NodeId;

/// A read failed.
#[derive(Clone, Copy, Debug, PartialEq, Eq)]
pub struct Failed;

/// Why a sink refuses.
#[derive(Clone, Copy, Debug, PartialEq, Eq)]
pub enum Stopped {
    /// The write failed.
    Failed,
    /// Memory was wanting.
    Memory,
}

/// What gives bytes.
pub trait Source {
    /// The bytes still to come, where the source tells them.
    ghost left: { Self → Option (List ℕ) };

    /// A count of the reads that failed. It never falls.
    ghost faults: { Self → ℕ };

    /// Reads into the front of `buf`, and says how many bytes it read. 0 for a buffer that has room
    /// is the end. After `Failed` the bytes still to come are as they were.
    fn read(&mut self, buf: &mut [u8]) -> Result<usize, Failed>
        ensures bound { ReadsAtMost result buf.new }
        ensures bytes { ReadConsumes (left self.old) (left self.new) result buf.new }
        ensures cause { HasCause (faults self.old) (faults self.new) result };
}

/// What takes bytes.
pub trait Sink {
    /// The bytes taken so far, where the sink tells them.
    ghost held: { Self → Option (List ℕ) };

    /// A count of the writes that failed. It never falls.
    ghost faults: { Self → ℕ };

    /// A count of the writes for which memory was wanting. It never falls.
    ghost wants: { Self → ℕ };

    /// Takes some of the first bytes of `piece`, at least one where there is one, and says how many.
    /// After a refusal it holds what it held.
    fn write(&mut self, piece: &[u8]) -> Result<usize, Stopped>
        ensures bound { WritesAtMost result piece.now }
        ensures some { 0 < length piece.now → IfOk result (λ n. 0 < n) }
        ensures bytes { WriteAppends (held self.old) (held self.new) result piece.now }
        ensures cause { HasCauses (faults self.old) (faults self.new)
            (wants self.old) (wants self.new) result };
}

/// What gives numbers that are read as times.
pub trait Clock {
    /// The numbers given so far, where the clock tells them.
    ghost given: { Self → Option (List ℕ) };

    /// Gives any number. It never fails.
    fn now(&mut self) -> u64
        ensures given { Gives (given self.old) (given self.new) result };
}

/// What a node passes before it works.
pub trait Gate {
    /// Is called at the start of each round, or of each turn, of this node. It may hold the node up.
    fn before(&mut self, node: NodeId);
}
