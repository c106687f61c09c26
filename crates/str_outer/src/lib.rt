//! The outside of the programs: what gives them bytes, what takes their bytes, clocks and gates.
#![tactic(auto)]

pub mod clocks;
pub mod gates;
pub mod memory;
pub mod outside;
pub mod reading;
pub mod standard;
pub mod sure;
pub mod writing;

pub use clocks::{FixedClock, RealClock};
pub use gates::OpenGate;
pub use memory::{MemSink, MemSource};
pub use outside::{Clock, Failed, Gate, Sink, Source, Stopped};
pub use reading::{LIMIT, ReadError, read_all};
pub use standard::{StdSink, StdSource};
pub use sure::{SureSink, SureSource};
pub use writing::write_all;

#[cfg(test)]
mod tests;
