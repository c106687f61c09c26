//! How far the script of a transaction has come: its operations one by one, its write buffer and its reads.
#![tactic(auto)]

pub mod laws;
pub mod runs;
pub mod turns;

pub use runs::{Reads, ScriptRun};
pub use turns::Turn;
