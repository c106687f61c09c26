//! The gate of a certified transaction: which partition it asks next, what it waits for, or that it commits.
#![tactic(auto)]

pub mod gates;
pub mod laws;

pub use gates::{DepParts, GateTurn, gate};
