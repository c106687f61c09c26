//! What a replica does of a Replicate, a Commit and an Abort.
#![tactic(auto)]

pub mod decisions;
pub mod slaves;

pub use decisions::{abort_at, commit_at, place};
pub use slaves::{Evicted, SlaveTurn, replicate};
