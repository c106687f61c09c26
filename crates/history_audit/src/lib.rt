//! The audit of a list of answers: whether it is a run of the snapshot isolation machine, and what stood at a timestamp.
#![tactic(auto)]

pub mod audits;
mod evaluations;
mod ledgers;
pub mod listings;
mod orders;
mod places;
mod sessions;
mod snapshots;
pub mod verdicts;

pub use audits::audit;
pub use listings::values_at;
pub use verdicts::Verdict;
