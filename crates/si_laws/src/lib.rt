//! Snapshot isolation of the answers of a run, and laws of every run. Each public function has no effect and carries one law.
#![tactic(auto)]

pub mod laws;
