//! Speculative snapshot isolation of every node after every event. Each public function has no effect and carries one law.
#![tactic(auto)]

pub mod laws;
