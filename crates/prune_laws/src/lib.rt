//! The law of pruning: a cluster whose nodes drop old versions gives the answers of one that keeps them. Each public function has no
//! effect and carries one law.
#![tactic(auto)]

pub mod laws;
