//! Rounds of nodes: all nodes of a round at once, each in a thread of its own where one can be made.
#![tactic(auto)]

pub mod laws;
mod moves;
pub mod nodes;
pub mod races;
mod sends;
mod settles;
mod steps;
mod takes;
mod turns;

pub use nodes::RaceNode;
pub use races::rounds;
