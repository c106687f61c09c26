//! Which nodes hold the replicas of a partition, and who takes part in a transaction.
#![tactic(auto)]

pub mod maps;
pub mod rows;

pub use maps::PartitionMap;
pub use rows::{Asked, PartRow, Participants};
