//! What a node keeps of the partitions that it hosts: their versions, who waits for others, and which pairs of a
//! transaction and a partition were decided.
#![tactic(auto)]

pub mod done;
pub mod parked;
pub mod stores;

pub use done::DoneList;
pub use parked::Parked;
pub use stores::ReplicaStore;
pub use str_model::{Arrived, Waiter};
