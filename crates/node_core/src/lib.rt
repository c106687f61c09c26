//! One node of the cluster.
#![tactic(auto)]

mod acts;
mod arrivals;
mod clients;
pub mod nodes;
mod pass;
mod pruning;
mod queries;
mod returns;
mod scripts;
mod sizes;
mod steps;
mod waiters;
mod work;

pub use node_parts::Outbox;
pub use nodes::Node;
