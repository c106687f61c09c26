//! A cluster: all nodes of a scene, the messages sent, the journal and the answers.
#![tactic(auto)]

pub mod clusters;
mod drains;
pub mod flags;
mod last_line;
pub mod lines;
pub mod marks;
mod members;
mod parts;
pub mod pruned;
mod pruned_parts;

pub use clusters::Cluster;
pub use flags::GivenFlags;
pub use lines::{Counts, push_done, push_end};
pub use pruned::PrunedCluster;
