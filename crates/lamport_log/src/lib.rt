//! Logs of nodes that exchange messages, and the one list of events that they merge into.
#![tactic(auto)]

pub mod cursors;
pub mod laws;
pub mod logs;
pub mod merges;
pub mod node_logs;

pub use logs::{LogEntry, LogInput};
pub use merges::{Merged, merge};
pub use node_logs::NodeLog;
