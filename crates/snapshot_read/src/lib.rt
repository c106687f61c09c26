//! Reads: of own transactions at a snapshot, replies from masters, and reads of other nodes.
#![tactic(auto)]

pub mod reads;
pub mod taking;

pub use reads::{ReadTurn, ServeTurn, serve, take_reply, try_read};
pub use taking::{gate_waits, take_over};
