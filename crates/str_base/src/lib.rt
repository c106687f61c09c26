//! The names and plain values of the store, its versions in order, its limits, and decimals.
#![tactic(auto)]

pub mod decimals;
pub mod limits;
pub mod names;
pub mod short;

pub use decimals::{push_i64, push_u64, read_i64, read_u64};
pub use names::{
    Cause, KeyId, Kind, NodeId, PartId, SessionId, TextId, Ts, TxId, Value, Version, Write,
};
pub use short::{ShortList, Writes};
