//! What becomes of a transaction when its dependencies are decided, and the removal of what an aborted one wrote.
#![tactic(auto)]

pub mod fates;
pub mod removal;

pub use fates::{DepTurn, Fate, FateKind, resolve};
pub use removal::drop_all;
