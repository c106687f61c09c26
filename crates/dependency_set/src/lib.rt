//! Snapshots, the dependencies of a transaction, and the gate that they make.
#![tactic(auto)]

pub mod names;
pub mod snaps;

pub use names::{Dep, Deps};
pub use snaps::{OwnSnap, Snap, accept_final, accept_local, holds, oldest};
