//! What the master of a partition decides of a Prepare.
#![tactic(auto)]

pub mod masters;
pub mod proposals;

pub use masters::{MasterTurn, prepare, retry};
pub use proposals::proposed;
