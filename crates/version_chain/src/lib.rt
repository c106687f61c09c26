//! The versions of all keys in order, linked by key and by transaction.
#![tactic(auto)]

pub mod chains;
mod pairs;
mod places;
mod sorted;
pub mod walks;
mod writes;

pub use chains::Chains;
pub use walks::Walk;
