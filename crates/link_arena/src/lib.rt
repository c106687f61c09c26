//! Versions in slots, each linked into the list of its key and into the list of its transaction.
#![tactic(auto)]

mod arena;
mod heads;
mod lists;
mod nodes;
#[cfg(test)]
mod tests;

pub use arena::Arena;
pub use nodes::Slot;
