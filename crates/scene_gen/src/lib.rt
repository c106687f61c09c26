//! Made loads: the scene of a seed.
#![tactic(auto)]

pub mod draws;
pub mod laws;
pub mod made;
#[cfg(test)]
mod tests;

pub use made::make;
