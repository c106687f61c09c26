//! The greatest snapshot timestamp that has read each key.
#![tactic(auto)]

pub mod marks;

pub use marks::Marks;
