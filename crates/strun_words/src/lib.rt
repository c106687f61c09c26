//! The command words of `strun`, read by `clap`.
#![tactic(auto)]

pub mod parse;
pub mod task;

pub use parse::read_task;
pub use task::Task;

#[cfg(test)]
mod tests;
