//! A scene: nodes, replicas, scripts and a schedule, with all its limits.
#![tactic(auto)]

pub mod build;
#[cfg(test)]
mod build_tests;
mod checks;
pub mod faults;
pub mod keys;
pub mod names;
mod numbered;
pub mod scenes;

pub use build::SceneBuild;
pub use faults::{SceneFault, Why};
pub use keys::{ByteText, KeyTable, Name, short_name, spells_name};
pub use names::{Event, Op, OpList, TxPlace};
pub use scenes::{Scene, SessionText};
