//! The model of a store: its messages and answers, and what a step of a node and a run of the cluster are.
#![tactic(auto)]

pub mod messages;
pub mod names;

pub use messages::{Answer, Arrived, Body, Input, Message, Outcome, Waiter};
pub use names::{Done, Gets, Got, KeyMark, KeyMarks, ReadDone};
