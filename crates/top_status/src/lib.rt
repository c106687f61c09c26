//! What every program shares: its statuses, its failures, and the line that it says of one.
#![tactic(auto)]

pub mod failure;
pub mod reading;
pub mod status;
pub mod telling;
pub mod words;
pub mod writing;

pub use failure::{Failure, refuse, refuse_at};
pub use reading::read_input;
pub use status::Status;
pub use telling::answer;
pub use words::words_of;
pub use writing::{write_full, write_piece};

#[cfg(test)]
mod tests;
