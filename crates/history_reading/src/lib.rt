//! The text of a history: a scene's text, and after it the answers and the end line of a run of that scene. It is read exactly.
#![tactic(auto)]

pub mod answers;
pub mod causes;
pub mod endings;
pub mod gets;
pub mod heads;
pub mod key_texts;
pub mod laws;
pub mod parts;
pub mod places;
pub mod reading;

pub use reading::{History, HistoryFault, read_history};
