//! Answers that are held until their transaction is decided, and the lines in which answers are written.
#![tactic(auto)]

pub mod held;
pub mod lines;

pub use held::HeldAnswer;
pub use lines::push_line;
