//! The text of a scene, read and written exactly.
#![tactic(auto)]

pub mod arguments;
pub mod keys;
pub mod lines;
pub mod numbers;
pub mod order;
pub mod parting;
pub mod read;
pub mod read_line;
pub mod write;

pub use lines::{Line, ReadLine, Word};
pub use order::{Place, follows};
pub use read::{Reader, TextFault, read_scene};
pub use write::write_scene;
