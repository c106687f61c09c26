//! The frames of a scene, read and written exactly.
#![tactic(auto)]

pub mod laws;
pub mod ops;
pub mod read;
pub mod read_frame;
pub mod script;
pub mod write;

pub use read::{FrameFault, read_frames};
pub use write::write_frames;
