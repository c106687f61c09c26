//! What every program that runs a scene reads and writes: it reads a scene, as its text or as its frames, or a history, and writes what a
//! run renders, with or without its journal. Lines wait in a buffer that goes out in pieces of some kilobytes.
#![tactic(auto)]

pub mod answers;
pub mod calls;
pub mod inputs;
pub mod journal;

pub use answers::{write_answers, write_cluster, write_rendering};
pub use calls::{Call, call_of, open_gates};
pub use inputs::{Form, read_packed, read_past, read_text};
pub use journal::{write_entry, write_whole};
