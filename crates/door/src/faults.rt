//! Why a call of a door fails.

/// Memory was wanting.
#[derive(Clone, Copy, Debug, PartialEq, Eq)]
pub enum DoorFault {
    /// `done` says whether what was asked was done all the same.
    Memory { done: bool },
}
