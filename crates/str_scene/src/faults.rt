//! Why a text or frames are no scene's, and why an item is refused.

/// Why a line or a frame is bad: the first of these that applies.
#[derive(Clone, Copy, Debug, PartialEq, Eq)]
pub enum Why {
    /// The input ends inside it, or before it.
    Cut,
    /// It is not of the form, or may not stand at this place.
    Form,
    /// A number of it is out of its range.
    Range,
    /// It is one more than there may be.
    Count,
}

/// Why an item of a scene is refused.
#[derive(Clone, Copy, Debug, PartialEq, Eq)]
pub enum SceneFault {
    /// The item may not stand at this place, or is a list without members.
    Form,
    /// A number that it names is out of its range.
    Range,
    /// It is one more than there may be.
    Count,
    /// There was not enough memory.
    Memory,
}
