//! How a program ends.
ghost use Rattle.std.specs.Prelude.{◌≡◌};

/// The answer of a top call.
#[derive(Clone, Copy, Debug, PartialEq, Eq)]
pub enum Status {
    /// All was read, run and written.
    Ok,
    /// The words after the program's name are none of its lists.
    Usage,
    /// The input was read, and is refused.
    Refused,
    /// A read failed.
    ReadFault,
    /// A write failed.
    WriteFault,
    /// Memory was wanting.
    NoMemory,
}

impl Status {
    ghost use Rattle.top_status.specs.Statuses.{code_of};

    /// The number with which the program ends.
    pub fn code(self) -> u8
        ensures { result ≡ code_of self }
    {
        match self {
            Status::Ok => 0,
            Status::Usage => 2,
            Status::Refused => 3,
            Status::ReadFault => 4,
            Status::WriteFault => 5,
            Status::NoMemory => 6,
        }
    }
}
