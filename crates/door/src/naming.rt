//! The name of a board in the types of what acts on it.

use std::marker::Brand;

/// Which board it is. The types of a door and of what lies in it carry the name, so the notes and the readers that it gives are of that board.
pub trait Naming {
    ghost use Rattle.logbook.specs.Pages.{Book};

    /// The board's name.
    ghost board: { Book };
}

impl Naming for Brand {
    ghost board = { record { number = 0; log_name = 0; cells_name = 0 } };
}
