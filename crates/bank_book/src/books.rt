//! What a book is, and why a scene has none.
ghost use Rattle.std.specs.Prelude.{◌≡◌};

use std::alloc::AllocError;
use str_base::KeyId;
use str_scene::TxPlace;

/// The accounts of a bank scene in order of the opening, and what each was opened with.
#[derive(Drop)]
pub struct Book {
    pub accounts: Vec<KeyId>,
    pub amounts: Vec<i64>,
}

/// Why a scene has no book.
#[derive(Clone, Copy, Debug, PartialEq, Eq)]
pub enum BookFault {
    /// The scene is no bank's: the transaction at the place is the first that fits no form.
    Not { place: TxPlace },
    /// There was not enough memory.
    Memory,
}

impl From<AllocError> for BookFault {
    ghost use Rattle.bank_book.specs.declared.books.BookFault.TheVariants.{Memory};

    ghost from_gives = { λ _ fault. fault ≡ Memory };

    fn from(_error: AllocError) -> BookFault {
        BookFault::Memory
    }
}
