//! The bank book: scenes whose transactions are transfers, the balances of their accounts, and the law that nothing is made or lost.
#![tactic(auto)]

pub mod balances;
pub mod books;
pub mod laws;
pub mod reading;
mod scripts;
mod tallies;

pub use books::{Book, BookFault};
