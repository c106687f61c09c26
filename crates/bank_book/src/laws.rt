//! The law of the bank: a function without effect that carries it.
ghost use Rattle.bank_book.specs.BankLaw.{BankHolds};

/// Over every list of answers of which the snapshot isolation machine runs: the commit list begins with the opening, after each of its
/// members the accounts add up to the opening's sum and none is below 0, and each committed statement sees that sum, or no account at all.
pub fn bank_holds()
    ensures { BankHolds }
{}
