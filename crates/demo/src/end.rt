//! How a dispenser's run ends.

ghost use Rattle.std.specs.Prelude.{◌≡◌};
ghost use Rattle.site_base.specs.Refusals.{no_row_number};
ghost use Rattle.demo.specs.Faults.{dispenser_fault_number};

use counter_desk::{Naming, Share};
use site_base::NoRow;
use std::sync::ledger::Ledger;
use thiserror::Error;

/// Why a run ended before its script did.
#[derive(Clone, Copy, Debug, PartialEq, Eq, Error)]
pub enum DispenserFault {
    /// The book has as many rows as the configuration allows.
    #[error("the book is full")]
    BookFull,
    /// An allocation failed.
    #[error("no memory")]
    NoMemory,
    /// The point wasn't seen in the state that a step waits for, in as many looks as allowed.
    #[error("the polls are spent")]
    PollsSpent,
}

impl DispenserFault {
    /// Why a report made no row. Its number is the same.
    pub(crate) fn of(no_row: NoRow) -> Self
        ensures { dispenser_fault_number result ≡ no_row_number no_row }
    {
        match no_row {
            NoRow::BookFull => DispenserFault::BookFull,
            NoRow::NoMemory => DispenserFault::NoMemory,
        }
    }

    /// Returns its number: 30, 31 or 65.
    pub fn number(self) -> u8
        ensures { result ≡ dispenser_fault_number self }
    {
        match self {
            DispenserFault::BookFull => 30,
            DispenserFault::NoMemory => 31,
            DispenserFault::PollsSpent => 65,
        }
    }
}

/// How a run ended. It has the share that the run was lent, which can't be dropped.
#[must_use]
pub struct DispenserEnd<L: Ledger, C: Naming> {
    /// The share. After the receipts that it had, it has one for each report of the run.
    pub share: Share<L, C>,
    /// How many reports were answered with a sale.
    pub sold: u64,
    /// How many reports were refused.
    pub refused: u64,
    /// Why it ended before its script did; None if it didn't.
    pub fault: Option<DispenserFault>,
}
