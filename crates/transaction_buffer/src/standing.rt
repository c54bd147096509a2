//! The state of a transaction.

use site_base::{ShiftNo, TillNo};

/// The state of a transaction.
#[derive(Clone, Copy, Debug, PartialEq, Eq)]
pub enum Standing {
    /// Unpaid, and locked by no till.
    Payable,
    /// Unpaid, and locked by this till.
    LockedBy(TillNo),
    /// Paid: this till cleared it, in this shift.
    ClearedBy(TillNo, ShiftNo),
}
