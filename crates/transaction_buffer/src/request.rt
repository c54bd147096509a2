//! What a till asks of a transaction.

use site_base::ShiftNo;

/// What a till asks of a transaction.
#[derive(Clone, Copy, Debug, PartialEq, Eq)]
pub enum Request {
    /// To lock it, so that no other till can clear it.
    Lock,
    /// To make it payable again.
    Unlock,
    /// To clear it, in this shift.
    Clear(ShiftNo),
}
