//! How a till names a sale.

use crate::numbers::{Seq, ShiftNo};

/// A sale of a fuelling point: the shift in which it was sold, and its number there. Without a
/// shift it is one of the shift that is open when the sale is asked for.
#[derive(Clone, Copy, Debug, PartialEq, Eq)]
pub struct SaleId {
    /// The shift; None for the open one.
    pub shift: Option<ShiftNo>,
    /// The sale's number at its point in that shift.
    pub seq: Seq,
}
