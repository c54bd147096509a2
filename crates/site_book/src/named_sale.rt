//! A sale with its name.

use site_base::{FpNo, Seq, ShiftNo};
use transaction_buffer::Sale;

/// A sale of a book with its name.
#[derive(Clone, Copy, Drop)]
pub struct NamedSale {
    /// The shift in which it was sold.
    pub shift: ShiftNo,
    /// Its fuelling point.
    pub point: FpNo,
    /// Its number at the point, in that shift.
    pub number: Seq,
    /// The sale: as it was sold, and its present state.
    pub sale: Sale,
}
