//! A sale that was found.

use site_base::{FpNo, Seq, ShiftNo};

/// A sale that was found: its name, and its place on its point's shelf. It is looked up once; later
/// calls use the place.
#[derive(Clone, Copy, Debug, PartialEq, Eq)]
pub struct FoundSale {
    /// The shift in which it was sold.
    pub shift: ShiftNo,
    /// Its fuelling point.
    pub point: FpNo,
    /// Its number at the point, in that shift.
    pub number: Seq,
    /// Its place among all sales of the point.
    pub place: usize,
}
