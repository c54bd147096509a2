//! A transaction that was sold.

ghost use Rattle.std.specs.Prelude.{◌≡◌, ◌<◌, IfSome, length};
ghost use Rattle.row_tally.specs.Moments.{is_sale, sold_place};

use site_base::{FpNo, Seq};
use stamps::Stamp;

/// A transaction, and when it was sold.
#[derive(Clone, Copy, Debug, PartialEq, Eq)]
pub struct SoldAt {
    /// The number of the shift in which it was sold.
    pub shift: u64,
    /// Its fuelling point.
    pub point: FpNo,
    /// Its number at the point, in that shift.
    pub number: Seq,
    /// The time of the row that sold it, if it is known.
    pub at: Option<Stamp>,
}

impl SoldAt {
    /// Is it this transaction?
    fn is_sale(&self, shift: u64, point: FpNo, number: Seq) -> bool
        ensures { result ≡ is_sale shift point number self.now }
    {
        self.shift == shift && self.point == point && self.number == number
    }
}

/// The place of a transaction among these, if it is one of them.
pub(crate) fn find_sold(sold: &[SoldAt], shift: u64, point: FpNo, number: Seq) -> Option<usize>
    ensures place { result ≡ sold_place shift point number sold.now }
    ensures within { IfSome result (λ place. place < length sold.now) }
{
    for (place, one) in sold.iter().enumerate() {
        if one.is_sale(shift, point, number) {
            return Some(place);
        }
    }
    None
}
