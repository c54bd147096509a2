//! What can be counted over the sales.

ghost use Rattle.std.specs.Prelude.{◌≡◌};
ghost use Rattle.transaction_buffer.specs.Figures.{figure_in};

use crate::sale::Sale;
use site_base::{ProductNo, ShiftNo, Status, TillNo};

/// A figure that can be counted over the sales.
#[derive(Clone, Copy, Debug)]
pub enum Figure {
    /// The millilitres of a product in the sales with this status.
    Volume(ProductNo, Status),
    /// How many sales a till cleared in all shifts.
    Clears(TillNo),
    /// The cents of the sales that a till cleared in all shifts.
    Cents(TillNo),
    /// How many sales a till cleared in a shift.
    ClearsIn(ShiftNo, TillNo),
    /// The cents of the sales that a till cleared in a shift.
    CentsIn(ShiftNo, TillNo),
    /// The millilitres of a product that were cleared in a shift.
    ClearedIn(ShiftNo, ProductNo),
    /// The cents of a product's sales that were cleared in a shift.
    ProductCentsIn(ShiftNo, ProductNo),
}

impl Figure {
    /// What a sale adds to the figure.
    pub(crate) fn of(&self, sale: &Sale) -> u64
        ensures { result ≡ figure_in self.now sale.now }
    {
        match self {
            Figure::Volume(q, status) if sale.has_status(*status) => sale.volume_in(*q),
            Figure::Clears(t) if sale.is_cleared_by(*t) => 1,
            Figure::Cents(t) if sale.is_cleared_by(*t) => sale.cents.get(),
            Figure::ClearsIn(h, t) if sale.is_cleared_in(*h) && sale.is_cleared_by(*t) => 1,
            Figure::CentsIn(h, t) if sale.is_cleared_in(*h) && sale.is_cleared_by(*t) => {
                sale.cents.get()
            }
            Figure::ClearedIn(h, q) if sale.is_cleared_in(*h) => sale.volume_in(*q),
            Figure::ProductCentsIn(h, q) if sale.is_cleared_in(*h) => sale.product_cents(*q),
            _ => 0,
        }
    }
}
