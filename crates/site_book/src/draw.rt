//! The draw of a test.

use site_base::{FpNo, Millilitres, ProductNo, ShiftNo};

/// The draw of a test: fuel that went back to the tank.
#[derive(Clone, Copy, Debug, PartialEq, Eq)]
pub struct Draw {
    /// The shift that was open when the test was over.
    pub shift: ShiftNo,
    /// The fuelling point.
    pub point: FpNo,
    /// The product of the nozzle that was out.
    pub product: ProductNo,
    /// The millilitres that were drawn.
    pub volume: Millilitres,
}
