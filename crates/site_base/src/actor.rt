//! Who causes an event.

use crate::numbers::{FpNo, TillNo};

/// Who causes an event at the site.
#[derive(Clone, Copy, Debug, PartialEq, Eq)]
pub enum Actor {
    /// The till with this number.
    Till(TillNo),
    /// The dispenser of this fuelling point.
    Dispenser(FpNo),
}
