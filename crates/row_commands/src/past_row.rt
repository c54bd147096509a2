//! A row of a history, with its time.

use site_base::{Row, ShiftNo};
use stamps::Stamp;

/// A row of a history, when it came, and the shift that was open then.
#[derive(Clone, Copy, Debug, PartialEq, Eq)]
pub struct PastRow {
    /// Its time, if the history gives one.
    pub time: Option<Stamp>,
    /// The shift that was open before it.
    pub shift: ShiftNo,
    /// The row.
    pub row: Row,
}
