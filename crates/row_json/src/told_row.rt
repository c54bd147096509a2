//! A row, and what the site shows after it.

use site_base::{PointState, Row};
use site_book::NamedSale;
use stamps::Stamp;

/// A kept row of a history, and what the site shows after it.
#[derive(Clone, Copy, Drop)]
pub struct ToldRow {
    /// Its number: the kept rows of a history count from 0.
    pub number: u64,
    /// Its time, if the history gives one.
    pub time: Option<Stamp>,
    /// The row.
    pub row: Row,
    /// The state of the point that it names, if the site has that point.
    pub state: Option<PointState>,
    /// The sale that it makes or changes, in its state after the row.
    pub sale: Option<NamedSale>,
}
