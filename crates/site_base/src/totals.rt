//! The totals of a site.

use crate::listing::Listing;
use crate::numbers::TillNo;
use crate::view::ProductView;

/// What a site has sold and cleared since it opened.
#[derive(Drop)]
pub struct Totals {
    /// The number of rows in the history.
    pub rows: u64,
    /// Each product as a read shows it, in configured order.
    pub products: Listing<ProductView>,
    /// Each till that a site may have, from 1 on: the number of transactions that it cleared, and
    /// their cents.
    pub tills: Listing<(TillNo, u64, u64)>,
}
