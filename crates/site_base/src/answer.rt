//! What the site answers to an event that it accepts.

use crate::amounts::{Cents, Mills};
use crate::numbers::{Seq, ShiftNo};
use crate::state::Preset;
use crate::view::{PointView, ProductView, SiteView, TransactionView};

/// The answer to an accepted event.
#[derive(Clone, Copy, Debug, PartialEq, Eq)]
pub enum Answer {
    /// Done; there is no more to tell.
    Done,
    /// A nozzle is out, and the point calls for its release.
    Calling,
    /// The fuelling may start, within this preset and at this price.
    Start { preset: Preset, price: Mills },
    /// The report's growth, in millilitres, is taken.
    Flowed(u64),
    /// The nozzle is back in; the point wasn't released.
    HungUp,
    /// The nozzle is back in; no fuel has flowed.
    NoSale,
    /// The fuelling is sold as the transaction `seq`. `growth` is that of this report alone, in
    /// millilitres, and 0 if the point went offline.
    Sold { seq: Seq, growth: u64 },
    /// The release is taken back.
    Stopped,
    /// The fuelling is suspended and ends at hang up or offline.
    Ending,
    /// The till has locked the transaction.
    Locked,
    /// The transaction is payable again.
    Unlocked,
    /// The transaction is cleared, with these cents.
    Cleared(Cents),
    /// The shift with this number is closed, and the next one is open.
    ShiftClosed(ShiftNo),
    /// The test is over, and its fuel goes back to the tank. `growth` is that of this report alone,
    /// in millilitres, and 0 if the point went offline.
    Drawn { growth: u64 },
    /// A fuelling point, as it was read.
    PointIs(PointView),
    /// A transaction, as it was read.
    TransactionIs(TransactionView),
    /// A product, as it was read.
    ProductIs(ProductView),
    /// The site, as it was read.
    SiteIs(SiteView),
}
