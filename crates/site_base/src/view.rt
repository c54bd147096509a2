//! What a read shows.

use crate::amounts::{Cents, Millilitres, Mills};
use crate::numbers::{NozzleNo, ProductNo, ShiftNo, TillNo};
use crate::state::{PointState, Preset, Status};

/// A fuelling point as ReadPoint shows it.
#[derive(Clone, Copy, Debug, PartialEq, Eq)]
pub struct PointView {
    /// Its state.
    pub state: PointState,
    /// The nozzle that is out.
    pub out: Option<NozzleNo>,
    /// The till that holds the point.
    pub holder: Option<TillNo>,
    /// A till has terminated the fuelling, which ends at hang up or offline.
    pub ending: bool,
    /// The next fuelling, or the one in progress, is a test: its fuel goes back to the tank.
    pub test: bool,
    /// The preset of the next fuelling, or of the one in progress.
    pub preset: Preset,
    /// The prepaid cents, if the fuelling is prepaid.
    pub prepaid: Option<u32>,
    /// The price taken for the fuelling, in mills per litre; 0 unless it has started.
    pub price: u32,
    /// The millilitres of the fuelling so far; 0 unless it has started.
    pub volume: u64,
}

/// A transaction as ReadTransaction shows it.
#[derive(Clone, Copy, Debug, PartialEq, Eq)]
pub struct TransactionView {
    /// The price that was taken.
    pub price: Mills,
    /// The volume sold.
    pub volume: Millilitres,
    /// The amount due.
    pub cents: Cents,
    /// The prepaid cents, if the fuelling was prepaid.
    pub prepaid: Option<u32>,
    /// Cleared, payable or locked.
    pub status: Status,
    /// The till that has locked or cleared it.
    pub till: Option<TillNo>,
    /// The product sold.
    pub product: ProductNo,
}

/// A product as ReadProduct shows it. Volumes are in millilitres.
#[derive(Clone, Copy, Debug, PartialEq, Eq)]
pub struct ProductView {
    /// The present price.
    pub price: Mills,
    /// What its meters have counted since the opening.
    pub metered: u64,
    /// In fuellings in progress.
    pub running: u64,
    /// In payable transactions.
    pub payable: u64,
    /// In locked transactions.
    pub locked: u64,
    /// In cleared transactions.
    pub cleared: u64,
    /// Drawn by tests, and put back to the tank.
    pub adjusted: u64,
}

/// The site as ReadSite shows it.
#[derive(Clone, Copy, Debug, PartialEq, Eq)]
pub struct SiteView {
    /// The cents cleared in the open shift, over all tills.
    pub cents: u64,
    /// The number of the open shift.
    pub shift: ShiftNo,
}
