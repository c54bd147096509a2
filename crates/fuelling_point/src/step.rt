//! What an accepted event does at a fuelling point.

use site_base::{Millilitres, Mills, NozzleNo, Preset};

/// What an accepted event does at its point. The values are those that the point had before it
/// forgot them.
#[derive(Clone, Copy, Debug, PartialEq, Eq)]
pub enum PointStep {
    /// The point takes its new state, or keeps its state. There is no more to tell.
    Moved,
    /// A nozzle is out, and the point calls for its release.
    Calling,
    /// The fuelling starts within this preset and at this price.
    Start {
        preset: Preset,
        price: Mills,
    },
    /// This much fuel (in millilitres) is added to the fuelling.
    Flowed {
        growth: u64,
    },
    /// The nozzle is back in; the point wasn't released.
    HungUp,
    /// The nozzle is back in; no fuel has flowed.
    NoSale,
    /// The fuelling is over: its nozzle, its volume, the price that it took, and the prepaid cents.
    Sold {
        nozzle: NozzleNo,
        volume: Millilitres,
        price: Mills,
        prepaid: Option<u32>,
    },
    /// The test is over: its nozzle, and the volume that it has drawn.
    Drawn {
        nozzle: NozzleNo,
        volume: Millilitres,
    },
    /// The release is taken back.
    Stopped,
    /// The fuelling is suspended for good, until it ends at hang up or offline.
    Ending,
}
