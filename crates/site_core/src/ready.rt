//! An event that has passed its checks.

use crate::points::FoundPoint;
use fuelling_point::PointEvent;
use site_base::{Answer, Millilitres, Mills, NozzleNo, ProductNo, TillNo};
use transaction_buffer::{FoundSale, Request};

/// An event that has passed its checks, with everything that was found on the way and that
/// performing it needs.
#[derive(Clone, Copy, Debug)]
pub enum Ready {
    /// This is the answer, and nothing changes.
    Tell(Answer),
    /// The till signs on.
    SignOn(TillNo),
    /// The till signs off.
    SignOff(TillNo),
    /// The point does this, and nothing else changes.
    Command {
        point: FoundPoint,
        event: PointEvent,
    },
    /// The point does this, and the till takes its hold.
    Take {
        point: FoundPoint,
        event: PointEvent,
        till: TillNo,
    },
    /// The hold of the point is given back.
    GiveBack(FoundPoint),
    /// The release of the point, or its fuelling, is terminated.
    Terminate(FoundPoint),
    /// A nozzle of the point is taken out, and the point does this.
    Lift {
        point: FoundPoint,
        event: PointEvent,
    },
    /// Fuel has flowed through this nozzle of the point: the growth, and what its meter reads.
    Flow {
        point: FoundPoint,
        nozzle: NozzleNo,
        reading: Millilitres,
        growth: u64,
    },
    /// This nozzle of the point is put back: what its meter reads, and how much fuel has flowed.
    HangUp {
        point: FoundPoint,
        nozzle: NozzleNo,
        reading: Millilitres,
        growth: u64,
    },
    /// The point isn't reached any more.
    Offline(FoundPoint),
    /// The meter of this nozzle of the point is replaced by one that begins with this reading.
    ReplaceMeter {
        point: FoundPoint,
        nozzle: NozzleNo,
        reading: Millilitres,
    },
    /// The till asks this of a transaction.
    Ask {
        sale: FoundSale,
        request: Request,
        till: TillNo,
    },
    /// The product gets this price.
    SetPrice(ProductNo, Mills),
    /// The open shift is closed.
    CloseShift,
}
