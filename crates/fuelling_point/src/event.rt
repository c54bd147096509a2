//! What happens at a fuelling point.

use site_base::{Millilitres, Mills, NozzleNo, Preset};

/// One event at a fuelling point. The caller has checked who sent it, and that the meter agrees.
#[derive(Clone, Copy, Debug, PartialEq, Eq)]
pub enum PointEvent {
    /// The dispenser is reached.
    Online,
    /// The dispenser isn't reached any more.
    Offline,
    /// A till opens the point for sale.
    Open,
    /// A till closes the point.
    Close,
    /// A till takes the point.
    Assign,
    /// A till gives the point back.
    Unassign,
    /// A nozzle is taken out. If this starts the fuelling, it takes the price and the nozzle's last
    /// reading.
    Lift {
        nozzle: NozzleNo,
        last: Millilitres,
        price: Mills,
    },
    /// A till releases the point within this preset, which may be prepaid (in cents). If this
    /// starts the fuelling, it takes the price and the last reading of the nozzle that is out; they
    /// are used only in calling.
    Release {
        preset: Preset,
        prepaid: Option<u32>,
        last: Millilitres,
        price: Mills,
    },
    /// A till releases the point for a test: a fuelling without preset and prepayment whose fuel
    /// goes back to the tank. If this starts the test, it takes the price and the last reading of
    /// the nozzle that is out; they are used only in calling.
    TestRelease {
        last: Millilitres,
        price: Mills,
    },
    /// The meter of one of the nozzles is replaced. The point stays as it is.
    ReplaceMeter,
    /// A till suspends the fuelling.
    Suspend,
    /// A till continues the suspended fuelling.
    Resume,
    /// A till ends the release or the fuelling.
    Terminate,
    /// This much fuel (in millilitres) has flowed through this nozzle since the last report.
    Flow {
        nozzle: NozzleNo,
        growth: u64,
    },
    /// The nozzle is put back, and this much fuel (in millilitres) has flowed since the last
    /// report.
    HangUp {
        nozzle: NozzleNo,
        growth: u64,
    },
}
