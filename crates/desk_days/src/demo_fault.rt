//! Why a demo ends unsettled.

use counter_desk::{Naming, SettleFault, Unsettled};
use day_base::DayFault;
use site_base::NoMemory;
use std::sync::ledger::Ledger;
use thiserror::Error;

/// Why a demo isn't settled. A single worker's fault ends only its own work, unless the worker
/// couldn't be started or connected.
#[derive(Clone, Copy, Debug, PartialEq, Eq, Error)]
pub enum DemoFault {
    /// An allocation failed.
    #[error("fault 31")]
    NoMemory,
    /// It isn't settled: the receipt of this place is strange, or a share is out, and this is the
    /// number of rows.
    #[error("unsettled 60 place {0}")]
    Unsettled(u64),
    /// It can't listen, or a connection couldn't be made.
    #[error("fault 63")]
    NoConnection,
    /// A worker couldn't be started.
    #[error("fault 64")]
    NoWorker,
}

impl From<NoMemory> for DemoFault {
    ghost use Rattle.std.specs.Prelude.{◌≡◌};
    ghost use Rattle.desk_days.specs.declared.demo_fault.DemoFault.{DemoFault};

    ghost from_gives = { λ _ e. e ≡ DemoFault.NoMemory };

    fn from(_e: NoMemory) -> DemoFault {
        DemoFault::NoMemory
    }
}

impl<L: Ledger, C: Naming> From<Unsettled<L, C>> for DemoFault {
    ghost use Rattle.std.specs.Prelude.{◌≡◌};
    ghost use Rattle.desk_days.specs.Faults.{demo_unsettled_by};

    ghost from_gives = { λ unsettled e. e ≡ demo_unsettled_by unsettled.fault };

    fn from(unsettled: Unsettled<L, C>) -> DemoFault {
        match unsettled.fault {
            SettleFault::StrangeReceipt(place) => DemoFault::Unsettled(place),
            SettleFault::NoMemory => DemoFault::NoMemory,
        }
    }
}

/// A day that tells a demo's fault.
impl From<DemoFault> for DayFault {
    ghost use Rattle.std.specs.Prelude.{◌≡◌};
    ghost use Rattle.desk_days.specs.Faults.{day_fault_of};

    ghost from_gives = { λ fault e. e ≡ day_fault_of fault };

    fn from(fault: DemoFault) -> DayFault {
        match fault {
            DemoFault::NoMemory => DayFault::NoMemory,
            DemoFault::Unsettled(place) => DayFault::Unsettled(place),
            DemoFault::NoConnection => DayFault::NoConnection,
            DemoFault::NoWorker => DayFault::NoWorker,
        }
    }
}
