//! Why a day ends with a fault.

ghost use Rattle.std.specs.Prelude.{◌≡◌};
ghost use Rattle.day_base.specs.Ends.{day_status};

use counter_desk::{Naming, SettleFault, Unsettled};
use devices::WriteFault;
use site_base::NoMemory;
use std::sync::ledger::Ledger;
use thiserror::Error;

/// Why a day of a server, of a demo or of a station ends with a fault. A session's fault ends only
/// that session, and a worker's fault only its own work.
#[derive(Clone, Copy, Debug, PartialEq, Eq, Error)]
pub enum DayFault {
    /// An allocation failed.
    #[error("fault 31")]
    NoMemory,
    /// It can't wait for connections, at a door or at all, or one couldn't be made.
    #[error("fault 63\ncannot wait for connections, or make one: raise the limit of open files (ulimit -n)")]
    NoConnection,
    /// It can't listen on this port of 127.0.0.1.
    #[error("fault 63\ncannot listen on port {0}: another program has it (see ss -ltnp), this user may not, or too few files may be open (ulimit -n)")]
    Deaf(u16),
    /// A worker, or the thread that waits for a station's input, couldn't be started.
    #[error("fault 64\ncannot start a thread: raise the limit of address space (ulimit -v), or of processes (ulimit -u)")]
    NoWorker,
    /// A write of the day's text, or of its journal, failed, or was interrupted too often.
    #[error("fault {}", .0.number())]
    Write(WriteFault),
    /// The day isn't settled: the receipt of this place is strange, or a share is out, and this is
    /// the number of rows.
    #[error("unsettled 60 place {0}")]
    Unsettled(u64),
}

impl DayFault {
    /// Returns the fault that it can't listen on this port of 127.0.0.1; for port 0, on no free
    /// one.
    pub fn of_port(port: u16) -> DayFault {
        if port == 0 {
            DayFault::NoConnection
        } else {
            DayFault::Deaf(port)
        }
    }

    /// Returns the exit status of a program that ends with this fault: 3 if the day isn't settled,
    /// 4 if memory ran out, otherwise 1.
    pub fn exit_status(self) -> u8
        ensures { result ≡ day_status self }
    {
        match self {
            DayFault::NoMemory => 4,
            DayFault::Unsettled(_) => 3,
            DayFault::NoConnection => 1,
            DayFault::Deaf(_) => 1,
            DayFault::NoWorker => 1,
            DayFault::Write(_) => 1,
        }
    }
}

impl From<NoMemory> for DayFault {
    ghost use Rattle.std.specs.Prelude.{◌≡◌};
    ghost use Rattle.day_base.specs.declared.fault.DayFault.{DayFault};

    ghost from_gives = { λ _ e. e ≡ DayFault.NoMemory };

    fn from(_e: NoMemory) -> DayFault {
        DayFault::NoMemory
    }
}

impl From<WriteFault> for DayFault {
    ghost use Rattle.std.specs.Prelude.{◌≡◌};
    ghost use Rattle.day_base.specs.declared.fault.DayFault.{DayFault};

    ghost from_gives = { λ f e. e ≡ DayFault.Write f };

    fn from(fault: WriteFault) -> DayFault {
        DayFault::Write(fault)
    }
}

impl From<SettleFault> for DayFault {
    ghost use Rattle.std.specs.Prelude.{◌≡◌};
    ghost use Rattle.day_base.specs.Ends.{unsettled_by};

    ghost from_gives = { λ f e. e ≡ unsettled_by f };

    fn from(fault: SettleFault) -> DayFault {
        match fault {
            SettleFault::StrangeReceipt(place) => DayFault::Unsettled(place),
            SettleFault::NoMemory => DayFault::NoMemory,
        }
    }
}

impl<L: Ledger, C: Naming> From<Unsettled<L, C>> for DayFault {
    ghost use Rattle.std.specs.Prelude.{◌≡◌};
    ghost use Rattle.day_base.specs.Ends.{unsettled_by};

    ghost from_gives = { λ unsettled e. e ≡ unsettled_by unsettled.fault };

    fn from(unsettled: Unsettled<L, C>) -> DayFault {
        DayFault::from(unsettled.fault)
    }
}
