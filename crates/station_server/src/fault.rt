//! Why a server ends before its day does.

use journal::DiskFault;
use site_base::NoMemory;
use std::io;
use thiserror::Error;

/// Why a server can't begin, or ends before its day does.
#[derive(Clone, Copy, Debug, PartialEq, Eq, Error)]
pub enum ServerFault {
    /// An allocation failed.
    #[error("out of memory")]
    NoMemory,
    /// It can't wait for connections, at a door or at all.
    #[error("no connections")]
    NoConnection,
    /// It can't listen on this port of 127.0.0.1.
    #[error("no connections on port {0}")]
    Deaf(u16),
    /// The journal takes no more.
    #[error("the journal takes no more")]
    NotStored,
}

impl ServerFault {
    /// It can't listen on this port; where it is 0, on no free one.
    pub(crate) fn of_port(port: u16) -> ServerFault {
        if port == 0 {
            ServerFault::NoConnection
        } else {
            ServerFault::Deaf(port)
        }
    }
}

impl From<io::Error> for ServerFault {
    ghost use Rattle.std.specs.Prelude.{◌≡◌};
    ghost use Rattle.station_server.specs.declared.fault.ServerFault.{ServerFault};

    ghost from_gives = { λ _ e. e ≡ ServerFault.NoConnection };

    fn from(_e: io::Error) -> ServerFault {
        ServerFault::NoConnection
    }
}

impl From<NoMemory> for ServerFault {
    ghost use Rattle.std.specs.Prelude.{◌≡◌};
    ghost use Rattle.station_server.specs.declared.fault.ServerFault.{ServerFault};

    ghost from_gives = { λ _ e. e ≡ ServerFault.NoMemory };

    fn from(_e: NoMemory) -> ServerFault {
        ServerFault::NoMemory
    }
}

impl From<DiskFault> for ServerFault {
    ghost use Rattle.std.specs.Prelude.{◌≡◌};
    ghost use Rattle.station_server.specs.Faults.{not_stored};

    ghost from_gives = { λ f e. e ≡ not_stored f };

    fn from(fault: DiskFault) -> ServerFault {
        match fault {
            DiskFault::NoMemory => ServerFault::NoMemory,
            DiskFault::Failed => ServerFault::NotStored,
        }
    }
}
