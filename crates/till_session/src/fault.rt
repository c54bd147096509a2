//! Why a session ends, before or at the end of its peer's octets.

ghost use Rattle.std.specs.Prelude.{◌≡◌};
ghost use Rattle.till_session.specs.Ends.{session_number};

use devices::{ReadFault, WriteFault};
use peer_talk::TalkFault;
use site_base::NoMemory;
use thiserror::Error;

/// Why a session ended.
#[derive(Clone, Copy, Debug, PartialEq, Eq, Error)]
pub enum SessionFault {
    /// An allocation failed.
    #[error("out of memory")]
    NoMemory,
    /// The reader gave no more.
    #[error("{0}")]
    Read(ReadFault),
    /// The writer took no more.
    #[error("{0}")]
    Write(WriteFault),
    /// There was no connection to serve.
    #[error("no connection")]
    Accept,
    /// The text ended with this fault.
    #[error("{0}")]
    Talk(TalkFault),
}

impl SessionFault {
    /// Returns its number: 31, 40 to 44, 57, 59, 61, 62 or 63.
    pub fn number(self) -> u8
        ensures { result ≡ session_number self }
    {
        match self {
            SessionFault::NoMemory => 31,
            SessionFault::Read(fault) => fault.number(),
            SessionFault::Write(fault) => fault.number(),
            SessionFault::Accept => 63,
            SessionFault::Talk(fault) => fault.number(),
        }
    }
}

impl From<NoMemory> for SessionFault {
    ghost use Rattle.std.specs.Prelude.{◌≡◌};
    ghost use Rattle.till_session.specs.declared.fault.SessionFault.{SessionFault};

    ghost from_gives = { λ _ e. e ≡ SessionFault.NoMemory };

    fn from(_e: NoMemory) -> SessionFault {
        SessionFault::NoMemory
    }
}

impl From<ReadFault> for SessionFault {
    ghost use Rattle.std.specs.Prelude.{◌≡◌};
    ghost use Rattle.till_session.specs.declared.fault.SessionFault.{SessionFault};

    ghost from_gives = { λ f e. e ≡ SessionFault.Read f };

    fn from(fault: ReadFault) -> SessionFault {
        SessionFault::Read(fault)
    }
}

impl From<WriteFault> for SessionFault {
    ghost use Rattle.std.specs.Prelude.{◌≡◌};
    ghost use Rattle.till_session.specs.declared.fault.SessionFault.{SessionFault};

    ghost from_gives = { λ f e. e ≡ SessionFault.Write f };

    fn from(fault: WriteFault) -> SessionFault {
        SessionFault::Write(fault)
    }
}
