//! Why a replay ends before its input does, or after it.

ghost use Rattle.std.specs.Prelude.{◌≡◌};
ghost use Rattle.forecourt_engines.specs.Ends.{exit_status};

use app_message::GrammarFault;
use devices::{ReadFault, WriteFault};
use site_base::NoMemory;
use thiserror::Error;

/// The fault with which the text of a replay ends. Lines are counted from 1.
#[derive(Clone, Copy, Debug, PartialEq, Eq, Error)]
pub enum TextFault {
    /// The octets of the lines have a fault. Its refusal is the last line of the text.
    #[error("fault {}", .0.number())]
    Stream(GrammarFault),
    /// A line isn't an even number of hexadecimal digits.
    #[error("line {0}: not hexadecimal")]
    NotHexadecimal(u64),
    /// A line has more octets than a line may have.
    #[error("line {0}: too long")]
    TooLong(u64),
    /// The octets of the lines end inside a message.
    #[error("fault 44")]
    Truncated,
}

/// Why a replay ended.
#[derive(Clone, Copy, Debug, PartialEq, Eq, Error)]
pub enum ReplayFault {
    /// An allocation failed.
    #[error("fault 31")]
    NoMemory,
    /// The input gave no more.
    #[error("fault {}", .0.number())]
    Read(ReadFault),
    /// The output took no more.
    #[error("fault {}", .0.number())]
    Write(WriteFault),
    /// The text ended with this fault.
    #[error(transparent)]
    Text(TextFault),
}

impl ReplayFault {
    /// Returns the exit status of a program that ends with this fault: 4 if memory ran out,
    /// otherwise 1.
    pub fn exit_status(self) -> u8
        ensures { result ≡ exit_status self }
    {
        match self {
            ReplayFault::NoMemory => 4,
            _ => 1,
        }
    }
}

impl From<NoMemory> for ReplayFault {
    ghost use Rattle.std.specs.Prelude.{◌≡◌};
    ghost use Rattle.forecourt_engines.specs.declared.fault.ReplayFault.{ReplayFault};

    ghost from_gives = { λ _ e. e ≡ ReplayFault.NoMemory };

    fn from(_e: NoMemory) -> ReplayFault {
        ReplayFault::NoMemory
    }
}

impl From<ReadFault> for ReplayFault {
    ghost use Rattle.std.specs.Prelude.{◌≡◌};
    ghost use Rattle.forecourt_engines.specs.declared.fault.ReplayFault.{ReplayFault};

    ghost from_gives = { λ f e. e ≡ ReplayFault.Read f };

    fn from(fault: ReadFault) -> ReplayFault {
        ReplayFault::Read(fault)
    }
}

impl From<WriteFault> for ReplayFault {
    ghost use Rattle.std.specs.Prelude.{◌≡◌};
    ghost use Rattle.forecourt_engines.specs.declared.fault.ReplayFault.{ReplayFault};

    ghost from_gives = { λ f e. e ≡ ReplayFault.Write f };

    fn from(fault: WriteFault) -> ReplayFault {
        ReplayFault::Write(fault)
    }
}
