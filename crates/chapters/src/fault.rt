//! Why a history can't be read.

use site_base::NoMemory;
use thiserror::Error;

/// Why a history can't be read.
#[derive(Clone, Copy, Debug, PartialEq, Eq, Error)]
pub enum HistoryFault {
    /// An allocation failed.
    #[error("out of memory")]
    NoMemory,
    /// In the chapter of the first number, the line of the second number is wrong: a first line
    /// isn't that of this chapter, no kept row can be made of a line, or a seal is wrong. Both are
    /// counted from 1.
    #[error("chapter {0} line {1}")]
    Line(u64, u64),
    /// The chapter of the first number doesn't continue the chapter before it, which has the second
    /// number: that one doesn't end with a seal, or this one's third line doesn't name its last
    /// seal.
    #[error("chapter {0} doesn't go on from chapter {1}")]
    NotAfter(u64, u64),
}

impl From<NoMemory> for HistoryFault {
    ghost use Rattle.std.specs.Prelude.{◌≡◌};
    ghost use Rattle.chapters.specs.declared.fault.HistoryFault.{HistoryFault};

    ghost from_gives = { λ _ e. e ≡ HistoryFault.NoMemory };

    fn from(_e: NoMemory) -> HistoryFault {
        HistoryFault::NoMemory
    }
}
