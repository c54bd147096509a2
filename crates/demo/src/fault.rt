//! Why a text isn't a script.

ghost use Rattle.std.specs.Prelude.{◌≡◌};

use site_base::NoMemory;
use thiserror::Error;

/// Why a script can't be read.
#[derive(Clone, Copy, Debug, PartialEq, Eq, Error)]
pub enum ScriptFault {
    /// The line of this number, counted from 1, is the first faulty one. If the text has no section
    /// and no faulty line, it is the last line's number, or 0 if there is no line.
    #[error("script line {0}")]
    Line(u64),
    /// An allocation failed.
    #[error("fault 31")]
    NoMemory,
}

impl From<NoMemory> for ScriptFault {
    ghost use Rattle.demo.specs.declared.fault.ScriptFault.{ScriptFault};

    ghost from_gives = { λ _ fault. fault ≡ ScriptFault.NoMemory };

    fn from(_: NoMemory) -> ScriptFault {
        ScriptFault::NoMemory
    }
}
