//! Why a table wasn't written completely.

use devices::WriteFault;
use site_base::NoMemory;
use thiserror::Error;

/// Why a table wasn't written completely.
#[derive(Clone, Copy, Debug, PartialEq, Eq, Error)]
pub enum TableFault {
    /// An allocation failed.
    #[error("out of memory")]
    NoMemory,
    /// The output took no more.
    #[error("{0}")]
    Write(WriteFault),
}

impl From<NoMemory> for TableFault {
    ghost use Rattle.std.specs.Prelude.{◌≡◌};
    ghost use Rattle.sales_table.specs.declared.fault.TableFault.{TableFault};

    ghost from_gives = { λ _ e. e ≡ TableFault.NoMemory };

    fn from(_e: NoMemory) -> TableFault {
        TableFault::NoMemory
    }
}

impl From<WriteFault> for TableFault {
    ghost use Rattle.std.specs.Prelude.{◌≡◌};
    ghost use Rattle.sales_table.specs.declared.fault.TableFault.{TableFault};

    ghost from_gives = { λ fault e. e ≡ TableFault.Write fault };

    fn from(fault: WriteFault) -> TableFault {
        TableFault::Write(fault)
    }
}
