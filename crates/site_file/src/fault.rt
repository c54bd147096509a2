//! What is wrong with a site file.

ghost use Rattle.std.specs.Prelude.{◌≡◌};

use crate::key::Key;
use crate::printable::PrintedKey;
use site_base::NoMemory;
use std::alloc::{AllocError, AllocFailed};
use std::fmt;
use thiserror::Error;

/// What is wrong with a site file: its first fault, in the order of the site file's table. It is
/// printed with its number, and with its key if it has one: `fault 72 product`.
#[derive(Debug, Drop, Error)]
pub enum ConfigFault {
    /// An allocation failed. It is returned only if that happened in the call itself.
    NoMemory,
    /// The octets aren't UTF-8, or aren't TOML.
    NotToml,
    /// A table has a key that no such table has: the least one, by its octets.
    UnknownKey(PrintedKey),
    /// A table doesn't have a key that each such table has.
    MissingKey(Key),
    /// A value, or a member of a list, isn't of its kind (whole number, text, list or table).
    WrongKind(Key),
    /// A value is out of its range, or a list has too few or too many members.
    OutOfRange(Key),
    /// A manager, a product's number or name, or a point's number is in the file twice.
    Repeated(Key),
    /// A nozzle's product is not the number of a product of the file.
    UnknownProduct,
}

impl fmt::Display for ConfigFault {
    ghost use Rattle.std.specs.Prelude.{Some};
    ghost use Rattle.site_file.specs.Faults.{fault_text};

    ghost output = { λ fault. Some (fault_text fault) };

    fn fmt<W: fmt::Write>(&self, f: &mut fmt::Formatter<W>) -> fmt::Result {
        match self {
            ConfigFault::NoMemory => f.write_str("fault 31"),
            ConfigFault::NotToml => f.write_str("fault 70"),
            ConfigFault::UnknownKey(key) => write!(f, "fault 71 {key}"),
            ConfigFault::MissingKey(key) => write!(f, "fault 72 {key}"),
            ConfigFault::WrongKind(key) => write!(f, "fault 73 {key}"),
            ConfigFault::OutOfRange(key) => write!(f, "fault 74 {key}"),
            ConfigFault::Repeated(key) => write!(f, "fault 75 {key}"),
            ConfigFault::UnknownProduct => f.write_str("fault 76"),
        }
    }
}

ghost use Rattle.site_file.specs.declared.fault.ConfigFault.TheVariants.{NoMemory as no_memory};

impl From<NoMemory> for ConfigFault {
    ghost from_gives = { λ _ f. f ≡ no_memory };

    fn from(_e: NoMemory) -> ConfigFault {
        ConfigFault::NoMemory
    }
}

impl From<AllocError> for ConfigFault {
    ghost from_gives = { λ _ f. f ≡ no_memory };

    fn from(_e: AllocError) -> ConfigFault {
        ConfigFault::NoMemory
    }
}

impl<T: Drop> From<AllocFailed<T>> for ConfigFault {
    ghost from_gives = { λ _ f. f ≡ no_memory };

    fn from(_e: AllocFailed<T>) -> ConfigFault {
        ConfigFault::NoMemory
    }
}
