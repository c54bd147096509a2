//! Why the chapters of a folder can't be counted.

ghost use Rattle.std.specs.Prelude.{◌≡◌, ◌≢◌};
ghost use Rattle.std.specs.IoError.{error_kind};

use std::alloc::{AllocError, AllocFailed};
use std::io;
use std::io::ErrorKind;
use thiserror::Error;

/// Why the chapters of a folder can't be counted.
#[derive(Debug, Drop, Error)]
pub enum FolderFault {
    /// An allocation failed.
    #[error("fault 31")]
    NoMemory,
    /// The folder can't be listed.
    #[error("cannot read the folder: {0}")]
    Unread(io::Error),
    /// There is no chapter of this number, but there is one of a greater number.
    #[error("chapter {0} is missing")]
    Missing(u64),
}

impl From<AllocError> for FolderFault {
    ghost use Rattle.std.specs.Prelude.{◌≡◌};
    ghost use Rattle.history_folder.specs.declared.fault.FolderFault.{FolderFault};

    ghost from_gives = { λ _ e. e ≡ FolderFault.NoMemory };

    fn from(_e: AllocError) -> FolderFault {
        FolderFault::NoMemory
    }
}

impl<T: Drop> From<AllocFailed<T>> for FolderFault {
    ghost use Rattle.std.specs.Prelude.{◌≡◌};
    ghost use Rattle.history_folder.specs.declared.fault.FolderFault.{FolderFault};

    ghost from_gives = { λ _ e. e ≡ FolderFault.NoMemory };

    fn from(_e: AllocFailed<T>) -> FolderFault {
        FolderFault::NoMemory
    }
}

/// The fault of a folder that isn't listed.
pub(crate) fn fault_of(error: io::Error) -> FolderFault
    ensures memory { error_kind error ≡ ErrorKind.OutOfMemory → result ≡ FolderFault.NoMemory }
    ensures unread { error_kind error ≢ ErrorKind.OutOfMemory
        → result ≡ FolderFault.Unread error }
{
    if error.kind() == ErrorKind::OutOfMemory {
        FolderFault::NoMemory
    } else {
        FolderFault::Unread(error)
    }
}
