//! Why a history's folder can't be used.

ghost use Rattle.std.specs.Prelude.{◌≡◌, ◌≢◌, ℕ};
ghost use Rattle.std.specs.IoError.{error_kind};
ghost use Rattle.history_files.specs.Opening.{IoError};

use history_folder::FolderFault;
use journal::DiskFault;
use site_base::NoMemory;
use std::alloc::AllocError;
use std::io;
use std::io::ErrorKind;
use thiserror::Error;

/// Why a history's folder can't be used.
#[derive(Debug, Drop, Error)]
pub enum FileFault {
    /// An allocation failed.
    #[error("out of memory")]
    NoMemory,
    /// The folder or a file in it can't be opened, for this reason.
    #[error("it can't be read: {0}")]
    Unread(io::Error),
    /// What has the name of the file is something else: a folder, a pipe or a device. Where the file
    /// is opened for writing, a link is something else, too.
    #[error("it is no regular file")]
    NoFile,
    /// What has the name of its lock is something else, or a link.
    #[error("its lock is no regular file")]
    NoLock,
    /// What has the name of its last chapter is something else, or a link.
    #[error("its last chapter is no regular file")]
    NoChapter,
    /// It can't be written, since something else has its name or that of its copy.
    #[error("something else has its name, or that of its copy")]
    Blocked,
    /// The folder isn't there and can't be made, for this reason.
    #[error("it can't be made: {0}")]
    Unmade(io::Error),
    /// Another process has it, or this process prints into one of its files.
    #[error("it is in use")]
    InUse,
    /// This process prints its faults into one of its files. So this fault isn't printed.
    #[error("it is in use, for faults")]
    Untold,
    /// It can't be made and flushed.
    #[error("it can't be written: {0}")]
    Unwritten(io::Error),
    /// There is no chapter of this number, but there is one of a greater number.
    #[error("chapter {0} is missing")]
    Missing(u64),
}

impl From<AllocError> for FileFault {
    ghost use Rattle.std.specs.Prelude.{◌≡◌};
    ghost use Rattle.history_files.specs.declared.fault.FileFault.{FileFault};

    ghost from_gives = { λ _ e. e ≡ FileFault.NoMemory };

    fn from(_e: AllocError) -> FileFault {
        FileFault::NoMemory
    }
}

impl From<NoMemory> for FileFault {
    ghost use Rattle.std.specs.Prelude.{◌≡◌};
    ghost use Rattle.history_files.specs.declared.fault.FileFault.{FileFault};

    ghost from_gives = { λ _ e. e ≡ FileFault.NoMemory };

    fn from(_e: NoMemory) -> FileFault {
        FileFault::NoMemory
    }
}

/// Returns the fault of a folder whose chapters can't be counted.
pub fn fault_of_folder(fault: FolderFault) -> FileFault
    ensures missing { (k : ℕ) → fault ≡ FolderFault.Missing k → result ≡ FileFault.Missing k }
    ensures memory { fault ≡ FolderFault.NoMemory → result ≡ FileFault.NoMemory }
    ensures unread { (error : IoError) → fault ≡ FolderFault.Unread error
        → result ≡ FileFault.Unread error }
{
    match fault {
        FolderFault::NoMemory => FileFault::NoMemory,
        FolderFault::Unread(error) => FileFault::Unread(error),
        FolderFault::Missing(number) => FileFault::Missing(number),
    }
}

/// Returns the fault of a file that can't be opened.
pub fn fault_of(error: io::Error) -> FileFault
    ensures memory { error_kind error ≡ ErrorKind.OutOfMemory → result ≡ FileFault.NoMemory }
    ensures unread { error_kind error ≢ ErrorKind.OutOfMemory → result ≡ FileFault.Unread error }
{
    if error.kind() == ErrorKind::OutOfMemory {
        FileFault::NoMemory
    } else {
        FileFault::Unread(error)
    }
}

/// Returns the fault of a folder that can't be made.
pub fn fault_of_making(error: io::Error) -> FileFault
    ensures memory { error_kind error ≡ ErrorKind.OutOfMemory → result ≡ FileFault.NoMemory }
    ensures unmade { error_kind error ≢ ErrorKind.OutOfMemory → result ≡ FileFault.Unmade error }
{
    if error.kind() == ErrorKind::OutOfMemory {
        FileFault::NoMemory
    } else {
        FileFault::Unmade(error)
    }
}

/// Returns the fault of a file that can't be made and flushed.
pub fn fault_of_write(error: io::Error) -> FileFault
    ensures memory { error_kind error ≡ ErrorKind.OutOfMemory → result ≡ FileFault.NoMemory }
    ensures unwritten { error_kind error ≢ ErrorKind.OutOfMemory
        → result ≡ FileFault.Unwritten error }
{
    if error.kind() == ErrorKind::OutOfMemory {
        FileFault::NoMemory
    } else {
        FileFault::Unwritten(error)
    }
}

/// Returns the fault of a disk whose call failed with this error.
pub fn disk_fault_of(error: &io::Error) -> DiskFault
    ensures memory { error_kind error.now ≡ ErrorKind.OutOfMemory → result ≡ DiskFault.NoMemory }
    ensures failed { error_kind error.now ≢ ErrorKind.OutOfMemory → result ≡ DiskFault.Failed }
{
    if error.kind() == ErrorKind::OutOfMemory {
        DiskFault::NoMemory
    } else {
        DiskFault::Failed
    }
}
