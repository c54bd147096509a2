//! The lock of a file.

use std::fs::{File, TryLockError};
use std::io;
use std::io::ErrorKind;

/// Locks a file for this process; `WouldBlock` if another process has locked it.
pub fn lock(file: &File) -> io::Result<()> {
    match file.try_lock() {
        Ok(()) => Ok(()),
        Err(TryLockError::WouldBlock) => Err(io::Error::from(ErrorKind::WouldBlock)),
        Err(TryLockError::Error(error)) => Err(error),
    }
}
