//! Listeners, which give sessions their connections.

ghost use Rattle.std.specs.Prelude.{◌≡◌};

use std::alloc::Global;
use std::io::{Read, Write};
use thiserror::Error;

/// Why a listener gave no connection.
#[derive(Clone, Copy, Debug, PartialEq, Eq, Error)]
pub enum NoConnection {
    /// An allocation failed.
    #[error("out of memory")]
    NoMemory,
    /// The listener failed.
    #[error("the listener failed")]
    Failed,
}

/// A listener. It counts its failed calls, from 0 up to the greatest `u64`, where the count stays.
pub trait Accept {
    ghost use Rattle.std.specs.Prelude.{◌≡◌, ℕ, OnOk};
    ghost use Rattle.std.specs.Result.{IsErrOf};
    ghost use Rattle.devices.specs.Devices.{one_more};

    /// What a connection's octets are read from.
    type Reader: Read + Send + Sync + Drop;

    /// What a connection's replies are written to.
    type Writer: Write + Send + Sync + Drop;

    // The number of calls that failed.
    ghost failed: { Self → ℕ };

    /// Returns the next connection. It may wait for it.
    fn accept(&mut self, alloc: Global) -> Result<(Self::Reader, Self::Writer), NoConnection>
        ensures given { OnOk result (failed self.new ≡ failed self.old) }
        ensures no_memory { IsErrOf result NoConnection.NoMemory
            → failed self.new ≡ failed self.old }
        ensures failed { IsErrOf result NoConnection.Failed
            → failed self.new ≡ one_more (failed self.old) };

    /// Returns the number of failed calls.
    fn failures(&self) -> u64
        ensures { result ≡ failed self.now };
}
