//! One call of a connection.

ghost use Rattle.std.specs.Prelude.{◌≡◌};
ghost use Rattle.std.specs.IoError.{error_kind};
ghost use Rattle.connection_calls.specs.Stops.{IsStop, call_of};

use mio::Interest;
use std::io::{self, ErrorKind};

/// What became of a call.
#[derive(Clone, Copy, Debug, PartialEq, Eq)]
pub enum Call {
    /// This number of octets passed.
    Passed(usize),
    /// It was interrupted, and may be made again.
    Interrupted,
    /// No octet can pass for now.
    Waits,
    /// The peer sends no more.
    Ended,
    /// The connection failed.
    Failed,
}

impl Call {
    /// Returns what became of a call that passed no octet, and ended with this error.
    pub fn of_error(error: &io::Error) -> Call
        ensures kind { result ≡ call_of (error_kind error.now) }
        ensures stops { IsStop result }
    {
        match error.kind() {
            ErrorKind::WouldBlock => Call::Waits,
            ErrorKind::Interrupted => Call::Interrupted,
            _ => Call::Failed,
        }
    }
}

/// Returns the interest of a connection that is both read and written.
pub fn both_ways() -> Interest {
    Interest::READABLE | Interest::WRITABLE
}
