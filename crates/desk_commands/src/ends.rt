//! How the program ends after a day of `serve` or `demo`.

ghost use Rattle.std.specs.Prelude.{◌≡◌, IfErr, OnOk};
ghost use Rattle.std.specs.Process.{exit_status};
ghost use Rattle.day_base.specs.Ends.{day_status};

use day_base::{DayFault, exit_day};
use devices::WriteFault;
use program_io::{exit_no_memory, exit_unwritten};
use std::process::ExitCode;

/// Prints the fault with which a day ended, if there is one, and below it what to do. Returns the
/// exit status.
pub(crate) fn exit_desk<E: Drop>(rt: &impl Eprint, end: Result<E, DayFault>) -> ExitCode
    ensures done { OnOk end (exit_status result ≡ 0) }
    ensures fault { IfErr end (λ fault. exit_status result ≡ day_status fault) }
{
    match end {
        Err(DayFault::NoMemory) => exit_no_memory(rt),
        Err(DayFault::Write(WriteFault::Failed)) => exit_unwritten(rt),
        end => exit_day(rt, end),
    }
}
