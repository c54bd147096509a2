//! How the program ends after a day.

ghost use Rattle.std.specs.Prelude.{◌≡◌, IfErr, OnOk};
ghost use Rattle.std.specs.Process.{exit_status};
ghost use Rattle.day_base.specs.Ends.{day_status};

use crate::fault::DayFault;
use std::process::ExitCode;

/// Prints the fault with which a day ended, if there is one, and returns the exit status.
pub fn exit_day<E: Drop>(rt: &impl Eprint, end: Result<E, DayFault>) -> ExitCode
    ensures done { OnOk end (exit_status result ≡ 0) }
    ensures fault { IfErr end (λ fault. exit_status result ≡ day_status fault) }
{
    match end {
        Ok(_) => ExitCode::SUCCESS,
        Err(fault) => {
            let _ = eprintln!(rt; "{fault}");
            ExitCode::from(fault.exit_status())
        }
    }
}
