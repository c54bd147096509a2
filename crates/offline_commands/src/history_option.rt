//! The options that only the folder of a history takes.

ghost use Rattle.std.specs.Prelude.{◌≡◌, IfErr, OnErr, OnOk, false, true};
ghost use Rattle.std.specs.Process.{exit_status};
ghost use Rattle.program_io.specs.declared.exit.TheConstants.{COMMAND_LINE};

use program_io::{COMMAND_LINE, exit_with};
use std::process::ExitCode;

/// If this option is given, prints that it needs the folder of a history, and returns the exit
/// status.
pub fn refuse_option(rt: &impl Eprint, option: &str, is_given: bool) -> Result<(), ExitCode>
    ensures ok { OnOk result (is_given ≡ false) }
    ensures refused { OnErr result (is_given ≡ true) }
    ensures failed { IfErr result (λ status. exit_status status ≡ COMMAND_LINE) }
{
    if !is_given {
        return Ok(());
    }
    Err(exit_with(
        eprintln!(rt;
            "error: '--{option}' needs the folder of a history: see that there is one, and that \
             this user may enter it"
        ),
        COMMAND_LINE,
    ))
}
