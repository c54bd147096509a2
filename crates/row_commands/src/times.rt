//! The span of time that a command is asked for.

ghost use Rattle.std.specs.Prelude.{◌≡◌, ◌⊎◌, IfOk, IsSome, None};

use program_io::{COMMAND_LINE, exit_no_memory, exit_with};
use stamps::{Stamp, TimeSpan, first_time, last_time};
use std::alloc::AllocError;
use std::process::ExitCode;

/// Reads the values of `--from` and `--to`. Without either, returns None. A date alone means its
/// first millisecond in `--from`, and its last in `--to`. If a value is wrong or memory runs out,
/// prints that and returns the exit status.
pub fn read_span<R: Eprint + AllocGlobal>(
    rt: &R,
    from: Option<&str>,
    to: Option<&str>,
) -> Result<Option<TimeSpan>, ExitCode>
    ensures none { from.entry ≡ None → to.entry ≡ None → IfOk result (λ span. span ≡ None) }
    ensures some { IsSome from.entry ⊎ IsSome to.entry → IfOk result (λ span. IsSome span) }
{
    if from.is_none() && to.is_none() {
        return Ok(None);
    }
    let from = match from {
        Some(typed) => Some(read_time(rt, "--from", typed, first_time(rt.alloc(), typed))?),
        None => None,
    };
    let to = match to {
        Some(typed) => Some(read_time(rt, "--to", typed, last_time(rt.alloc(), typed))?),
        None => None,
    };
    Ok(Some(TimeSpan { from, to }))
}

/// The time that the value of this option says; or how the program ends where it says none.
fn read_time<R: Eprint + AllocGlobal>(
    rt: &R,
    option: &str,
    typed: &str,
    time: Result<Option<Stamp>, AllocError>,
) -> Result<Stamp, ExitCode> {
    match time {
        Ok(Some(time)) => Ok(time),
        Ok(None) => Err(exit_with(
            eprintln!(rt;
                "error: '{option} {typed}' says no time: give a date, as 2026-11-27, or a date \
                 and a time, as 2026-11-27T08:00Z"
            ),
            COMMAND_LINE,
        )),
        Err(AllocError) => Err(exit_no_memory(rt)),
    }
}
