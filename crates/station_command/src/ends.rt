//! How a station ends: what it prints on standard error after its day, and its exit status.

ghost use Rattle.std.specs.Prelude.{◌≡◌, IfErr, OnOk};
ghost use Rattle.std.specs.Process.{exit_status};
ghost use Rattle.day_base.specs.Ends.{day_status};

use day_base::{DayFault, exit_day};
use devices::WriteFault;
use program_io::{FAULT, exit_no_memory, exit_unwritten, exit_with};
use std::process::ExitCode;

/// How a station's day ended.
#[derive(Clone, Copy, Debug, PartialEq, Eq)]
pub struct DayEnd {
    pub end: Result<(), DayFault>,
    /// Is each row of the station stored?
    pub is_stored: bool,
}

/// Prints the fault with which a station's day ended, if there is one, and below it what to do. The
/// folder is that of its history, if it has one. Returns the exit status.
pub fn exit_station(rt: &impl Eprint, day: DayEnd, history: Option<&str>) -> ExitCode
    ensures done { OnOk day.end (exit_status result ≡ 0) }
    ensures fault { IfErr day.end (λ fault. exit_status result ≡ day_status fault) }
{
    match day.end {
        Err(DayFault::NoMemory) => exit_no_memory(rt),
        Err(DayFault::Write(WriteFault::Failed)) => exit_unwritten_day(rt, day.is_stored, history),
        end => exit_day(rt, end),
    }
}

/// Prints that a write of a station failed, and what to do, and returns `FAULT`.
fn exit_unwritten_day(rt: &impl Eprint, is_stored: bool, history: Option<&str>) -> ExitCode
    ensures { exit_status result ≡ FAULT }
{
    let Some(folder) = history else {
        return exit_unwritten(rt);
    };
    let printed = if is_stored {
        eprintln!(rt;
            "fault 62\n\
             each row is stored, but a seal in {folder}, or standard output, can't be written: see \
             whether a disk is full or fails, or the program that reads the output has ended; \
             forecourt report {folder} prints the report"
        )
    } else {
        eprintln!(rt;
            "fault 62\n\
             the history in {folder} can't be written: see whether its disk is full or fails, or \
             one of its files was changed, and start again; no peer was told what isn't stored"
        )
    };
    exit_with(printed, FAULT)
}
