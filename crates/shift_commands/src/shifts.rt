//! `forecourt shifts FOLDER [--json]`.

ghost use Rattle.std.specs.Prelude.{OnOk};
ghost use Rattle.history_folder.specs.Reading.{IsWhole};

use crate::printing::exit_printed;
use devices::ReadFault;
use forecourt_engines::ReplayFault;
use history_folder::FolderWalk;
use program_io::{exit_no_memory, exit_replay};
use row_tally::TimesReader;
use shift_table::{Form, shifts_text};
use site_base::NoMemory;
use std::process::ExitCode;
use std::rt::Files;

/// Prints the table of the shifts of the history in this folder, from shift 1 to the open one, as
/// text or as JSON.
pub fn run_shifts<R: Files + Print + Eprint + AllocGlobal>(
    rt: &R,
    folder: &str,
    json: bool,
) -> ExitCode {
    let form = if json { Form::Json } else { Form::Text };
    match print_shifts(rt, folder, form) {
        Ok(status) => status,
        Err(status) => status,
    }
}

/// Prints the table in this form.
fn print_shifts<R: Files + Print + Eprint + AllocGlobal>(
    rt: &R,
    folder: &str,
    form: Form,
) -> Result<ExitCode, ExitCode> {
    let mut walk = FolderWalk::open(rt, folder)?;
    let mut times = TimesReader::new(rt.alloc());
    read_times(rt, folder, &mut walk, &mut times)?;
    match shifts_text(rt.alloc(), walk.book(), &times, form) {
        Ok(text) => Ok(exit_printed(rt, text.as_str())),
        Err(NoMemory) => Err(exit_no_memory(rt)),
    }
}

/// Reads all rows, and when they opened and closed shifts.
fn read_times<R: Files + Eprint + AllocGlobal>(
    rt: &R,
    folder: &str,
    walk: &mut FolderWalk,
    times: &mut TimesReader,
) -> Result<(), ExitCode>
    ensures { OnOk result (IsWhole walk.new) }
{
    for _ in 0..u64::MAX {
        let Some(row) = walk.next(rt, folder)? else {
            return Ok(());
        };
        match times.read(&row, &walk.end().time()) {
            Ok(()) => {}
            Err(NoMemory) => return Err(exit_no_memory(rt)),
        }
    }
    // No history has so many rows.
    Err(exit_replay(rt, Some(ReplayFault::Read(ReadFault::TurnLimit))))
}
