//! The rows that a command is asked for.

ghost use Rattle.std.specs.Prelude.{◌≡◌, ◌≤◌, ◌<◌, IfErr, OnErr, OnOk};
ghost use Rattle.std.specs.Process.{exit_status};
ghost use Rattle.program_io.specs.declared.exit.TheConstants.{COMMAND_LINE, FAULT};

use crate::options::{check_shifts, is_asked, read_shifts};
use forecourt_engines::number::number_of;
use past_rows::ShiftRange;
use program_io::{COMMAND_LINE, FAULT, exit_with};
use site_base::ShiftNo;
use std::process::ExitCode;

/// The rows of a history that are printed.
#[derive(Clone, Copy, Debug, PartialEq, Eq)]
pub struct AskedRows {
    /// Rows of these shifts only; None for all shifts.
    pub shifts: Option<ShiftRange>,
    /// Rows from this number on.
    pub from: u64,
}

impl AskedRows {
    /// Reads the values of `--shift` and `--from`. Without them all rows are asked for. If a value
    /// is wrong, prints that and returns the exit status.
    pub fn read(
        rt: &impl Eprint,
        shift: Option<&str>,
        from: Option<&str>,
    ) -> Result<AskedRows, ExitCode>
        ensures { IfErr result (λ status. exit_status status ≡ COMMAND_LINE) }
    {
        let shifts = read_shifts(rt, shift)?;
        let from = read_from(rt, from)?;
        Ok(AskedRows { shifts, from })
    }

    /// Is the row of this number asked for? `shift` is the shift that was open before it.
    pub fn has(&self, number: u64, shift: ShiftNo) -> bool {
        self.from <= number && is_asked(&self.shifts, shift)
    }

    /// Checks that the history has such rows. `rows` is the number of its rows, `open_shift` its
    /// open shift. The next row may be the first one that is asked for. If the history doesn't
    /// reach so far yet, prints that and returns the exit status.
    pub fn check(&self, rt: &impl Eprint, rows: u64, open_shift: ShiftNo) -> Result<(), ExitCode>
        ensures there { OnOk result (self.now.from ≤ rows) }
        ensures failed { IfErr result (λ status. exit_status status ≡ FAULT) }
    {
        check_row(rt, self.from, rows)?;
        check_shifts(rt, &self.shifts, open_shift)
    }
}

/// The number of a row that the value of `--from` says, 0 without one; or how the program ends.
fn read_from(rt: &impl Eprint, word: Option<&str>) -> Result<u64, ExitCode>
    ensures { IfErr result (λ status. exit_status status ≡ COMMAND_LINE) }
{
    let Some(word) = word else {
        return Ok(0);
    };
    match number_of(word.as_bytes(), u64::MAX) {
        Some(from) => Ok(from),
        None => Err(exit_with(
            eprintln!(rt; "error: '--from {word}' says no row: give its number, as 0"),
            COMMAND_LINE,
        )),
    }
}

/// How the program ends where the history has so many rows, and this one is ahead of the next.
fn check_row(rt: &impl Eprint, from: u64, rows: u64) -> Result<(), ExitCode>
    ensures there { OnOk result (from ≤ rows) }
    ensures missing { OnErr result (rows < from) }
    ensures failed { IfErr result (λ status. exit_status status ≡ FAULT) }
{
    if from <= rows {
        return Ok(());
    }
    Err(exit_with(
        eprintln!(rt; "row {from} isn't there: row {rows} is next"),
        FAULT,
    ))
}
