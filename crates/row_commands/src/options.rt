//! The shifts that a command is asked for.

ghost use Rattle.std.specs.Prelude.{◌≡◌, ◌≤◌, ◌<◌, ◌&&◌, IfErr, IfOk, IfSome, IsSome, None, OnErr};
ghost use Rattle.std.specs.Prelude.{OnOk, nat_le, true};
ghost use Rattle.std.specs.Process.{exit_status};
ghost use Rattle.row_commands.specs.AskedGaps.{is_before, is_behind};

use past_rows::ShiftRange;
use program_io::{COMMAND_LINE, FAULT, exit_with};
use site_base::ShiftNo;
use std::process::ExitCode;

/// Reads the value of `--shift`. Without one, returns None, for all shifts. If the value is wrong,
/// prints that and returns the exit status.
pub fn read_shifts(rt: &impl Eprint, word: Option<&str>) -> Result<Option<ShiftRange>, ExitCode>
    ensures all { word.entry ≡ None → IfOk result (λ shifts. shifts ≡ None) }
    ensures some { IsSome word.entry → IfOk result (λ shifts. IsSome shifts) }
    ensures order { IfOk result (λ shifts. IfSome shifts (λ x. x.first ≤ x.last)) }
    ensures failed { IfErr result (λ status. exit_status status ≡ COMMAND_LINE) }
{
    let Some(word) = word else {
        return Ok(None);
    };
    match ShiftRange::parse(word) {
        Some(shifts) => Ok(Some(shifts)),
        None => Err(exit_with(
            eprintln!(rt;
                "error: '--shift {word}' says no shifts: give one, as 3, or several, as 3..5"
            ),
            COMMAND_LINE,
        )),
    }
}

/// Is this shift asked for? If no shifts are named, each one is.
pub fn is_asked(shifts: &Option<ShiftRange>, shift: ShiftNo) -> bool
    ensures all { shifts.now ≡ None → result ≡ true }
    ensures some { IfSome shifts.now (λ asked.
        result ≡ (nat_le asked.first shift && nat_le shift asked.last)) }
{
    match shifts {
        Some(shifts) => shifts.contains(shift),
        None => true,
    }
}

/// If the last of these shifts hasn't begun, prints that and returns the exit status.
pub fn check_shifts(
    rt: &impl Eprint,
    shifts: &Option<ShiftRange>,
    open_shift: ShiftNo,
) -> Result<(), ExitCode>
    ensures there { OnOk result (IfSome shifts.now (λ asked. asked.last ≤ open_shift)) }
    ensures missing { OnErr result (IfSome shifts.now (λ asked. open_shift < asked.last)) }
    ensures failed { IfErr result (λ status. exit_status status ≡ FAULT) }
{
    match shifts {
        Some(shifts) => check_there(rt, shifts.last, open_shift),
        None => Ok(()),
    }
}

/// If this shift hasn't begun, prints that and returns the exit status.
pub fn check_there(rt: &impl Eprint, shift: ShiftNo, open_shift: ShiftNo) -> Result<(), ExitCode>
    ensures there { OnOk result (shift ≤ open_shift) }
    ensures missing { OnErr result (open_shift < shift) }
    ensures failed { IfErr result (λ status. exit_status status ≡ FAULT) }
{
    let (shift, open_shift) = (shift.get(), open_shift.get());
    if shift <= open_shift {
        return Ok(());
    }
    Err(exit_with(
        eprintln!(rt; "shift {shift} isn't there: shift {open_shift} is open"),
        FAULT,
    ))
}

/// Is this shift before those that are asked for?
pub fn is_before(shifts: &Option<ShiftRange>, shift: ShiftNo) -> bool
    ensures { result ≡ is_before shifts.now shift }
{
    match shifts {
        Some(shifts) => shift.get() < shifts.first.get(),
        None => false,
    }
}

/// Is this shift after those that are asked for?
pub fn is_behind(shifts: &Option<ShiftRange>, shift: ShiftNo) -> bool
    ensures { result ≡ is_behind shifts.now shift }
{
    match shifts {
        Some(shifts) => shifts.last.get() < shift.get(),
        None => false,
    }
}
