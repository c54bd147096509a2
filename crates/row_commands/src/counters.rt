//! `forecourt meters FOLDER [--gaps] [--csv | --json] [--shift A[..B]]`.

ghost use Rattle.std.specs.Prelude.{◌≤◌, IfSome};

use crate::gap_rows::read_gaps;
use crate::meter_rows::read_meters;
use crate::options::{check_shifts, read_shifts};
use crate::output::print_table;
use command_line::{MetersForm, MetersOptions};
use history_folder::FolderWalk;
use meter_table::{Form, figures_table, gaps_table};
use past_rows::ShiftRange;
use std::process::ExitCode;
use std::rt::Files;

/// Prints what the history in a folder counts at each nozzle, or its gaps: for all shifts, or for
/// those that are asked for.
pub fn run_meters_folder<R: Files + Print + Eprint + AllocGlobal>(
    rt: &R,
    options: MetersOptions<'_>,
) -> ExitCode {
    match print_counters(rt, options) {
        Ok(()) => ExitCode::SUCCESS,
        Err(status) => status,
    }
}

/// Prints the same.
fn print_counters<R: Files + Print + Eprint + AllocGlobal>(
    rt: &R,
    options: MetersOptions<'_>,
) -> Result<(), ExitCode> {
    let shifts = read_shifts(rt, options.shift)?;
    let form = form_of(options.form);
    if options.gaps {
        print_gaps(rt, options.site, form, &shifts)
    } else {
        print_meters(rt, options.site, form, &shifts)
    }
}

/// The form of a table that is asked for.
fn form_of(form: MetersForm) -> Form {
    match form {
        MetersForm::People => Form::Text,
        MetersForm::Csv => Form::Csv,
        MetersForm::Json => Form::Json,
    }
}

/// Prints what these shifts count at each nozzle.
fn print_meters<R: Files + Print + Eprint + AllocGlobal>(
    rt: &R,
    folder: &str,
    form: Form,
    shifts: &Option<ShiftRange>,
) -> Result<(), ExitCode> {
    let mut walk = FolderWalk::open(rt, folder)?;
    let figures = read_meters(rt, folder, shifts, &mut walk)?;
    check_shifts(rt, shifts, walk.book().open_shift())?;
    let products = walk.book().config().products();
    print_table(rt, figures_table(rt.alloc(), products, &figures, form))
}

/// Prints the gaps of these shifts.
fn print_gaps<R: Files + Print + Eprint + AllocGlobal>(
    rt: &R,
    folder: &str,
    form: Form,
    shifts: &Option<ShiftRange>,
) -> Result<(), ExitCode>
    requires { IfSome shifts.now (λ x. x.first ≤ x.last) }
{
    let mut walk = FolderWalk::open(rt, folder)?;
    let gaps = read_gaps(rt, folder, shifts, true, &mut walk)?;
    check_shifts(rt, shifts, walk.book().open_shift())?;
    print_table(rt, gaps_table(rt.alloc(), &gaps, form))
}
