//! `forecourt report FOLDER [--human | --json] [--shift A[..B]]`.

ghost use Rattle.std.specs.Prelude.{◌≡◌, [], None, OnOk, length};
ghost use Rattle.history_folder.specs.Reading.{IsWhole};
ghost use Rattle.past_rows.specs.ShiftFigures.{HasTaken};

use crate::options::{check_there, read_shifts};
use crate::output::print_table;
use crate::people_report::report_people;
use command_line::{ReportForm, ReportOptions};
use day_report::{report_as_json, report_as_text};
use devices::ReadFault;
use forecourt_engines::ReplayFault;
use history_folder::{FolderWalk, read_folder};
use past_rows::{ShiftFigures, ShiftRange};
use program_io::{exit_no_memory, exit_replay};
use site_base::{NoMemory, SiteConfig, Totals};
use site_book::SiteBook;
use std::alloc::Global;
use std::process::ExitCode;
use std::rt::Files;

/// Prints the report of the history in a folder: of all its shifts, or of those that are asked for.
pub fn run_report_folder<R: Files + Print + Eprint + AllocGlobal>(
    rt: &R,
    options: ReportOptions<'_>,
) -> ExitCode {
    let shifts = match read_shifts(rt, options.shift) {
        Ok(shifts) => shifts,
        Err(status) => return status,
    };
    let printed = match options.form {
        ReportForm::People => report_people(rt, options.site, &shifts),
        ReportForm::Lines => report_rows(rt, options.site, shifts, RowsForm::Lines),
        ReportForm::Json => report_rows(rt, options.site, shifts, RowsForm::Json),
    };
    match printed {
        Ok(()) => ExitCode::SUCCESS,
        Err(status) => status,
    }
}

/// How a report is printed that is for programs.
#[derive(Clone, Copy, Debug, PartialEq, Eq)]
enum RowsForm {
    /// A line for each figure.
    Lines,
    /// One object of JSON.
    Json,
}

/// Prints the report of these shifts, or of all.
fn report_rows<R: Files + Print + Eprint + AllocGlobal>(
    rt: &R,
    folder: &str,
    shifts: Option<ShiftRange>,
    form: RowsForm,
) -> Result<(), ExitCode> {
    match shifts {
        None => report_all(rt, folder, form),
        Some(shifts) => report_shifts(rt, folder, form, shifts),
    }
}

/// Prints the report of all shifts.
fn report_all<R: Files + Print + Eprint + AllocGlobal>(
    rt: &R,
    folder: &str,
    form: RowsForm,
) -> Result<(), ExitCode> {
    match read_folder(rt, folder) {
        Ok(history) => report_book(rt, &history.book, form),
        Err(status) => Err(status),
    }
}

/// Prints the report of all rows of a book.
fn report_book<R: Print + Eprint + AllocGlobal>(
    rt: &R,
    book: &SiteBook,
    form: RowsForm,
) -> Result<(), ExitCode> {
    match book.totals(rt.alloc()) {
        Ok(totals) => print_report(rt, book.config(), &totals, form),
        Err(NoMemory) => Err(exit_no_memory(rt)),
    }
}

/// Prints the report of these shifts.
fn report_shifts<R: Files + Print + Eprint + AllocGlobal>(
    rt: &R,
    folder: &str,
    form: RowsForm,
    shifts: ShiftRange,
) -> Result<(), ExitCode> {
    let mut walk = FolderWalk::open(rt, folder)?;
    let last = shifts.last;
    let mut figures = ShiftFigures::new(shifts);
    take_moments(rt, folder, &mut walk, &mut figures)?;
    check_there(rt, last, walk.book().open_shift())?;
    report_figures(rt, walk.book(), &figures, form)
}

/// Prints the report of shifts that are there, of a history that ends with this book.
fn report_figures<R: Print + Eprint + AllocGlobal>(
    rt: &R,
    book: &SiteBook,
    figures: &ShiftFigures,
    form: RowsForm,
) -> Result<(), ExitCode>
    requires { HasTaken figures.now book.now }
{
    match figures.totals(rt.alloc(), book) {
        Ok(Some(totals)) => print_report(rt, book.config(), &totals, form),
        // The last of the shifts is there, and so is the first.
        Ok(None) => Ok(()),
        Err(NoMemory) => Err(exit_no_memory(rt)),
    }
}

/// Has the figures look at each moment of a folder's history.
fn take_moments<R: Files + Eprint + AllocGlobal>(
    rt: &R,
    folder: &str,
    walk: &mut FolderWalk,
    figures: &mut ShiftFigures,
) -> Result<(), ExitCode>
    requires begin { walk.old.reader.book.rows ≡ [] }
    requires before { figures.old.before ≡ None }
    requires after { figures.old.after ≡ None }
    ensures whole { OnOk result (IsWhole walk.new) }
    ensures met { OnOk result (HasTaken figures.new walk.new.reader.book) }
    ensures shifts { figures.new.shifts ≡ figures.old.shifts }
{
    match figures.take_moment(rt.alloc(), walk.book()) {
        Ok(()) => {}
        Err(NoMemory) => return Err(exit_no_memory(rt)),
    }
    for _ in 0..u64::MAX {
        if walk.next(rt, folder)?.is_none() {
            return Ok(());
        }
        match figures.take_moment(rt.alloc(), walk.book()) {
            Ok(()) => {}
            Err(NoMemory) => return Err(exit_no_memory(rt)),
        }
    }
    // No history has so many rows.
    Err(exit_replay(rt, Some(ReplayFault::Read(ReadFault::TurnLimit))))
}

/// Prints the report of these figures.
fn print_report<R: Print + Eprint + AllocGlobal>(
    rt: &R,
    config: &SiteConfig,
    totals: &Totals,
    form: RowsForm,
) -> Result<(), ExitCode>
    requires { length totals.now.products ≡ length config.now.products }
{
    print_table(rt, report_text(rt.alloc(), config, totals, form))
}

/// The report of these figures in this form.
fn report_text(
    alloc: Global,
    config: &SiteConfig,
    totals: &Totals,
    form: RowsForm,
) -> Result<Vec<u8>, NoMemory>
    requires { length totals.now.products ≡ length config.now.products }
{
    match form {
        RowsForm::Lines => Ok(report_as_text(alloc, config, totals, 0)?.into_bytes()),
        RowsForm::Json => Ok(report_as_json(alloc, config.products(), totals, 0)?.into_bytes()),
    }
}
