//! `forecourt sales FOLDER [--draws] [--json] [--shift A[..B]] [--from T] [--to T]`.

ghost use Rattle.std.specs.Prelude.{◌≡◌, IfSome, None, OnOk, true};
ghost use Rattle.history_folder.specs.Reading.{IsWhole};
ghost use Rattle.sales_table.specs.TimedSales.{is_cleared_in};

use crate::options::{check_shifts, is_asked, read_shifts};
use crate::output::print_table;
use crate::times::read_span;
use command_line::SalesOptions;
use devices::ReadFault;
use forecourt_engines::ReplayFault;
use history_folder::FolderWalk;
use past_rows::ShiftRange;
use program_io::{exit_no_memory, exit_replay};
use sales_table::{DrawReader, Form, SoldList, drawn_table, sale_cleared, sold_table};
use site_base::NoMemory;
use site_book::Draw;
use stamps::{Stamp, TimeSpan};
use std::process::ExitCode;
use std::rt::Files;

/// Prints the table of the sales of the history in a folder, or of the draws of tests.
pub fn run_sales_folder<R: Files + Print + Eprint + AllocGlobal>(
    rt: &R,
    options: SalesOptions<'_>,
) -> ExitCode {
    let shifts = match read_shifts(rt, options.shift) {
        Ok(shifts) => shifts,
        Err(status) => return status,
    };
    let span = match read_span(rt, options.from, options.to) {
        Ok(span) => span,
        Err(status) => return status,
    };
    let form = if options.json { Form::Json } else { Form::Csv };
    let printed = if options.draws {
        print_draws(rt, options.site, form, &shifts, &span)
    } else {
        print_sales(rt, options.site, form, &shifts, &span)
    };
    match printed {
        Ok(()) => ExitCode::SUCCESS,
        Err(status) => status,
    }
}

/// Prints the sales of these shifts, as they stand at the history's end. With a span, those of them
/// that were cleared in it.
fn print_sales<R: Files + Print + Eprint + AllocGlobal>(
    rt: &R,
    folder: &str,
    form: Form,
    shifts: &Option<ShiftRange>,
    span: &Option<TimeSpan>,
) -> Result<(), ExitCode> {
    let mut walk = FolderWalk::open(rt, folder)?;
    let mut sold = SoldList::new(rt.alloc());
    read_sales(rt, folder, shifts, &mut walk, &mut sold)?;
    check_shifts(rt, shifts, walk.book().open_shift())?;
    print_table(
        rt,
        sold_table(rt.alloc(), walk.book(), sold.as_slice(), span, form),
    )
}

/// Reads the sales that the rows of these shifts made, and when they were cleared.
fn read_sales<R: Files + Eprint + AllocGlobal>(
    rt: &R,
    folder: &str,
    shifts: &Option<ShiftRange>,
    walk: &mut FolderWalk,
    sold: &mut SoldList,
) -> Result<(), ExitCode>
    ensures { OnOk result (IsWhole walk.new) }
{
    for _ in 0..u64::MAX {
        let shift = walk.book().open_shift();
        let Some(row) = walk.next(rt, folder)? else {
            return Ok(());
        };
        if is_asked(shifts, shift) {
            match sold.add(&row, shift, walk.end().time()) {
                Ok(()) => {}
                Err(NoMemory) => return Err(exit_no_memory(rt)),
            }
        }
        if let Some(name) = sale_cleared(&row, shift) {
            if is_asked(shifts, name.shift) {
                sold.clear(&name, walk.end().time());
            }
        }
    }
    // No history has so many rows.
    Err(exit_replay(rt, Some(ReplayFault::Read(ReadFault::TurnLimit))))
}

/// Prints what the tests of these shifts drew. With a span, those of them that ended in it.
fn print_draws<R: Files + Print + Eprint + AllocGlobal>(
    rt: &R,
    folder: &str,
    form: Form,
    shifts: &Option<ShiftRange>,
    span: &Option<TimeSpan>,
) -> Result<(), ExitCode> {
    let mut walk = FolderWalk::open(rt, folder)?;
    let mut draws = Vec::new(rt.alloc());
    read_draws(rt, folder, shifts, span, &mut walk, &mut draws)?;
    check_shifts(rt, shifts, walk.book().open_shift())?;
    let products = walk.book().config().products();
    print_table(rt, drawn_table(rt.alloc(), products, &draws, form))
}

/// Reads what the tests of these shifts drew that ended in this span.
fn read_draws<R: Files + Eprint + AllocGlobal>(
    rt: &R,
    folder: &str,
    shifts: &Option<ShiftRange>,
    span: &Option<TimeSpan>,
    walk: &mut FolderWalk,
    draws: &mut Vec<Draw>,
) -> Result<(), ExitCode>
    ensures { OnOk result (IsWhole walk.new) }
{
    let mut reader = match DrawReader::open(rt.alloc(), walk.book().config()) {
        Ok(reader) => reader,
        Err(NoMemory) => return Err(exit_no_memory(rt)),
    };
    for _ in 0..u64::MAX {
        let Some(row) = walk.next(rt, folder)? else {
            return Ok(());
        };
        let draw = match reader.read(&row) {
            Ok(draw) => draw,
            Err(NoMemory) => return Err(exit_no_memory(rt)),
        };
        if is_timely(span, &walk.end().time()) && add_draw(shifts, draw, draws).is_err() {
            return Err(exit_no_memory(rt));
        }
    }
    // No history has so many rows.
    Err(exit_replay(rt, Some(ReplayFault::Read(ReadFault::TurnLimit))))
}

/// Does this time lie in the span? Without a span each does; a time that isn't known doesn't.
fn is_timely(span: &Option<TimeSpan>, time: &Option<Stamp>) -> bool
    ensures all { span.now ≡ None → result ≡ true }
    ensures some { IfSome span.now (λ asked. result ≡ is_cleared_in asked time.now) }
{
    match (span, time) {
        (None, _) => true,
        (Some(_), None) => false,
        (Some(span), Some(time)) => span.contains(time),
    }
}

/// Adds a draw, if there is one and its shift is asked for.
fn add_draw(
    shifts: &Option<ShiftRange>,
    draw: Option<Draw>,
    draws: &mut Vec<Draw>,
) -> Result<(), NoMemory> {
    match draw {
        Some(draw) if is_asked(shifts, draw.shift) => Ok(draws.push(draw)?),
        _ => Ok(()),
    }
}
