//! `forecourt report FOLDER --human [--shift A[..B]]`: the report for people, and its gaps.

ghost use Rattle.std.specs.Prelude.{◌≡◌, ◌≤◌, ◌++◌, [], IfOk, IfSome, None, OnOk, Some};
ghost use Rattle.day_report.specs.People.{people_text};
ghost use Rattle.history_folder.specs.Reading.{IsWhole};
ghost use Rattle.meter_table.specs.Gaps.{no_gaps};
ghost use Rattle.meter_table.specs.ReportLines.{gap_words};
ghost use Rattle.past_rows.specs.ShiftFigures.{HasTaken};
ghost use Rattle.site_book.specs.Book.{Book};
ghost use Rattle.past_rows.specs.ShiftFigures.{IsNextBook};
ghost use Rattle.written_site.specs.SiteState.{opening};
ghost use Rattle.row_commands.specs.AskedGaps.{HasReadGaps, asked_gaps};

use crate::gap_rows::{next_place, note_row, open_gaps, read_gaps};
use crate::options::check_shifts;
use crate::output::print_table;
use day_report::report_for_people;
use devices::ReadFault;
use forecourt_engines::ReplayFault;
use history_folder::FolderWalk;
use meter_table::{GapList, GapReader, gap_words};
use past_rows::{ShiftFigures, ShiftRange};
use program_io::{exit_no_memory, exit_replay};
use row_tally::RowPlace;
use site_base::{NoMemory, SiteConfig, Totals};
use site_book::SiteBook;
use std::alloc::Global;
use std::process::ExitCode;
use std::rt::Files;

/// Prints the report of these shifts for people, or of all shifts, and what it says about their
/// gaps.
pub fn report_people<R: Files + Print + Eprint + AllocGlobal>(
    rt: &R,
    folder: &str,
    shifts: &Option<ShiftRange>,
) -> Result<(), ExitCode>
    requires { IfSome shifts.now (λ x. x.first ≤ x.last) }
{
    match shifts {
        None => report_all(rt, folder),
        Some(range) => report_shifts(rt, folder, shifts, *range),
    }
}

/// Prints the report of all shifts.
fn report_all<R: Files + Print + Eprint + AllocGlobal>(
    rt: &R,
    folder: &str,
) -> Result<(), ExitCode> {
    let mut walk = FolderWalk::open(rt, folder)?;
    let gaps = read_gaps(rt, folder, &None, false, &mut walk)?;
    print_table(rt, text_of_all(rt.alloc(), walk.book(), &gaps))
}

/// The report of a book, of whose rows these are the gaps.
fn text_of_all(alloc: Global, book: &SiteBook, gaps: &GapList) -> Result<Vec<u8>, NoMemory> {
    people_text(alloc, book.config(), &book.totals(alloc)?, gaps)
}

/// Prints the report of these shifts.
fn report_shifts<R: Files + Print + Eprint + AllocGlobal>(
    rt: &R,
    folder: &str,
    shifts: &Option<ShiftRange>,
    range: ShiftRange,
) -> Result<(), ExitCode>
    requires { IfSome shifts.now (λ x. x.first ≤ x.last) }
{
    let mut walk = FolderWalk::open(rt, folder)?;
    let mut figures = ShiftFigures::new(range);
    let gaps = take_rows(rt, folder, shifts, &mut walk, &mut figures)?;
    check_shifts(rt, shifts, walk.book().open_shift())?;
    print_table(rt, text_of_shifts(rt.alloc(), walk.book(), &figures, &gaps))
}

/// The report of shifts that are there, of a history that ends with this book, and whose gaps are
/// these.
fn text_of_shifts(
    alloc: Global,
    book: &SiteBook,
    figures: &ShiftFigures,
    gaps: &GapList,
) -> Result<Vec<u8>, NoMemory>
    requires { HasTaken figures.now book.now }
{
    match figures.totals(alloc, book)? {
        Some(totals) => people_text(alloc, book.config(), &totals, gaps),
        // The last of the shifts is there, and so is the first.
        None => Ok(Vec::new(alloc)),
    }
}

/// The report of these totals, and behind it what there is to say of these gaps.
fn people_text(
    alloc: Global,
    config: &SiteConfig,
    totals: &Totals,
    gaps: &GapList,
) -> Result<Vec<u8>, NoMemory>
    ensures { IfOk result (λ text. text.items
        ≡ people_text config.now.products totals.now ++ gap_words config.now gaps.now) }
{
    let mut text = report_for_people(alloc, config.products(), totals)?;
    text.extend_from_slice(&gap_words(alloc, config, gaps)?)?;
    Ok(text)
}

/// Has the figures look at each moment of a folder's history. The gaps of the rows of these shifts.
fn take_rows<R: Files + Eprint + AllocGlobal>(
    rt: &R,
    folder: &str,
    shifts: &Option<ShiftRange>,
    walk: &mut FolderWalk,
    figures: &mut ShiftFigures,
) -> Result<GapList, ExitCode>
    requires begin { walk.old.reader.book.rows ≡ [] }
    requires order { IfSome shifts.now (λ x. x.first ≤ x.last) }
    requires before { figures.old.before ≡ None }
    requires after { figures.old.after ≡ None }
    ensures whole { OnOk result (IsWhole walk.new) }
    ensures met { OnOk result (HasTaken figures.new walk.new.reader.book) }
    ensures shifts { figures.new.shifts ≡ figures.old.shifts }
    ensures gaps { IfOk result (λ gaps. gaps ≡ asked_gaps
        walk.new.reader.book.config shifts.now walk.new.reader.book.rows) }
{
    let mut reader = open_gaps(rt, walk.book().config())?;
    take_moment(rt, walk.book(), figures)?;
    note_moments(rt, folder, shifts, walk, figures, &mut reader)?;
    Ok(reader.into_gaps())
}

/// Has the figures look at each later moment, and the reader note each row.
fn note_moments<R: Files + Eprint + AllocGlobal>(
    rt: &R,
    folder: &str,
    shifts: &Option<ShiftRange>,
    walk: &mut FolderWalk,
    figures: &mut ShiftFigures,
    reader: &mut GapReader,
) -> Result<(), ExitCode>
    requires begin { walk.old.reader.book.rows ≡ [] }
    requires order { IfSome shifts.now (λ x. x.first ≤ x.last) }
    requires taken { HasTaken figures.old walk.old.reader.book }
    requires none { reader.old
        ≡ record {
          site = opening walk.old.reader.book.config;
          gaps = no_gaps;
        } }
    ensures whole { OnOk result (IsWhole walk.new) }
    ensures met { OnOk result (HasTaken figures.new walk.new.reader.book) }
    ensures shifts { figures.new.shifts ≡ figures.old.shifts }
    ensures gaps { OnOk result (HasReadGaps walk.new.reader.book.config shifts.now
        walk.new.reader.book.rows reader.new) }
{
    for _ in 0..u64::MAX {
        let (row, shift) = next_place(walk.book());
        let Some(told) = walk.next(rt, folder)? else {
            return Ok(());
        };
        let place = RowPlace { row, at: None };
        note_row(rt, shifts, shift, &place, &told, reader)?;
        take_moment(rt, walk.book(), figures)?;
    }
    // No history has so many rows.
    Err(exit_replay(rt, Some(ReplayFault::Read(ReadFault::TurnLimit))))
}

/// Has the figures look at a book.
fn take_moment<R: Eprint + AllocGlobal>(
    rt: &R,
    book: &SiteBook,
    figures: &mut ShiftFigures,
) -> Result<(), ExitCode>
    ensures first { OnOk result (book.now.rows ≡ [] → figures.old.before ≡ None
        → figures.old.after ≡ None → HasTaken figures.new book.now) }
    ensures next { OnOk result ((earlier : Book) → HasTaken figures.old earlier
        → IsNextBook earlier book.now → HasTaken figures.new book.now) }
    ensures shifts { figures.new.shifts ≡ figures.old.shifts }
{
    match figures.take_moment(rt.alloc(), book) {
        Ok(()) => Ok(()),
        Err(NoMemory) => Err(exit_no_memory(rt)),
    }
}
