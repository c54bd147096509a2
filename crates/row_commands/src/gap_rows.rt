//! The gaps in the rows of some shifts of a folder.

ghost use Rattle.std.specs.Prelude.{◌≡◌, ◌≤◌, [], IfOk, IfSome, None, OnOk, false, length};
ghost use Rattle.history_folder.specs.Reading.{IsWhole};
ghost use Rattle.meter_table.specs.Gaps.{no_gaps};
ghost use Rattle.written_site.specs.RowWords.{open_after};
ghost use Rattle.written_site.specs.SiteState.{opening};
ghost use Rattle.row_commands.specs.AskedGaps.{HasReadGaps, asked_gaps, noted};

use crate::options::{is_before, is_behind};
use devices::ReadFault;
use forecourt_engines::ReplayFault;
use history_folder::FolderWalk;
use meter_table::{GapList, GapReader};
use past_rows::ShiftRange;
use program_io::{exit_no_memory, exit_replay};
use row_tally::RowPlace;
use site_base::{NoMemory, Row, ShiftNo, SiteConfig};
use site_book::SiteBook;
use stamps::Stamp;
use std::process::ExitCode;
use std::rt::Files;

/// Reads the gaps in the rows of these shifts. If `is_timed`, the gaps have the rows' times.
pub fn read_gaps<R: Files + Eprint + AllocGlobal>(
    rt: &R,
    folder: &str,
    shifts: &Option<ShiftRange>,
    is_timed: bool,
    walk: &mut FolderWalk,
) -> Result<GapList, ExitCode>
    requires begin { walk.old.reader.book.rows ≡ [] }
    requires order { IfSome shifts.now (λ x. x.first ≤ x.last) }
    ensures whole { OnOk result (IsWhole walk.new) }
    ensures gaps { IfOk result (λ gaps. is_timed ≡ false → gaps ≡ asked_gaps
        walk.new.reader.book.config shifts.now walk.new.reader.book.rows) }
{
    let mut reader = open_gaps(rt, walk.book().config())?;
    note_rows(rt, folder, shifts, is_timed, walk, &mut reader)?;
    Ok(reader.into_gaps())
}

/// Returns a reader of gaps at the opening of this site.
pub fn open_gaps<R: Eprint + AllocGlobal>(
    rt: &R,
    config: &SiteConfig,
) -> Result<GapReader, ExitCode>
    ensures { IfOk result (λ m. m
        ≡ record {
          site = opening config.now;
          gaps = no_gaps;
        }) }
{
    match GapReader::open(rt.alloc(), config) {
        Ok(reader) => Ok(reader),
        Err(NoMemory) => Err(exit_no_memory(rt)),
    }
}

/// Notes the gaps of the rows up to the last of these shifts, from the first row of the first one.
fn note_rows<R: Files + Eprint + AllocGlobal>(
    rt: &R,
    folder: &str,
    shifts: &Option<ShiftRange>,
    is_timed: bool,
    walk: &mut FolderWalk,
    reader: &mut GapReader,
) -> Result<(), ExitCode>
    requires begin { walk.old.reader.book.rows ≡ [] }
    requires order { IfSome shifts.now (λ x. x.first ≤ x.last) }
    requires none { reader.old
        ≡ record {
          site = opening walk.old.reader.book.config;
          gaps = no_gaps;
        } }
    ensures whole { OnOk result (IsWhole walk.new) }
    ensures read { OnOk result (is_timed ≡ false → HasReadGaps walk.new.reader.book.config
        shifts.now walk.new.reader.book.rows reader.new) }
{
    for _ in 0..u64::MAX {
        let (row, shift) = next_place(walk.book());
        let Some(told) = walk.next(rt, folder)? else {
            return Ok(());
        };
        let at = time_if(is_timed, walk);
        let place = RowPlace { row, at };
        note_row(rt, shifts, shift, &place, &told, reader)?;
    }
    // No history has so many rows.
    Err(exit_replay(rt, Some(ReplayFault::Read(ReadFault::TurnLimit))))
}

/// Returns the number of the next row of a book, and the shift that is open before it.
pub fn next_place(book: &SiteBook) -> (u64, ShiftNo)
    ensures row { result.0 ≡ length book.now.rows }
    ensures shift { result.1 ≡ open_after book.now.rows }
{
    (book.len(), book.open_shift())
}

/// The time of the row that was given last, if it is asked for and known.
fn time_if(is_timed: bool, walk: &FolderWalk) -> Option<Stamp>
    ensures { is_timed ≡ false → result ≡ None }
{
    if is_timed { walk.end().time() } else { None }
}

/// Notes the gaps of a row, unless it is after the shifts that are asked for. `shift` is the shift
/// that is open when the row comes. Gaps that were noted before the first of those shifts are
/// dropped.
pub fn note_row<R: Eprint + AllocGlobal>(
    rt: &R,
    shifts: &Option<ShiftRange>,
    shift: ShiftNo,
    place: &RowPlace,
    row: &Row,
    reader: &mut GapReader,
) -> Result<(), ExitCode>
    ensures { OnOk result (reader.new ≡ noted shifts.now shift place.now row.now reader.old) }
{
    if is_behind(shifts, shift) {
        return Ok(());
    }
    match reader.read(place, row) {
        Ok(()) => {}
        Err(NoMemory) => return Err(exit_no_memory(rt)),
    }
    if is_before(shifts, shift) {
        reader.begin_here(rt.alloc());
    }
    Ok(())
}
