//! What the rows of some shifts of a folder count at each nozzle.

ghost use Rattle.std.specs.Prelude.{OnOk};
ghost use Rattle.history_folder.specs.Reading.{IsWhole};

use crate::options::{is_before, is_behind};
use devices::ReadFault;
use forecourt_engines::ReplayFault;
use history_folder::FolderWalk;
use meter_table::{MeterReader, NozzleFigures};
use past_rows::ShiftRange;
use program_io::{exit_no_memory, exit_replay};
use site_base::{NoMemory, Row, ShiftNo, SiteConfig};
use std::process::ExitCode;
use std::rt::Files;

/// Reads the figures of each nozzle from the rows of these shifts.
pub fn read_meters<R: Files + Eprint + AllocGlobal>(
    rt: &R,
    folder: &str,
    shifts: &Option<ShiftRange>,
    walk: &mut FolderWalk,
) -> Result<Vec<NozzleFigures>, ExitCode>
    ensures { OnOk result (IsWhole walk.new) }
{
    let mut reader = open_reader(rt, walk.book().config())?;
    count_rows(rt, folder, shifts, walk, &mut reader)?;
    Ok(reader.into_figures())
}

/// A reader at the opening of this site.
fn open_reader<R: Eprint + AllocGlobal>(
    rt: &R,
    config: &SiteConfig,
) -> Result<MeterReader, ExitCode> {
    match MeterReader::open(rt.alloc(), config) {
        Ok(reader) => Ok(reader),
        Err(NoMemory) => Err(exit_no_memory(rt)),
    }
}

/// Counts the rows up to the last of these shifts. The figures begin at the first row of the first
/// one.
fn count_rows<R: Files + Eprint + AllocGlobal>(
    rt: &R,
    folder: &str,
    shifts: &Option<ShiftRange>,
    walk: &mut FolderWalk,
    reader: &mut MeterReader,
) -> Result<(), ExitCode>
    ensures { OnOk result (IsWhole walk.new) }
{
    for _ in 0..u64::MAX {
        let shift = walk.book().open_shift();
        let Some(row) = walk.next(rt, folder)? else {
            return Ok(());
        };
        if count_row(shifts, shift, &row, reader).is_err() {
            return Err(exit_no_memory(rt));
        }
    }
    // No history has so many rows.
    Err(exit_replay(rt, Some(ReplayFault::Read(ReadFault::TurnLimit))))
}

/// Counts a row that comes while this shift is open, if it isn't behind those that are asked for.
/// Before the first of those the figures begin again.
fn count_row(
    shifts: &Option<ShiftRange>,
    shift: ShiftNo,
    row: &Row,
    reader: &mut MeterReader,
) -> Result<(), NoMemory> {
    if is_behind(shifts, shift) {
        return Ok(());
    }
    reader.read(row)?;
    if is_before(shifts, shift) {
        reader.begin_here();
    }
    Ok(())
}
