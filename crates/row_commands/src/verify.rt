//! `forecourt verify FOLDER [--seal HEX]`.

ghost use Rattle.std.specs.Prelude.{◌≡◌, ◌++◌, IfErr, IsSome, OnOk};
ghost use Rattle.std.specs.Process.{exit_status};
ghost use Rattle.history_folder.specs.Reading.{IsWhole};
ghost use Rattle.program_io.specs.declared.exit.TheConstants.{FAULT};
ghost use Rattle.row_commands.specs.RowCounts.{time_or_dash};

use crate::output::print_text;
use crate::row_count::RowCount;
use crate::seal_word::read_seal;
use chapters::HistoryEnd;
use command_line::VerifyOptions;
use devices::ReadFault;
use forecourt_engines::ReplayFault;
use history_folder::{FolderWalk, LinePlace};
use program_io::{FAULT, exit_no_memory, exit_replay, exit_unwritten};
use site_base::NoMemory;
use stamps::Stamp;
use std::alloc::Global;
use std::process::ExitCode;
use std::rt::Files;

/// Reads the whole history in a folder. Prints how much there is and the last seal, or the first
/// fault. If a seal is given, also prints where it is in the history.
pub fn run_verify<R: Files + Print + Eprint + AllocGlobal>(
    rt: &R,
    options: VerifyOptions<'_>,
) -> ExitCode {
    let verified = match read_seal(rt, options.seal) {
        Ok(None) => verify(rt, options.history),
        Ok(Some(seal)) => verify_seal(rt, options.history, seal.as_str()),
        Err(status) => Err(status),
    };
    match verified {
        Ok(()) => ExitCode::SUCCESS,
        Err(status) => status,
    }
}

/// Reads the history, and prints how much there is.
fn verify<R: Files + Print + Eprint + AllocGlobal>(rt: &R, folder: &str) -> Result<(), ExitCode> {
    let mut walk = FolderWalk::open(rt, folder)?;
    let mut count = RowCount::new();
    count_rows(rt, folder, &mut walk, &mut count)?;
    print_summary(rt, &walk, &count)
}

/// The same, and says where this seal stands.
fn verify_seal<R: Files + Print + Eprint + AllocGlobal>(
    rt: &R,
    folder: &str,
    seal: &str,
) -> Result<(), ExitCode> {
    let mut walk = FolderWalk::open(rt, folder)?;
    match walk.seek_seal(rt.alloc(), seal) {
        Ok(()) => {}
        Err(NoMemory) => return Err(exit_no_memory(rt)),
    }
    let mut count = RowCount::new();
    count_rows(rt, folder, &mut walk, &mut count)?;
    print_summary(rt, &walk, &count)?;
    print_place(rt, seal, walk.seal_place())
}

/// Reads each row, and counts it.
fn count_rows<R: Files + Eprint + AllocGlobal>(
    rt: &R,
    folder: &str,
    walk: &mut FolderWalk,
    count: &mut RowCount,
) -> Result<(), ExitCode>
    ensures { OnOk result (IsWhole walk.new) }
{
    for _ in 0..u64::MAX {
        if walk.next(rt, folder)?.is_none() {
            return Ok(());
        }
        count.add_row(walk.end());
    }
    // No history has so many rows.
    Err(exit_replay(rt, Some(ReplayFault::Read(ReadFault::TurnLimit))))
}

/// Prints what there is of a history that is read; what no seal covers is said on standard error.
fn print_summary<R: Print + Eprint + AllocGlobal>(
    rt: &R,
    walk: &FolderWalk,
    count: &RowCount,
) -> Result<(), ExitCode> {
    match summary_line(rt.alloc(), walk.end(), count) {
        Ok(mut text) => print_text(rt, &mut text)?,
        Err(NoMemory) => return Err(exit_no_memory(rt)),
    }
    let (rows, octets) = (count.uncovered(walk.end()), walk.unread());
    if rows > 0 {
        let _ = eprintln!(rt; "rows after the last seal: {rows}");
    }
    if octets > 0 {
        let _ = eprintln!(rt; "octets of an unfinished last line: {octets}");
    }
    Ok(())
}

/// The line that says how much there is of a history that ends so.
fn summary_line(alloc: Global, end: &HistoryEnd, count: &RowCount) -> Result<Vec<u8>, NoMemory> {
    let (chapters, seals, last) = (end.chapters(), end.seals(), end.last_seal());
    let rows = count.rows;
    let line = format!(in alloc;
        "chapters {chapters} rows {rows} seals {seals} last {last} from "
    )?;
    let mut text = line.into_bytes();
    put_time(count.first, &mut text)?;
    text.extend_from_slice(b" to ")?;
    put_time(count.last, &mut text)?;
    text.push(b'\n')?;
    Ok(text)
}

/// Appends a time, or a dash if there is none.
fn put_time(time: Option<Stamp>, text: &mut Vec<u8>) -> Result<(), NoMemory>
    ensures { OnOk result (text.new.items ≡ text.old.items ++ time_or_dash time) }
{
    match &time {
        Some(time) => text.extend_from_slice(time.as_octets())?,
        None => text.push(b'-')?,
    }
    Ok(())
}

/// Prints where a seal is. If it isn't in the history, that is a fault.
fn print_place(
    rt: &(impl Print + Eprint),
    seal: &str,
    place: Option<LinePlace>,
) -> Result<(), ExitCode>
    ensures found { OnOk result (IsSome place) }
    ensures failed { IfErr result (λ status. exit_status status ≡ FAULT) }
{
    let printed = match place {
        Some(LinePlace { chapter, line }) => {
            println!(rt; "seal {seal} is that of chapter {chapter} line {line}")
        }
        None => println!(rt; "seal {seal} isn't in the history"),
    };
    if printed.is_err() {
        return Err(exit_unwritten(rt));
    }
    match place {
        Some(_) => Ok(()),
        None => Err(ExitCode::from(FAULT)),
    }
}
