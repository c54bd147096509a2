//! `forecourt story FOLDER POINT/SHIFT/NUMBER`.

ghost use Rattle.std.specs.Prelude.{◌≡◌, IfErr, OnErr, OnOk, false, true};
ghost use Rattle.std.specs.Process.{exit_status};
ghost use Rattle.history_folder.specs.Reading.{IsWhole};
ghost use Rattle.program_io.specs.declared.exit.TheConstants.{FAULT};

use crate::output::print_text;
use crate::past_row::PastRow;
use crate::sale_story::SaleStory;
use crate::sale_word::read_sale;
use command_line::StoryOptions;
use devices::ReadFault;
use forecourt_engines::ReplayFault;
use history_folder::FolderWalk;
use past_rows::put_timed_words;
use program_io::{FAULT, exit_no_memory, exit_replay, exit_with};
use sales_table::SaleName;
use site_base::NoMemory;
use std::alloc::Global;
use std::process::ExitCode;
use std::rt::Files;

/// Prints the rows of one sale of the history in a folder, with their times, in words.
pub fn run_story<R: Files + Print + Eprint + AllocGlobal>(
    rt: &R,
    options: StoryOptions<'_>,
) -> ExitCode {
    let told = match read_sale(rt, options.sale) {
        Ok(sale) => tell_story(rt, options.history, &sale),
        Err(status) => Err(status),
    };
    match told {
        Ok(()) => ExitCode::SUCCESS,
        Err(status) => status,
    }
}

/// Prints the rows of this sale. Where the history has a fault nothing is printed: what is shown in
/// a dispute was read to its end.
fn tell_story<R: Files + Print + Eprint + AllocGlobal>(
    rt: &R,
    folder: &str,
    sale: &SaleName,
) -> Result<(), ExitCode> {
    let mut walk = FolderWalk::open(rt, folder)?;
    let mut story = SaleStory::new(rt.alloc(), sale);
    let mut text = Vec::new(rt.alloc());
    put_story(rt, folder, &mut walk, &mut story, &mut text)?;
    print_text(rt, &mut text)?;
    check_sold(rt, &story, sale)
}

/// How the program ends where the sale wasn't sold.
fn check_sold(rt: &impl Eprint, story: &SaleStory, sale: &SaleName) -> Result<(), ExitCode>
    ensures sold { OnOk result (story.now.sold ≡ true) }
    ensures missing { OnErr result (story.now.sold ≡ false) }
    ensures failed { IfErr result (λ status. exit_status status ≡ FAULT) }
{
    if story.is_sold() {
        return Ok(());
    }
    let (point, shift, number) = (sale.point.get(), sale.shift.get(), sale.number.get());
    Err(exit_with(
        eprintln!(rt; "no sale {point}/{shift}/{number}: forecourt sales lists them all"),
        FAULT,
    ))
}

/// Puts the rows of the story into the text.
fn put_story<R: Files + Eprint + AllocGlobal>(
    rt: &R,
    folder: &str,
    walk: &mut FolderWalk,
    story: &mut SaleStory,
    text: &mut Vec<u8>,
) -> Result<(), ExitCode>
    ensures { OnOk result (IsWhole walk.new) }
{
    for _ in 0..u64::MAX {
        let shift = walk.book().open_shift();
        let Some(row) = walk.next(rt, folder)? else {
            return Ok(());
        };
        let time = walk.end().time();
        if take_row(rt.alloc(), story, &PastRow { time, shift, row }, text).is_err() {
            return Err(exit_no_memory(rt));
        }
    }
    // No history has so many rows.
    Err(exit_replay(rt, Some(ReplayFault::Read(ReadFault::TurnLimit))))
}

/// Has the story take a row. Once the sale is sold, the rows that are kept are put into the text
/// and forgotten. After `NoMemory` no part of a row is in the text.
fn take_row(
    alloc: Global,
    story: &mut SaleStory,
    row: &PastRow,
    text: &mut Vec<u8>,
) -> Result<(), NoMemory> {
    story.take_row(row)?;
    if !story.is_sold() {
        return Ok(());
    }
    put_rows(alloc, story.rows(), text)?;
    story.forget_rows();
    Ok(())
}

/// Appends rows with their times, in words, a line for each. After `NoMemory` no part of a row is
/// in the text.
fn put_rows(alloc: Global, rows: &[PastRow], text: &mut Vec<u8>) -> Result<(), NoMemory> {
    for row in rows {
        let whole = text.len();
        if put_timed_words(alloc, row.time, &row.row, text).is_err() {
            text.truncate(whole);
            return Err(NoMemory);
        }
    }
    Ok(())
}
