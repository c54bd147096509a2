//! `forecourt replay FOLDER [--changes | --json] [--shift A[..B]] [--from N]` and
//! `forecourt explain FOLDER [--shift A[..B]] [--times]`.

ghost use Rattle.std.specs.Prelude.{OnOk};
ghost use Rattle.history_folder.specs.Reading.{IsWhole};

use crate::asked_rows::AskedRows;
use crate::output::{print_piece, print_text};
use crate::row_form::{FormKind, RowForm};
use command_line::{ExplainOptions, ReplayOptions};
use devices::ReadFault;
use forecourt_engines::ReplayFault;
use history_folder::FolderWalk;
use program_io::{exit_no_memory, exit_replay};
use std::process::ExitCode;
use std::rt::Files;

/// Prints the replies to the rows of the history in a folder, or the rows as JSON.
pub fn run_replay_folder<R: Files + Print + Eprint + AllocGlobal>(
    rt: &R,
    options: ReplayOptions<'_>,
) -> ExitCode {
    let kind = if options.json {
        FormKind::Json
    } else {
        FormKind::Reply {
            changes: options.changes,
        }
    };
    run_rows(rt, options.site, options.shift, options.from, kind)
}

/// Prints the rows of the history in a folder in words, one line for each. With `--times` the row's
/// time is at the front of its line.
pub fn run_explain_folder<R: Files + Print + Eprint + AllocGlobal>(
    rt: &R,
    folder: &str,
    options: ExplainOptions<'_>,
) -> ExitCode {
    let kind = if options.times {
        FormKind::TimedWords
    } else {
        FormKind::Words
    };
    run_rows(rt, folder, options.shift, None, kind)
}

/// Prints the rows of a folder in a form of this kind: those of all shifts or of those that a word
/// says, from the row on that another one says.
fn run_rows<R: Files + Print + Eprint + AllocGlobal>(
    rt: &R,
    folder: &str,
    shift: Option<&str>,
    from: Option<&str>,
    kind: FormKind,
) -> ExitCode {
    let printed = match AskedRows::read(rt, shift, from) {
        Ok(asked) => print_rows(rt, folder, &asked, kind),
        Err(status) => Err(status),
    };
    match printed {
        Ok(()) => ExitCode::SUCCESS,
        Err(status) => status,
    }
}

/// Prints these rows. Behind a fault of the history, too, what stands before it is printed.
fn print_rows<R: Files + Print + Eprint + AllocGlobal>(
    rt: &R,
    folder: &str,
    asked: &AskedRows,
    kind: FormKind,
) -> Result<(), ExitCode> {
    let mut walk = FolderWalk::open(rt, folder)?;
    let Ok(mut form) = RowForm::open(rt.alloc(), kind, walk.book().config()) else {
        return Err(exit_no_memory(rt));
    };
    let mut text = Vec::new(rt.alloc());
    let ended = put_all(rt, folder, &mut walk, asked, &mut form, &mut text);
    print_text(rt, &mut text)?;
    asked.check(rt, ended?, walk.book().open_shift())
}

/// Puts these rows into the text, which is printed piece after piece. It says how many rows the
/// history has.
fn put_all<R: Files + Print + Eprint + AllocGlobal>(
    rt: &R,
    folder: &str,
    walk: &mut FolderWalk,
    asked: &AskedRows,
    form: &mut RowForm,
    text: &mut Vec<u8>,
) -> Result<u64, ExitCode>
    ensures { OnOk result (IsWhole walk.new) }
{
    for number in 0..u64::MAX {
        let shift = walk.book().open_shift();
        let Some(row) = walk.next(rt, folder)? else {
            return Ok(number);
        };
        let (time, is_asked) = (walk.end().time(), asked.has(number, shift));
        let whole = text.len();
        if form
            .put(rt.alloc(), number, time, &row, is_asked, text)
            .is_err()
        {
            // What there is of this row isn't printed.
            text.truncate(whole);
            return Err(exit_no_memory(rt));
        }
        print_piece(rt, text)?;
    }
    // No history has so many rows.
    Err(exit_replay(rt, Some(ReplayFault::Read(ReadFault::TurnLimit))))
}
