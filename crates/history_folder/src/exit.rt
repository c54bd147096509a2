//! How the program ends if a history has a fault: the text on standard error, and the status.

ghost use Rattle.program_io.specs.Statuses.{IsFailed};

use crate::fault::FolderFault;
use chapters::HistoryFault;
use program_io::{FAULT, exit_no_memory, exit_unread, exit_with};
use std::process::ExitCode;

/// The line of a chapter that names the chapter.
const FIRST_LINE: u64 = 1;

/// The line of a chapter that names its site.
const SITE_LINE: u64 = 2;

/// Prints why the chapters of this folder can't be counted, and returns the exit status.
pub fn exit_folder<R: Eprint + AllocGlobal>(rt: &R, folder: &str, fault: FolderFault) -> ExitCode
    ensures { IsFailed result }
{
    match fault {
        FolderFault::NoMemory => exit_no_memory(rt),
        FolderFault::Unread(error) => exit_unread(rt, folder, &error),
        FolderFault::Missing(number) => exit_with(
            eprintln!(rt;
                "chapter {number} is missing\n\
                 put {folder}/{number:06}.journal back from a backup, or take the later ones out \
                 if they don't belong there"
            ),
            FAULT,
        ),
    }
}

/// Prints why the chapters of the history in this folder are refused, and below it which line of
/// which file that is and what to do. Returns the exit status.
pub fn exit_history(rt: &impl Eprint, folder: &str, fault: HistoryFault) -> ExitCode
    ensures { IsFailed result }
{
    match fault {
        HistoryFault::NoMemory => exit_no_memory(rt),
        HistoryFault::Line(number, line) => exit_line(rt, folder, number, line),
        HistoryFault::NotAfter(number, before) => exit_with(
            eprintln!(rt;
                "{fault}\n\
                 {folder}/{before:06}.journal doesn't end with the seal that \
                 {folder}/{number:06}.journal names: put back from a backup the one that was cut \
                 or changed, and take none out whose rows count"
            ),
            FAULT,
        ),
    }
}

/// Prints that this line of a chapter is refused, and returns the exit status.
fn exit_line(rt: &impl Eprint, folder: &str, number: u64, line: u64) -> ExitCode
    ensures { IsFailed result }
{
    let told = match line {
        FIRST_LINE => eprintln!(rt;
            "chapter {number} line {line}\n\
             {folder}/{number:06}.journal is empty, or begins as no chapter {number} does: put \
             the right file back from a backup (if it is the last one, see 'chapter N line 1' in \
             OPERATING.md)"
        ),
        SITE_LINE => eprintln!(rt;
            "history of another site\n\
             {folder}/{number:06}.journal names another site file than {folder}/site.toml: put \
             back from a backup the one that was changed, or take out the chapter of another \
             station"
        ),
        _ => eprintln!(rt;
            "chapter {number} line {line}\n\
             line {line} of {folder}/{number:06}.journal is torn or was edited, or, if it is a \
             seal, a line above it: see 'A chapter with a bad line' in OPERATING.md"
        ),
    };
    exit_with(told, FAULT)
}
