//! The chapters that a folder has.

ghost use Rattle.std.specs.Prelude.{◌≤◌, IfOk};
ghost use Rattle.std.specs.List.{All};
ghost use Rattle.chapters.specs.declared.history_end.TheConstants.{MOST_CHAPTERS};
ghost use Rattle.history_folder.specs.Names.{IsChapter};

use crate::fault::{FolderFault, fault_of};
use crate::names::chapter_number;
use crate::numbers::last_of;
use std::fs;
use std::io::ErrorKind;
use std::rt::Files;

/// Counts the chapters in a folder. Files that don't have the name of a chapter don't count. If a
/// number is left out, the folder is listed once more: a list may have a chapter that has just
/// come, and not the one before it, which came in the meantime too.
///
/// `Unread` means that the folder can't be listed, and `Missing` that a number is left out.
pub fn count_chapters<R: Files + AllocGlobal>(rt: &R, folder: &str) -> Result<u64, FolderFault>
    ensures { IfOk result (λ count. count ≤ MOST_CHAPTERS) }
{
    match count_listed(rt, folder) {
        Err(FolderFault::Missing(_)) => count_listed(rt, folder),
        counted => counted,
    }
}

/// How many chapters a list of a folder has.
fn count_listed<R: Files + AllocGlobal>(rt: &R, folder: &str) -> Result<u64, FolderFault>
    ensures { IfOk result (λ count. count ≤ MOST_CHAPTERS) }
{
    match list_chapters(rt, folder) {
        Ok(numbers) => last_of(numbers),
        Err(fault) => Err(fault),
    }
}

/// The numbers of the chapters of a folder, in any order.
fn list_chapters<R: Files + AllocGlobal>(rt: &R, folder: &str) -> Result<Vec<u64>, FolderFault>
    ensures { IfOk result (λ numbers. All IsChapter numbers.items) }
{
    let entries = match fs::read_dir(&rt, folder) {
        Ok(entries) => entries,
        Err(error) => return Err(fault_of(error)),
    };
    let mut numbers = Vec::new(rt.alloc());
    for entry in entries {
        match entry {
            Ok(entry) => {
                if let Some(number) = chapter_number(entry.file_name()) {
                    numbers.push(number)?;
                }
            }
            // A name that isn't text is no chapter's.
            Err(error) if error.kind() == ErrorKind::InvalidFilename => {}
            Err(error) => return Err(fault_of(error)),
        }
    }
    Ok(numbers)
}
