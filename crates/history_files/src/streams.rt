//! The standard streams of the process, which may lead to a file of the history.

ghost use Rattle.std.specs.Prelude.{◌≡◌, ◌≤◌, ◌⊎◌, IfErr};
ghost use Rattle.chapters.specs.declared.history_end.TheConstants.{MOST_CHAPTERS};

use crate::fault::FileFault;
use crate::identity::{is_same, is_written_by};
use history_folder::{SITE_FILE, chapter_name, path_in};
use std::fs;
use std::fs::{File, Metadata};
use std::rt::Files;

/// Where this process prints.
const OUTPUT: &str = "/dev/stdout";

/// Where it prints its faults.
const ERRORS: &str = "/dev/stderr";

/// Fails if the process prints into this file: `Untold` if its standard error leads there, `InUse`
/// if its standard output does.
pub fn check_streams(rt: &impl Files, file: &File) -> Result<(), FileFault>
    ensures { IfErr result (λ f. (f ≡ FileFault.Untold) ⊎ (f ≡ FileFault.InUse)) }
{
    if is_written_by(rt, ERRORS, file) {
        return Err(FileFault::Untold);
    }
    if is_written_by(rt, OUTPUT, file) {
        return Err(FileFault::InUse);
    }
    Ok(())
}

/// Fails if the process prints into the site file or one of the `chapters` chapters of this folder.
pub fn check_all_streams<R: Files + AllocGlobal>(
    rt: &R,
    folder: &str,
    chapters: u64,
) -> Result<(), FileFault>
    requires { chapters ≤ MOST_CHAPTERS }
{
    if is_printed_into(rt, ERRORS, folder, chapters)? {
        return Err(FileFault::Untold);
    }
    if is_printed_into(rt, OUTPUT, folder, chapters)? {
        return Err(FileFault::InUse);
    }
    Ok(())
}

/// Does this stream go to the site file or to a chapter of this folder, which has so many?
fn is_printed_into<R: Files + AllocGlobal>(
    rt: &R,
    stream: &str,
    folder: &str,
    chapters: u64,
) -> Result<bool, FileFault>
    requires { chapters ≤ MOST_CHAPTERS }
{
    let found = match fs::metadata(rt, stream) {
        Ok(found) if found.is_file() => found,
        _ => return Ok(false),
    };
    if is_in(rt, folder, SITE_FILE, &found)? {
        return Ok(true);
    }
    for place in 0..chapters {
        let name = chapter_name(rt.alloc(), place + 1)?;
        if is_in(rt, folder, name.as_str(), &found)? {
            return Ok(true);
        }
    }
    Ok(false)
}

/// Is this what is found of the file of this name in the folder?
fn is_in<R: Files + AllocGlobal>(
    rt: &R,
    folder: &str,
    name: &str,
    found: &Metadata,
) -> Result<bool, FileFault> {
    let path = path_in(rt.alloc(), folder, name)?;
    match fs::metadata(rt, path.as_str()) {
        Ok(there) => Ok(is_same(&there, found)),
        Err(_) => Ok(false),
    }
}
