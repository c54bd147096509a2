//! A folder's history, read.

ghost use Rattle.std.specs.Prelude.{◌≡◌, ◌≤◌, [], IfErr, IfOk, OnOk, string_bytes};
ghost use Rattle.site_book.specs.Unpaid.{GoesBy};
ghost use Rattle.chapters.specs.ChapterText.{site_name};
ghost use Rattle.chapters.specs.Readers.{HasRead};
ghost use Rattle.chapters.specs.declared.history_end.TheConstants.{MOST_CHAPTERS};
ghost use Rattle.history_folder.specs.Names.{IsChapter, chapter_name, path_in};
ghost use Rattle.history_folder.specs.Reading.{HasReadSome, IsRead};
ghost use Rattle.program_io.specs.Statuses.{IsFailed};

use crate::exit::{exit_folder, exit_history};
use crate::fault::fault_of;
use crate::listing::count_chapters;
use crate::names::{chapter_name, path_in};
use crate::site::read_folder_site;
use crate::whole_file::{flush_folder, read_flushed_file};
use chapters::{HistoryReader, ReadHistory, site_name};
use program_io::exit_no_memory;
use site_base::{NoMemory, SiteConfig};
use std::alloc::Global;
use std::process::ExitCode;
use std::rt::Files;

/// Reads the history in a folder. A torn last line of the last chapter is left out. A folder
/// without chapters is an empty history. If a file can't be read or has a fault, or a chapter is
/// missing, prints that and returns the exit status.
pub fn read_folder<R: Files + Eprint + AllocGlobal>(
    rt: &R,
    folder: &str,
) -> Result<ReadHistory, ExitCode>
    ensures read { IfOk result IsRead }
    ensures unpaid { IfOk result (λ read. GoesBy read.unpaid read.book) }
    ensures failed { IfErr result IsFailed }
{
    let (mut reader, count) = open_folder(rt, folder)?;
    match read_chapters(rt, folder, count, &mut reader) {
        Ok(()) => Ok(reader.into_read()),
        Err(status) => Err(status),
    }
}

/// A reader of the history in a folder, of which nothing is read yet, and how many chapters there
/// are. Or how the program ends: the site file can't be read or has a fault, or a chapter is
/// missing.
pub(crate) fn open_folder<R: Files + Eprint + AllocGlobal>(
    rt: &R,
    folder: &str,
) -> Result<(HistoryReader, u64), ExitCode>
    ensures none { IfOk result (λ opened. HasRead [] opened.0) }
    ensures most { IfOk result (λ opened. opened.1 ≤ MOST_CHAPTERS) }
    ensures failed { IfErr result IsFailed }
{
    let (config, site_file) = read_folder_site(rt, folder)?;
    let count = match count_chapters(rt, folder) {
        Ok(count) => count,
        Err(fault) => return Err(exit_folder(rt, folder, fault)),
    };
    match open_reader(rt.alloc(), &config, &site_file) {
        Ok(reader) => Ok((reader, count)),
        Err(_) => Err(exit_no_memory(rt)),
    }
}

/// A reader of the history of the site of this file.
fn open_reader(
    alloc: Global,
    config: &SiteConfig,
    site_file: &[u8],
) -> Result<HistoryReader, NoMemory>
    ensures { IfOk result (HasRead []) }
{
    HistoryReader::open(alloc, config, site_name(alloc, site_file)?)
}

/// Reads so many chapters, one after another.
fn read_chapters<R: Files + Eprint + AllocGlobal>(
    rt: &R,
    folder: &str,
    count: u64,
    reader: &mut HistoryReader,
) -> Result<(), ExitCode>
    requires none { HasRead [] reader.old }
    requires few { count ≤ MOST_CHAPTERS }
    ensures read { OnOk result (HasReadSome count reader.new) }
    ensures failed { IfErr result IsFailed }
{
    for place in 0..count {
        let text = read_chapter(rt, folder, place + 1, count)?;
        match reader.read_chapter(&text) {
            Ok(_) => {}
            Err(fault) => return Err(exit_history(rt, folder, fault)),
        }
    }
    Ok(())
}

/// The octets of the chapter of this number, of so many, or how the program ends. They are on the
/// disk then, also those of a closed chapter that a backup has just brought back; once the last one
/// is read, so are the names of all.
pub(crate) fn read_chapter<R: Files + Eprint + AllocGlobal>(
    rt: &R,
    folder: &str,
    number: u64,
    count: u64,
) -> Result<Vec<u8>, ExitCode>
    requires { IsChapter number }
    ensures failed { IfErr result IsFailed }
{
    match chapter_path(rt.alloc(), folder, number) {
        Ok(path) if number == count => read_last_chapter(rt, folder, path.as_str()),
        Ok(path) => read_flushed_file(rt, path.as_str()),
        Err(_) => Err(exit_no_memory(rt)),
    }
}

/// The octets of the last chapter, which has this path, once a power cut can't take them back; or
/// how the program ends.
///
/// A station may be writing behind them, and a start may put a copy in the file's place, which has
/// each whole line of it and is on the disk before it takes the name. So the order matters: they
/// are read, then the file that has the name is flushed, then the folder. Whichever file was
/// flushed has what was read, and so has each copy of it: the folder's flush then has the name
/// of one of them on the disk. If the folder were flushed first, a copy could take the name between
/// the two flushes: a power cut would bring the old file back, whose last octets nobody flushed.
fn read_last_chapter<R: Files + Eprint + AllocGlobal>(
    rt: &R,
    folder: &str,
    path: &str,
) -> Result<Vec<u8>, ExitCode>
    ensures failed { IfErr result IsFailed }
{
    let octets = read_flushed_file(rt, path)?;
    match flush_folder(rt, folder) {
        Ok(()) => Ok(octets),
        Err(error) => Err(exit_folder(rt, folder, fault_of(error))),
    }
}

/// The path of the chapter of this number.
fn chapter_path(alloc: Global, folder: &str, number: u64) -> Result<String, NoMemory>
    requires { IsChapter number }
    ensures { IfOk result (λ path.
        string_bytes path ≡ path_in folder.now (chapter_name number)) }
{
    let name = chapter_name(alloc, number)?;
    path_in(alloc, folder, name.as_str())
}
