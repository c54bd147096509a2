//! The folder of a history, for one process alone.

ghost use Rattle.std.specs.Prelude.{◌≡◌, ◌-◌, IfOk, string_bytes};
ghost use Rattle.history_folder.specs.Names.{IsChapter, chapter_name, path_in};
ghost use Rattle.history_files.specs.Counts.{chapters_closed, chapters_found, octets_flushed};
ghost use Rattle.history_files.specs.Counts.{octets_put};

use crate::copies::{Place, Put, put_copy};
use crate::fault::{FileFault, fault_of, fault_of_folder, fault_of_making, fault_of_write};
use crate::files::{flush_folder, make_folder, open_alone, read_file};
use crate::history_disk::HistoryDisk;
use crate::locked::HistoryFolder;
use crate::streams::check_all_streams;
use history_folder::{SITE_FILE, chapter_name, count_chapters, path_in};
use site_base::NoMemory;
use std::alloc::Global;
use std::fs::File;
use std::io::ErrorKind;
use std::rt::Files;

/// The file by whose lock a folder is one process's alone.
const LOCK: &str = "lock";

impl<'a, R: Files<File = File> + AllocGlobal> HistoryFolder<'a, R> {
    /// Locks the folder of this name. Makes it if it isn't there, but not its parent folder.
    ///
    /// `InUse` means that another process has it, and `Missing` that the number of a chapter is
    /// left out.
    pub fn lock(rt: &'a R, folder: &str) -> Result<HistoryFolder<'a, R>, FileFault> {
        make_for_good(rt, folder)?;
        check_output(rt, folder)?;
        let path = path_in(rt.alloc(), folder, LOCK)?;
        let lock = match open_alone(rt, path.as_str()) {
            Ok(lock) => lock,
            Err(FileFault::NoFile) => return Err(FileFault::NoLock),
            Err(fault) => return Err(fault),
        };
        match flush_folder(rt, folder) {
            Ok(()) => {}
            Err(error) => return Err(fault_of_write(error)),
        }
        let chapters = match count_chapters(rt, folder) {
            Ok(chapters) => chapters,
            Err(fault) => return Err(fault_of_folder(fault)),
        };
        Ok(HistoryFolder {
            rt,
            folder: String::from_str(rt.alloc(), folder)?,
            lock,
            chapters,
        })
    }

    /// Returns the number of its chapters.
    pub fn chapters(&self) -> u64
        ensures { result ≡ chapters_found self.now }
    {
        self.chapters
    }

    /// Returns the octets of its site file; None if it has none.
    pub fn site_file(&self) -> Result<Option<Vec<u8>>, FileFault> {
        let path = path_in(self.rt.alloc(), self.folder.as_str(), SITE_FILE)?;
        match read_file(self.rt, path.as_str()) {
            Ok(Some(octets)) => Ok(Some(octets)),
            Ok(None) => Err(FileFault::NoFile),
            Err(error) if error.kind() == ErrorKind::NotFound => Ok(None),
            Err(error) => Err(fault_of(error)),
        }
    }

    /// Keeps these octets as its site file, of which there is none yet. They are on the disk before
    /// it returns.
    pub fn keep_site_file(&self, octets: &[u8]) -> Result<(), FileFault> {
        let path = path_in(self.rt.alloc(), self.folder.as_str(), SITE_FILE)?;
        match put_copy(self.rt, &Place::Free, None, path.as_str(), octets) {
            Put::Done(_) => {}
            Put::Undone(error) if is_blocked(error.kind()) => return Err(FileFault::Blocked),
            Put::Undone(error) => return Err(fault_of_write(error)),
            Put::Unknown => return Err(FileFault::Blocked),
        }
        match flush_folder(self.rt, self.folder.as_str()) {
            Ok(()) => Ok(()),
            Err(error) => Err(fault_of_write(error)),
        }
    }

    /// Returns its chapters as a disk, whose last chapter is open. If there is none yet, the first
    /// one is made when the disk is renewed.
    ///
    /// `InUse` means that another process has the last chapter, or has begun one more: it can, if
    /// somebody has removed the folder's lock.
    pub fn into_disk(self) -> Result<HistoryDisk<'a, R>, FileFault>
        ensures closed { IfOk result (λ disk.
            chapters_closed disk ≡ chapters_found self.entry - 1) }
        ensures put { IfOk result (λ disk. octets_put disk ≡ 0) }
        ensures flushed { IfOk result (λ disk. octets_flushed disk ≡ 0) }
    {
        let HistoryFolder {
            rt,
            folder,
            lock,
            chapters,
        } = self;
        let closed = chapters.saturating_sub(1);
        let path = chapter_path(rt.alloc(), folder.as_str(), closed + 1)?;
        let open = if chapters == 0 {
            None
        } else {
            Some(open_chapter(rt, path.as_str())?)
        };
        check_count(rt, folder.as_str(), chapters)?;
        Ok(HistoryDisk {
            rt,
            folder,
            lock,
            closed,
            path,
            open,
            len: 0,
            flushed: 0,
            is_own: false,
        })
    }
}

/// Does the error say that something else has the name of a file that is put there, or that of its
/// copy?
fn is_blocked(kind: ErrorKind) -> bool {
    matches!(
        kind,
        ErrorKind::AlreadyExists | ErrorKind::NotFound | ErrorKind::WouldBlock
    )
}

/// Opens the last chapter, which has this path, for this process alone.
fn open_chapter<R: Files<File = File>>(rt: &R, path: &str) -> Result<File, FileFault> {
    match open_alone(rt, path) {
        Err(FileFault::NoFile) => Err(FileFault::NoChapter),
        opened => opened,
    }
}

/// Fails where the folder hasn't so many chapters any more.
fn check_count<R: Files + AllocGlobal>(
    rt: &R,
    folder: &str,
    chapters: u64,
) -> Result<(), FileFault> {
    match count_chapters(rt, folder) {
        Ok(found) if found == chapters => Ok(()),
        Ok(_) => Err(FileFault::InUse),
        Err(fault) => Err(fault_of_folder(fault)),
    }
}

/// Fails where the process prints into a file of this folder, whoever has it: a fault that is said
/// later would be written there.
fn check_output<R: Files<File = File> + AllocGlobal>(
    rt: &R,
    folder: &str,
) -> Result<(), FileFault> {
    match count_chapters(rt, folder) {
        Ok(chapters) => check_all_streams(rt, folder, chapters),
        // Chapters that can't be counted are said once the folder is locked.
        Err(_) => check_all_streams(rt, folder, 0),
    }
}

/// Makes the folder of this name, if it isn't there, and has it on the disk.
fn make_for_good<R: Files<File = File> + AllocGlobal>(
    rt: &R,
    folder: &str,
) -> Result<(), FileFault> {
    let above = path_in(rt.alloc(), folder, "..")?;
    match make_folder(rt, folder) {
        Ok(()) => match flush_folder(rt, above.as_str()) {
            Ok(()) => Ok(()),
            Err(error) => Err(fault_of_write(error)),
        },
        // An earlier start may have ended before it did this.
        Err(error) if error.kind() == ErrorKind::AlreadyExists => flush_again(rt, above.as_str()),
        Err(error) => Err(fault_of_making(error)),
    }
}

/// Has on the disk which folders this one has, unless it can't be looked at, or has no flush: then
/// somebody else has made what is in it. What has the folder's name and is no folder is refused as
/// its lock is opened.
fn flush_again<R: Files<File = File>>(rt: &R, above: &str) -> Result<(), FileFault> {
    match flush_folder(rt, above) {
        Err(error) if !is_anothers(error.kind()) && !is_no_folder(error.kind()) => {
            Err(fault_of_write(error))
        }
        _ => Ok(()),
    }
}

/// Does the error say that this user can't flush a folder?
fn is_anothers(kind: ErrorKind) -> bool {
    matches!(
        kind,
        ErrorKind::PermissionDenied
            | ErrorKind::InvalidInput
            | ErrorKind::ReadOnlyFilesystem
            | ErrorKind::Unsupported
    )
}

/// Does the error say that no folder is there?
fn is_no_folder(kind: ErrorKind) -> bool {
    matches!(
        kind,
        ErrorKind::NotFound | ErrorKind::NotADirectory | ErrorKind::FilesystemLoop
    )
}

/// The path of the chapter of this number.
pub(crate) fn chapter_path(alloc: Global, folder: &str, number: u64) -> Result<String, NoMemory>
    requires { IsChapter number }
    ensures { IfOk result (λ path.
        string_bytes path ≡ path_in folder.now (chapter_name number)) }
{
    let name = chapter_name(alloc, number)?;
    path_in(alloc, folder, name.as_str())
}
