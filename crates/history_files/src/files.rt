//! Opens the files of a history's folder, and the folder.

ghost use Rattle.std.specs.Prelude.{IfErr};
ghost use Rattle.history_files.specs.Opening.{IsUnopened};

use crate::fault::{FileFault, fault_of};
use crate::identity::is_at;
use crate::lock::lock;
use crate::streams::check_streams;
use std::fs::{DirBuilder, File, OpenOptions};
use std::io::ErrorKind;
use std::os::unix::fs::{DirBuilderExt, OpenOptionsExt};
use std::rt::Files;
use std::{fs, io};

/// The permissions of a new file: its owner reads and writes it, and nobody else.
const OWNER_ALONE: u32 = 0o600;

/// The permissions of a new folder: its owner uses it, and nobody else.
const OWNERS_FOLDER: u32 = 0o700;

/// Makes the folder of this name. Its parent folder has to be there.
pub fn make_folder(rt: &impl Files, folder: &str) -> io::Result<()> {
    DirBuilder::new().mode(OWNERS_FOLDER).create(rt, folder)
}

/// Flushes the list of the files that the folder of this name has.
pub fn flush_folder<R: Files<File = File>>(rt: &R, folder: &str) -> io::Result<()> {
    OpenOptions::new().read(true).open(rt, folder)?.sync_all()
}

/// Opens the file of this name, or makes it, for this process alone. The file is locked, and the
/// process doesn't print into it. `InUse` if another process has it, or has replaced it.
pub fn open_alone<R: Files<File = File>>(rt: &R, name: &str) -> Result<File, FileFault> {
    let file = open_or_make(rt, name)?;
    check_streams(rt, &file)?;
    match lock(&file) {
        Ok(()) => {}
        Err(error) if error.kind() == ErrorKind::WouldBlock => return Err(FileFault::InUse),
        Err(error) => return Err(fault_of(error)),
    }
    if is_at(rt, name, &file) {
        Ok(file)
    } else {
        Err(FileFault::InUse)
    }
}

/// Opens the file of this name, or makes it. What is no file is `NoFile`, and so is a link.
fn open_or_make<R: Files<File = File>>(rt: &R, name: &str) -> Result<File, FileFault>
    ensures { IfErr result IsUnopened }
{
    match fs::symlink_metadata(rt, name) {
        Ok(found) if !found.is_file() => return Err(FileFault::NoFile),
        Err(error) if error.kind() != ErrorKind::NotFound => return Err(fault_of(error)),
        _ => {}
    }
    match open_by(rt, OpenOptions::new().create(true), name) {
        Ok(file) => Ok(file),
        Err(error) => Err(fault_of(error)),
    }
}

/// Opens a file with these options, for reads and for appends. It doesn't get the descriptor of a
/// standard stream, even if that is closed.
pub fn open_by<R: Files<File = File>>(
    rt: &R,
    options: &mut OpenOptions,
    name: &str,
) -> io::Result<File> {
    options.read(true).append(true).mode(OWNER_ALONE);
    options.open(rt, name)?.try_clone()
}

/// Reads all octets of the file of this name. They are flushed before it returns, because whoever
/// put the file there (for example a restored backup) may not have flushed it. None of anything but
/// a regular file, which isn't opened: reading it might never end.
pub fn read_file<R: Files<File = File> + AllocGlobal>(
    rt: &R,
    name: &str,
) -> io::Result<Option<Vec<u8>>> {
    if !fs::metadata(rt, name)?.is_file() {
        return Ok(None);
    }
    let octets = fs::read(rt, name)?;
    File::open(rt, name)?.sync_data()?;
    Ok(Some(octets))
}
