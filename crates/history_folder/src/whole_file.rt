//! Reads the files of a folder.

ghost use Rattle.std.specs.Prelude.{IfErr};
ghost use Rattle.program_io.specs.Statuses.{IsFailed};

use program_io::{FAULT, exit_unread, exit_with, read_file};
use std::fs::{self, File, OpenFile};
use std::io::{self, ErrorKind};
use std::process::ExitCode;
use std::rt::Files;

/// The octets of the file of this name, or how the program ends: it can't be read, or is a pipe, a
/// device or another thing that may have no end.
fn read_whole_file<R: Files + Eprint + AllocGlobal>(rt: &R, name: &str) -> Result<Vec<u8>, ExitCode>
    ensures failed { IfErr result IsFailed }
{
    match fs::metadata(rt, name) {
        Ok(found) if !found.is_file() => {
            Err(exit_with(
                eprintln!(rt; "cannot read {name}: not a regular file"),
                FAULT,
            ))
        }
        _ => read_file(rt, name),
    }
}

/// The octets of the file of this name, once they are on the disk, or how the program ends, as
/// `read_whole_file` says, or since they can't be flushed. Whoever writes behind them may not have
/// flushed them yet: what is told of them could be lost by a power cut.
pub(crate) fn read_flushed_file<R: Files + Eprint + AllocGlobal>(
    rt: &R,
    name: &str,
) -> Result<Vec<u8>, ExitCode>
    ensures failed { IfErr result IsFailed }
{
    let octets = read_whole_file(rt, name)?;
    match flush_octets(rt, name) {
        Ok(()) => Ok(octets),
        Err(error) => Err(exit_unread(rt, name, &error)),
    }
}

/// Has all octets of this file on the disk, if there is something to be flushed.
fn flush_octets(rt: &impl Files, name: &str) -> io::Result<()> {
    settle_flush(File::open(rt, name)?.sync_data())
}

/// Has on the disk which files have the names of this folder, if there is something to be flushed.
pub(crate) fn flush_folder(rt: &impl Files, folder: &str) -> io::Result<()> {
    settle_flush(File::open(rt, folder)?.sync_all())
}

/// How a flush ended: well too if the file system can't be written, or has no flush.
fn settle_flush(flushed: io::Result<()>) -> io::Result<()> {
    match flushed {
        Err(error) if has_no_flush(error.kind()) => Ok(()),
        ended => ended,
    }
}

/// Does the error say that there is nothing to be flushed: that the file system can't be written,
/// or has no flush?
fn has_no_flush(kind: ErrorKind) -> bool {
    matches!(
        kind,
        ErrorKind::InvalidInput | ErrorKind::ReadOnlyFilesystem | ErrorKind::Unsupported
    )
}
