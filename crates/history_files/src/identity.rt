//! Whether two names lead to the same file.

ghost use Rattle.std.specs.Prelude.{◌≡◌, IsErr, false};

use std::fs::{File, Metadata};
use std::os::unix::fs::MetadataExt;
use std::rt::Files;
use std::{fs, io};

/// Does this name lead to this file, and not by a link? Another process may have put another file
/// in its place.
pub fn is_at(rt: &impl Files, name: &str, file: &File) -> bool {
    is_of(fs::symlink_metadata(rt, name), file)
}

/// Does this stream of the process go to the file?
pub fn is_written_by(rt: &impl Files, stream: &str, file: &File) -> bool {
    is_of(fs::metadata(rt, stream), file)
}

/// Is this what is found of the file?
fn is_of(found: io::Result<Metadata>, file: &File) -> bool
    ensures unknown { IsErr found → result ≡ false }
{
    match (found, file.metadata()) {
        (Ok(there), Ok(here)) => is_same(&there, &here),
        _ => false,
    }
}

/// Do these two belong to the same file?
pub fn is_same(there: &Metadata, here: &Metadata) -> bool {
    there.dev() == here.dev() && there.ino() == here.ino()
}
