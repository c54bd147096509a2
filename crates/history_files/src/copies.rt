//! A file that gets its place in the folder as a whole: first it is there under another name.

ghost use Rattle.std.specs.Prelude.{◌≡◌, ◌++◌, IfOk, string_bytes};

use crate::files::open_by;
use crate::identity::is_at;
use crate::lock::lock;
use std::alloc::Global;
use std::fs::{File, OpenOptions};
use std::io::{ErrorKind, Write};
use std::os::unix::fs::{MetadataExt, fchown};
use std::rt::Files;
use std::{fs, io};

/// The ending that a copy's name has after the name of the file that it replaces.
pub const COPY_ENDING: &str = ".starting";

/// The file that has the name which a copy takes.
#[derive(Drop)]
pub enum Place<'a> {
    /// This one, which the copy replaces.
    Taken(&'a File),
    /// None.
    Free,
}

/// A copy that has taken its place, or why it hasn't.
#[derive(Drop)]
pub enum Put {
    /// It has taken its place. The caller has to flush the folder.
    Done(File),
    /// It hasn't. The file that was there stays, and no copy is left.
    Undone(io::Error),
    /// It is unknown which file has the name.
    Unknown,
}

/// Puts a copy with these octets under this name, and locks it. The copy has the owner and the
/// permissions of the file `like`; without one only its owner may use it. All of it is on the disk
/// before it takes the name.
pub fn put_copy<R: Files<File = File> + AllocGlobal>(
    rt: &R,
    place: &Place<'_>,
    like: Option<&File>,
    name: &str,
    octets: &[u8],
) -> Put {
    let copy_name = match copy_name(rt.alloc(), name) {
        Ok(copy_name) => copy_name,
        Err(error) => return Put::Undone(error),
    };
    let copy = match make_copy(rt, copy_name.as_str()) {
        Ok(copy) => copy,
        Err(error) => return Put::Undone(error),
    };
    match fill_and_rename(rt, place, like, name, &copy, copy_name.as_str(), octets) {
        Ok(()) if is_at(rt, name, &copy) => Put::Done(copy),
        Ok(()) => Put::Unknown,
        Err(_) if is_at(rt, name, &copy) => Put::Unknown,
        Err(error) => {
            if is_at(rt, copy_name.as_str(), &copy) {
                let _ = fs::remove_file(rt, &copy_name);
            }
            Put::Undone(error)
        }
    }
}

/// The name of the copy that takes the name of this file.
fn copy_name(alloc: Global, name: &str) -> io::Result<String>
    ensures { IfOk result (λ copy. string_bytes copy ≡ name.now ++ COPY_ENDING.now) }
{
    let mut copy = String::from_str(alloc, name)?;
    copy.push_str(COPY_ENDING)?;
    Ok(copy)
}

/// Makes a copy of this name, without octets, in place of what an earlier start has left.
fn make_copy<R: Files<File = File>>(rt: &R, copy_name: &str) -> io::Result<File> {
    remove_left(rt, copy_name)?;
    open_by(rt, OpenOptions::new().create_new(true), copy_name)
}

/// Removes the copy that a start has left which ended before it was in place. What is no file, or
/// is locked by somebody, is no such copy.
fn remove_left<R: Files<File = File>>(rt: &R, copy_name: &str) -> io::Result<()> {
    match fs::symlink_metadata(rt, copy_name) {
        Ok(found) if found.is_file() => {}
        Ok(_) => return Err(io::Error::from(ErrorKind::AlreadyExists)),
        Err(error) if error.kind() == ErrorKind::NotFound => return Ok(()),
        Err(error) => return Err(error),
    }
    match File::open(rt, copy_name) {
        Ok(left) => {
            lock(&left)?;
            if !is_at(rt, copy_name, &left) {
                return Err(io::Error::from(ErrorKind::WouldBlock));
            }
            fs::remove_file(rt, copy_name)
        }
        // That of another user, who started here before.
        Err(error) if error.kind() == ErrorKind::PermissionDenied => {
            fs::remove_file(rt, copy_name)
        }
        Err(error) => Err(error),
    }
}

/// Puts the octets into the copy, and gives it the name.
fn fill_and_rename(
    rt: &impl Files,
    place: &Place<'_>,
    like: Option<&File>,
    name: &str,
    copy: &File,
    copy_name: &str,
    octets: &[u8],
) -> io::Result<()> {
    fill_copy(like, copy, octets)?;
    take_place(rt, place, name, copy, copy_name)
}

/// Gives the copy the name, while it has its own, and the name is still that of the file whose
/// place it takes, or nobody's: what was moved away meanwhile stays where it is, and what has the
/// name then is another's.
fn take_place(
    rt: &impl Files,
    place: &Place<'_>,
    name: &str,
    copy: &File,
    copy_name: &str,
) -> io::Result<()> {
    if is_as_known(rt, place, name) && is_at(rt, copy_name, copy) {
        return fs::rename(rt, copy_name, name);
    }
    Err(io::Error::from(ErrorKind::NotFound))
}

/// Is the name that of the file that is known to have it?
fn is_as_known(rt: &impl Files, place: &Place<'_>, name: &str) -> bool {
    match place {
        Place::Taken(file) => is_at(rt, name, file),
        Place::Free => match fs::symlink_metadata(rt, name) {
            Ok(_) => false,
            Err(error) => error.kind() == ErrorKind::NotFound,
        },
    }
}

/// Locks a copy, and puts the octets into it, with the owner, where that may be, and the
/// permissions of the file that it is like.
fn fill_copy(like: Option<&File>, copy: &File, octets: &[u8]) -> io::Result<()> {
    lock(copy)?;
    let mut writer = copy;
    writer.write_all(octets)?;
    if let Some(file) = like {
        let found = file.metadata()?;
        let _ = fchown(copy, None, Some(found.gid()));
        let _ = fchown(copy, Some(found.uid()), None);
        copy.set_permissions(found.permissions())?;
    }
    copy.sync_all()
}
