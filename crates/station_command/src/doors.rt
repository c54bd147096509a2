//! The doors of a station: which nodes have one, the feed's door, and the sockets at which the
//! station listens.

ghost use Rattle.program_io.specs.Statuses.{IsFailed};
ghost use Rattle.std.specs.Prelude.{IfErr};

use device_map::{dispenser, till};
use mio::net::{UnixListener, UnixStream};
use program_io::{FAULT, exit_no_memory, exit_unread, exit_with, words_of};
use site_base::{FpNo, NoMemory, TillNo};
use station::Gates;
use station_server::Doors;
use std::alloc::AllocError;
use std::fs::{File, TryLockError};
use std::io::ErrorKind;
use std::net::Net;
use std::os::unix::fs::FileTypeExt;
use std::process::ExitCode;
use std::rt::Files;
use std::{fs, io};

/// The name of the feed's door.
const FEED_DOOR: &str = "feed";

/// The doors of a station, who may send at each, and the sockets that were made for them.
#[derive(Drop)]
pub struct OpenDoors {
    pub doors: Doors,
    pub gates: Gates,
    pub sockets: Sockets,
}

/// The sockets that a start has made, and the lock of the folder of their doors. While one station
/// has the lock, no other station replaces its sockets as ones that an earlier run left.
#[derive(Drop)]
pub struct Sockets {
    lock: Option<File>,
    paths: Vec<String>,
}

impl Sockets {
    /// Removes the sockets.
    pub fn remove<R: Files>(&self, rt: &R) {
        for path in &self.paths {
            if is_socket(rt, path.as_str()) {
                let _ = fs::remove_file(rt, path.as_str());
            }
        }
    }
}

/// Why a door isn't opened. The text is the name of its folder.
#[derive(Drop)]
enum DoorFault {
    NoMemory,
    /// The folder of the doors can't be listed.
    Unread(io::Error),
    /// No node has this name.
    NoNode(String),
    /// Somebody answers at its socket.
    InUse(String),
    /// Something that is no socket has its name.
    Taken(String),
    /// It can't be listened at.
    Deaf(String, io::Error),
}

impl From<AllocError> for DoorFault {
    fn from(_e: AllocError) -> DoorFault {
        DoorFault::NoMemory
    }
}

impl From<NoMemory> for DoorFault {
    fn from(_e: NoMemory) -> DoorFault {
        DoorFault::NoMemory
    }
}

/// What is in the way of listening at a socket.
#[derive(Drop)]
enum SocketFault {
    InUse,
    Taken,
    Deaf(io::Error),
}

/// Listens at the doors of this folder, if one is given: at the socket of each subfolder that has
/// the name of a node, or that of the feed's door. If there is no node's, prints who may connect
/// then; it is a fault if nobody could. On an error, removes the sockets, prints why and returns
/// the exit status.
pub fn open_doors<R: Files<File = File> + Net + Eprint + AllocGlobal>(
    rt: &R,
    folder: Option<&str>,
    has_port: bool,
) -> Result<OpenDoors, ExitCode>
    ensures { IfErr result IsFailed }
{
    let mut open = OpenDoors {
        doors: Doors::new(rt.alloc()),
        gates: Gates::new(rt.alloc()),
        sockets: Sockets {
            lock: None,
            paths: Vec::new(rt.alloc()),
        },
    };
    let Some(folder) = folder else {
        return Ok(open);
    };
    let end = match open_each(rt, folder, &mut open) {
        Ok(()) => check_doors(rt, folder, has_port, &open.doors),
        Err(fault) => Err(exit_door(rt, folder, &fault)),
    };
    match end {
        Ok(()) => Ok(open),
        Err(status) => {
            open.sockets.remove(rt);
            Err(status)
        }
    }
}

/// Prints that this folder has no door of a till or dispenser, if it has none, and who may connect
/// then. If nobody could, the program ends.
fn check_doors(
    rt: &impl Eprint,
    folder: &str,
    has_port: bool,
    doors: &Doors,
) -> Result<(), ExitCode>
    ensures { IfErr result IsFailed }
{
    if doors.len() > 0 {
        return Ok(());
    }
    if has_port {
        let _ = eprintln!(rt; "no doors in {folder}: each node may connect over TCP");
        return Ok(());
    }
    if doors.has_feed() {
        let _ = eprintln!(rt; "no doors in {folder}: no till and no dispenser can connect");
        return Ok(());
    }
    let advice = "nobody could connect: make a folder for each node in it, or give --port";
    Err(exit_with(eprintln!(rt; "no doors in {folder}\n{advice}"), FAULT))
}

/// Opens each door of a folder, once each has the name of a node, and no other station has them.
fn open_each<R: Files<File = File> + Net + AllocGlobal>(
    rt: &R,
    folder: &str,
    open: &mut OpenDoors,
) -> Result<(), DoorFault> {
    let mut names = list_folders(rt, folder)?;
    names.sort()?;
    check_names(&names)?;
    if let Some(first) = names.first() {
        open.sockets.lock = Some(lock_doors(rt, folder, first.as_str())?);
    }
    for name in names {
        open_door(rt, folder, name, open)?;
    }
    Ok(())
}

/// The names of the folders in a folder, in any order. One whose name isn't text is no node's.
fn list_folders<R: Files + AllocGlobal>(rt: &R, folder: &str) -> Result<Vec<String>, DoorFault> {
    let entries = fs::read_dir(&rt, folder).map_err(DoorFault::Unread)?;
    let mut names = Vec::new(rt.alloc());
    for entry in entries {
        let entry = entry.map_err(DoorFault::Unread)?;
        let name = entry.file_name().to_string(rt.alloc())?;
        match fs::metadata(rt, entry.path()) {
            Ok(found) if !found.is_dir() => {}
            Ok(_) => names.push(name).map_err(|_| DoorFault::NoMemory)?,
            Err(error) => return Err(DoorFault::Deaf(name, error)),
        }
    }
    Ok(names)
}

/// The first of these names that is no node's, and not that of the feed's door, is a fault.
fn check_names(names: &[String]) -> Result<(), DoorFault> {
    for name in names {
        if name.as_str() != FEED_DOOR && node_named(name.as_str()).is_none() {
            return Err(DoorFault::NoNode(name.clone()?));
        }
    }
    Ok(())
}

/// Locks a folder of doors, of which this one is the first.
fn lock_doors<R: Files<File = File> + AllocGlobal>(
    rt: &R,
    folder: &str,
    first: &str,
) -> Result<File, DoorFault> {
    let file = File::open(rt, folder).map_err(DoorFault::Unread)?;
    match file.try_lock() {
        Ok(()) => Ok(file),
        Err(TryLockError::WouldBlock) => Err(DoorFault::InUse(first.to_string(rt.alloc())?)),
        Err(TryLockError::Error(error)) => Err(DoorFault::Unread(error)),
    }
}

/// Listens at the door of this name, and lets its node speak there alone. At the feed's nobody
/// speaks.
fn open_door<R: Files<File = File> + Net + AllocGlobal>(
    rt: &R,
    folder: &str,
    name: String,
    open: &mut OpenDoors,
) -> Result<(), DoorFault> {
    let path = format!(in rt.alloc(); "{folder}/{name}/socket")?;
    open.sockets.paths.reserve(1)?;
    match listen_at(rt, path.as_str()) {
        Ok(listener) => {
            open.sockets
                .paths
                .push(path)
                .map_err(|_| DoorFault::NoMemory)?;
            add_door(name, listener, open)
        }
        Err(SocketFault::InUse) => Err(DoorFault::InUse(name)),
        Err(SocketFault::Taken) => Err(DoorFault::Taken(name)),
        Err(SocketFault::Deaf(error)) => Err(DoorFault::Deaf(name, error)),
    }
}

/// The door of this name has this listener.
fn add_door(name: String, listener: UnixListener, open: &mut OpenDoors) -> Result<(), DoorFault> {
    if name.as_str() == FEED_DOOR {
        open.doors.set_feed(listener);
        return Ok(());
    }
    let Some(node) = node_named(name.as_str()) else {
        return Err(DoorFault::NoNode(name));
    };
    let _ = open.gates.add_door(node)?;
    open.doors.add(listener)?;
    Ok(())
}

/// The node of the door of this name: `till-01` to `till-32`, `dispenser-01` to `dispenser-64`.
fn node_named(name: &str) -> Option<[u8; 2]> {
    let (kind, word) = name.split_once('-')?;
    let number = two_digits(word)?;
    match kind {
        "till" => Some(till(TillNo::new(number)?)),
        "dispenser" => Some(dispenser(FpNo::new(number)?)),
        _ => None,
    }
}

/// The number that a word of two digits tells.
fn two_digits(word: &str) -> Option<u8> {
    let digits = word.as_bytes();
    if digits.len() != 2 || !digits[0].is_ascii_digit() || !digits[1].is_ascii_digit() {
        return None;
    }
    Some(10 * (digits[0] - b'0') + (digits[1] - b'0'))
}

/// Listens at a Unix socket. One that an earlier run left is replaced.
fn listen_at<R: Files + Net>(rt: &R, path: &str) -> Result<UnixListener, SocketFault> {
    match UnixListener::bind(rt, path) {
        Ok(listener) => Ok(listener),
        Err(error) if error.kind() == ErrorKind::AddrInUse => replace_socket(rt, path),
        Err(error) => Err(SocketFault::Deaf(error)),
    }
}

/// Listens at a socket in the place of one at which nobody answers.
fn replace_socket<R: Files + Net>(rt: &R, path: &str) -> Result<UnixListener, SocketFault> {
    if !is_socket(rt, path) {
        return Err(SocketFault::Taken);
    }
    match UnixStream::connect(rt, path) {
        Ok(_) => return Err(SocketFault::InUse),
        Err(error) => match error.kind() {
            ErrorKind::ConnectionRefused => {}
            ErrorKind::WouldBlock => return Err(SocketFault::InUse),
            _ => return Err(SocketFault::Deaf(error)),
        },
    }
    bind_anew(rt, path).map_err(SocketFault::Deaf)
}

/// Removes what has this name, and listens there.
fn bind_anew<R: Files + Net>(rt: &R, path: &str) -> io::Result<UnixListener> {
    fs::remove_file(rt, path)?;
    UnixListener::bind(rt, path)
}

/// Is what has this name a socket?
fn is_socket<R: Files>(rt: &R, path: &str) -> bool {
    match fs::symlink_metadata(rt, path) {
        Ok(found) => found.file_type().is_socket(),
        Err(_) => false,
    }
}

/// Says why a door of this folder isn't opened.
fn exit_door<R: Eprint + AllocGlobal>(rt: &R, folder: &str, fault: &DoorFault) -> ExitCode
    ensures { IsFailed result }
{
    match fault {
        DoorFault::NoMemory => exit_no_memory(rt),
        DoorFault::Unread(error) => {
            let status = exit_unread(rt, folder, error);
            let _ = eprintln!(rt; "give --doors a folder that this user may list");
            status
        }
        DoorFault::NoNode(name) => exit_with(
            eprintln!(rt;
                "door {name}: no node\n\
                 rename the folder, as till-01, dispenser-01 or feed, or take it out"
            ),
            FAULT,
        ),
        DoorFault::InUse(name) => exit_with(
            eprintln!(rt; "door {name}: in use\nstop the station that has the doors in {folder}"),
            FAULT,
        ),
        DoorFault::Taken(name) => exit_with(
            eprintln!(rt;
                "door {name}: cannot listen\n\
                 {folder}/{name}/socket is no socket: take it out"
            ),
            FAULT,
        ),
        DoorFault::Deaf(name, error) => exit_deaf(rt, folder, name.as_str(), error),
    }
}

/// Prints that the station can't listen at the door of this name, and why, in the system's words.
fn exit_deaf<R: Eprint + AllocGlobal>(
    rt: &R,
    folder: &str,
    name: &str,
    error: &io::Error,
) -> ExitCode
    ensures { IsFailed result }
{
    let words = words_of(rt.alloc(), error);
    let why = match &words {
        Ok(words) => words.as_str(),
        Err(_) => "memory ran out",
    };
    exit_with(
        eprintln!(rt;
            "door {name}: cannot listen\n\
             {folder}/{name}/socket: {why}: see that this user may write there, that the disk may \
             be written, that the path has at most 107 octets, and that more files may be open \
             (ulimit -n)"
        ),
        FAULT,
    )
}
