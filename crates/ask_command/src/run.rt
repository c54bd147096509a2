//! `forecourt ask --port N | --door PATH [--strict]`.

use crate::asking::ask_all;
use crate::lines::Lines;
use command_line::AskOptions;
use program_io::{COMMAND_LINE, FAULT, exit_no_memory, exit_with, is_folder};
use std::fs::File;
use std::io::{Error, ErrorKind, Read};
use std::net::{Ipv4Addr, Net, SocketAddr, SocketAddrV4, TcpListener, TcpStream};
use std::os::unix::net::UnixStream;
use std::process::ExitCode;
use std::rt::Files;
use std::time::Duration;

/// A file without octets.
const NOTHING: &str = "/dev/null";

/// A reply is waited for so many seconds.
pub(crate) const REPLY_SECONDS: u64 = 30;

/// Sends a station the requests that this input has in words, over TCP or at a door.
pub fn run_ask<
    R: Files + Net<Listener = TcpListener, Stream = TcpStream> + Print + Eprint + AllocGlobal,
    I: Read + Drop,
>(rt: &R, input: I, options: AskOptions<'_>) -> ExitCode {
    let there = match read_place(rt, &options) {
        Ok(there) => there,
        Err(status) => return status,
    };
    let lines = match Lines::open(rt, input) {
        Ok(lines) => lines,
        Err(status) => return status,
    };
    // A connection gets the least descriptor that is free. These files take those of standard
    // streams that are closed, so that nothing that is printed goes to the station.
    let _input = File::open(rt, NOTHING);
    let _output = File::open(rt, NOTHING);
    let _errors = File::open(rt, NOTHING);
    match there {
        Place::Port(port) => ask_port(rt, lines, port, options.strict),
        Place::Door(path) => ask_door(rt, lines, path, options.strict),
    }
}

/// Where a station is asked.
#[derive(Clone, Copy, Debug, PartialEq, Eq)]
enum Place<'a> {
    /// On this port.
    Port(u16),
    /// At the door of this path.
    Door(&'a str),
}

/// Where the words say that a station is asked. Just one of port and door is to be given.
fn read_place<'a>(rt: &impl Eprint, options: &AskOptions<'a>) -> Result<Place<'a>, ExitCode> {
    match (options.port, options.door) {
        (Some(port), None) => match read_port(port) {
            Some(port) => Ok(Place::Port(port)),
            None => Err(exit_with(
                eprintln!(rt; "error: --port is a decimal number from 1 to 65535"),
                COMMAND_LINE,
            )),
        },
        (None, Some(path)) => Ok(Place::Door(path)),
        _ => Err(exit_with(
            eprintln!(rt; "error: ask needs --port N or --door PATH, and not both"),
            COMMAND_LINE,
        )),
    }
}

/// The port that a word tells. A sign is no digit.
fn read_port(word: &str) -> Option<u16> {
    if word.starts_with('+') {
        return None;
    }
    match word.parse::<u16>() {
        Ok(0) | Err(_) => None,
        Ok(port) => Some(port),
    }
}

/// Asks at this port of 127.0.0.1.
fn ask_port<
    R: Net<Listener = TcpListener, Stream = TcpStream> + Print + Eprint + AllocGlobal,
    I: Read + Drop,
>(rt: &R, lines: Lines<I>, port: u16, strict: bool) -> ExitCode {
    let there = SocketAddr::V4(SocketAddrV4::new(Ipv4Addr::LOCALHOST, port));
    let Ok(stream) = TcpStream::connect(rt, there) else {
        return exit_with(
            eprintln!(rt; "nobody listens on port {port}: start the station, or name its port"),
            FAULT,
        );
    };
    let _ = stream.set_nodelay(true);
    let _ = stream.set_read_timeout(Some(Duration::from_secs(REPLY_SECONDS)));
    ask_all(rt, lines, stream, strict)
}

/// Asks at the door of this path: its socket, or the folder in which that is.
fn ask_door<R: Files + Net + Print + Eprint + AllocGlobal, I: Read + Drop>(
    rt: &R,
    lines: Lines<I>,
    path: &str,
    strict: bool,
) -> ExitCode {
    let socket = if is_folder(rt, path) {
        format!(in rt.alloc(); "{path}/socket")
    } else {
        format!(in rt.alloc(); "{path}")
    };
    let Ok(socket) = socket else {
        return exit_no_memory(rt);
    };
    let stream = match UnixStream::connect(rt, socket.as_str()) {
        Ok(stream) => stream,
        Err(error) => return exit_unconnected(rt, socket.as_str(), &error),
    };
    let _ = stream.set_read_timeout(Some(Duration::from_secs(REPLY_SECONDS)));
    ask_all(rt, lines, stream, strict)
}

/// Prints why a socket can't be connected to, and what to do.
fn exit_unconnected(rt: &impl Eprint, socket: &str, error: &Error) -> ExitCode {
    let printed = match error.kind() {
        ErrorKind::PermissionDenied => {
            eprintln!(rt; "this user may not use {socket}: ask as a user who may")
        }
        ErrorKind::ConnectionRefused => {
            eprintln!(rt; "nobody listens at {socket}: start the station with this door")
        }
        ErrorKind::NotFound => eprintln!(rt;
            "there is no {socket}: name one door, as doors/till-01, of a station that runs"
        ),
        _ => eprintln!(rt;
            "cannot connect to {socket}: see that it is a door's socket, and that its path has at \
             most 107 octets"
        ),
    };
    exit_with(printed, FAULT)
}
