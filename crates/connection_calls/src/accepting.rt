//! Connections that wait at a listener.

use mio::net::{TcpListener, TcpStream, UnixListener, UnixStream};
use std::io::{self, ErrorKind};

/// Who waits at a listener.
pub enum Caller<S> {
    /// A peer, with its connection.
    Came(S),
    /// One that gave up before it was accepted.
    Gone,
    /// Nobody.
    None,
    /// Accepting failed with this error.
    Failed(io::Error),
}

/// Accepts one connection that waits, if there is one.
pub fn accept(listener: &TcpListener) -> Caller<TcpStream> {
    match listener.accept() {
        Ok((stream, _)) => Caller::Came(stream),
        Err(error) => caller_of(error),
    }
}

/// Accepts one connection that waits at a door, if there is one.
pub fn accept_at_door(listener: &UnixListener) -> Caller<UnixStream> {
    match listener.accept() {
        Ok((stream, _)) => Caller::Came(stream),
        Err(error) => caller_of(error),
    }
}

/// Who waits where accepting gave this error.
fn caller_of<S>(error: io::Error) -> Caller<S> {
    match error.kind() {
        ErrorKind::WouldBlock => Caller::None,
        ErrorKind::Interrupted | ErrorKind::ConnectionAborted => Caller::Gone,
        _ => Caller::Failed(error),
    }
}
