//! What carries the octets of a feed's peer: a connection over TCP, or one of a door.

use connection_calls::{Caller, accept, accept_at_door, both_ways};
use mio::net::{TcpListener, TcpStream, UnixListener, UnixStream};
use mio::{Registry, Token};
use std::io::{self, Read, Write};

/// A connection over TCP, or one of a door, over a Unix socket.
#[derive(Drop)]
pub enum FeedStream {
    /// Over TCP.
    Tcp(TcpStream),
    /// At a door.
    Unix(UnixStream),
}

impl FeedStream {
    /// It is reported under this key when it is ready.
    pub(crate) fn watch(&mut self, registry: &Registry, key: usize) -> io::Result<()> {
        match self {
            FeedStream::Tcp(stream) => registry.register(stream, Token(key), both_ways()),
            FeedStream::Unix(stream) => registry.register(stream, Token(key), both_ways()),
        }
    }

    /// It is reported once more, if it is ready.
    pub(crate) fn watch_again(&mut self, registry: &Registry, key: usize) {
        let _ = match self {
            FeedStream::Tcp(stream) => registry.reregister(stream, Token(key), both_ways()),
            FeedStream::Unix(stream) => registry.reregister(stream, Token(key), both_ways()),
        };
    }
}

impl Read for FeedStream {
    fn read(&mut self, buf: &mut [u8]) -> io::Result<usize> {
        match self {
            FeedStream::Tcp(stream) => stream.read(buf),
            FeedStream::Unix(stream) => stream.read(buf),
        }
    }
}

impl Write for FeedStream {
    fn write(&mut self, buf: &[u8]) -> io::Result<usize> {
        match self {
            FeedStream::Tcp(stream) => stream.write(buf),
            FeedStream::Unix(stream) => stream.write(buf),
        }
    }

    fn flush(&mut self) -> io::Result<()> {
        Ok(())
    }
}

/// Where peers of the feed come: over TCP, or at the feed's door.
#[derive(Drop)]
pub(crate) enum FeedListener {
    /// Over TCP.
    Tcp(TcpListener),
    /// At the door.
    Unix(UnixListener),
}

impl FeedListener {
    /// Accepts one connection that waits, if there is one. Small pieces are sent at once.
    pub(crate) fn accept(&self) -> Caller<FeedStream> {
        match self {
            FeedListener::Tcp(listener) => match accept(listener) {
                Caller::Came(stream) => {
                    let _ = stream.set_nodelay(true);
                    Caller::Came(FeedStream::Tcp(stream))
                }
                Caller::Gone => Caller::Gone,
                Caller::None => Caller::None,
                Caller::Failed(error) => Caller::Failed(error),
            },
            FeedListener::Unix(listener) => match accept_at_door(listener) {
                Caller::Came(stream) => Caller::Came(FeedStream::Unix(stream)),
                Caller::Gone => Caller::Gone,
                Caller::None => Caller::None,
                Caller::Failed(error) => Caller::Failed(error),
            },
        }
    }
}
