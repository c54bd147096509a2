//! What carries a peer's octets: a connection over TCP, or one of a door.

ghost use Rattle.std.specs.Prelude.{◌≡◌};

use crate::session_over::AllSent;
use connection_calls::both_ways;
use mio::net::{TcpStream, UnixStream};
use mio::{Interest, Registry, Token};
use std::io::{self, Read, Write};
use std::net::Shutdown;

/// A peer's connection: it carries octets both ways. The system reports when it has some, and when
/// it takes some. What is known of the octets that it still brings, and of those that it was given,
/// changes only by reads and writes.
pub trait PeerSocket: Read + Write + Drop {
    /// Lets small pieces be sent at once.
    fn send_at_once(&self);

    /// Has the connection reported under this key when it is ready.
    fn watch(&mut self, registry: &Registry, key: usize) -> io::Result<()>
        ensures left { Self.remaining self.new ≡ Self.remaining self.old }
        ensures got { Self.contents self.new ≡ Self.contents self.old };

    /// Has the connection reported once more, if it is ready.
    fn watch_again(&mut self, registry: &Registry, key: usize)
        ensures left { Self.remaining self.new ≡ Self.remaining self.old }
        ensures got { Self.contents self.new ≡ Self.contents self.old };

    /// Tells the peer that nothing more will come. Its session is over, and all its output was
    /// sent.
    fn shut(&self, sent: AllSent);
}

/// A connection over TCP, or one of a door, over a Unix socket.
#[derive(Drop)]
pub enum PeerStream {
    /// Over TCP.
    Tcp(TcpStream),
    /// At a door.
    Unix(UnixStream),
}

impl PeerSocket for PeerStream {
    /// Small pieces of a Unix socket are sent at once anyway.
    fn send_at_once(&self) {
        if let PeerStream::Tcp(stream) = self {
            let _ = stream.set_nodelay(true);
        }
    }

    fn watch(&mut self, registry: &Registry, key: usize) -> io::Result<()> {
        match self {
            PeerStream::Tcp(stream) => registry.register(stream, Token(key), peer_interest()),
            PeerStream::Unix(stream) => registry.register(stream, Token(key), peer_interest()),
        }
    }

    fn watch_again(&mut self, registry: &Registry, key: usize) {
        let _ = match self {
            PeerStream::Tcp(stream) => registry.reregister(stream, Token(key), peer_interest()),
            PeerStream::Unix(stream) => registry.reregister(stream, Token(key), peer_interest()),
        };
    }

    fn shut(&self, _sent: AllSent) {
        let _ = match self {
            PeerStream::Tcp(stream) => stream.shutdown(Shutdown::Write),
            PeerStream::Unix(stream) => stream.shutdown(Shutdown::Write),
        };
    }
}

impl Read for PeerStream {
    fn read(&mut self, buf: &mut [u8]) -> io::Result<usize> {
        match self {
            PeerStream::Tcp(stream) => stream.read(buf),
            PeerStream::Unix(stream) => stream.read(buf),
        }
    }
}

impl Write for PeerStream {
    fn write(&mut self, buf: &[u8]) -> io::Result<usize> {
        match self {
            PeerStream::Tcp(stream) => stream.write(buf),
            PeerStream::Unix(stream) => stream.write(buf),
        }
    }

    fn flush(&mut self) -> io::Result<()> {
        Ok(())
    }
}

/// The interest of a peer's connection: it is read from, written to, and may bring urgent data.
fn peer_interest() -> Interest {
    both_ways() | Interest::PRIORITY
}
