//! Loopback: where tills and dispensers connect.

ghost use Rattle.std.specs.Prelude.{◌≡◌, IfErr, IfOk};

use day_base::DayFault;
use std::alloc::Global;
use std::io::{self, Read, Write};
use std::net::{Ipv4Addr, Net, SocketAddr, SocketAddrV4, TcpListener, TcpStream};
use std::sync::Arc;
use till_session::{Accept, NoConnection};

/// A listener on 127.0.0.1. Each connection is read and written by two halves of one socket, which
/// sends small messages at once.
#[derive(Drop)]
pub struct Loopback {
    listener: TcpListener,
    port: u16,
    failures: u64,
}

impl Loopback {
    /// Listens on this port of 127.0.0.1. Port 0 means a free one. `Deaf` if it can't listen there.
    pub fn bind<R: Net<Listener = TcpListener, Stream = TcpStream>>(
        rt: &R,
        port: u16,
    ) -> Result<Loopback, DayFault>
        ensures { IfOk result (λ l. ⟦<Loopback as Accept>⟧.failed l ≡ 0) }
    {
        match listen(rt, port) {
            Ok((listener, port)) => Ok(Loopback {
                listener,
                port,
                failures: 0,
            }),
            Err(_) => Err(DayFault::of_port(port)),
        }
    }

    /// Returns the port on which it listens.
    pub fn port(&self) -> u16
        ensures { result ≡ self.now.port }
    {
        self.port
    }
}

/// A listener on 127.0.0.1, and its port.
fn listen<R: Net<Listener = TcpListener, Stream = TcpStream>>(
    rt: &R,
    port: u16,
) -> io::Result<(TcpListener, u16)> {
    let here = SocketAddr::V4(SocketAddrV4::new(Ipv4Addr::LOCALHOST, port));
    let listener = TcpListener::bind(rt, here)?;
    let port = listener.local_addr()?.port();
    Ok((listener, port))
}

impl Accept for Loopback {
    type Reader = ReadHalf;

    type Writer = WriteHalf;

    ghost failed = { λ l. l.failures };

    /// The next connection. A socket that can't be told to send at once is served all the same.
    fn accept(&mut self, alloc: Global) -> Result<(ReadHalf, WriteHalf), NoConnection> {
        match self.listener.accept() {
            Ok((stream, _peer)) => {
                let _ = stream.set_nodelay(true);
                halves(alloc, stream)
            }
            Err(_) => {
                self.failures = self.failures.saturating_add(1);
                Err(NoConnection::Failed)
            }
        }
    }

    fn failures(&self) -> u64 {
        self.failures
    }
}

/// The two halves of a socket. Once both are let go, it is closed.
fn halves(alloc: Global, stream: TcpStream) -> Result<(ReadHalf, WriteHalf), NoConnection>
    ensures { IfErr result (λ e. e ≡ NoConnection.NoMemory) }
{
    let Ok(stream) = Arc::new(alloc, stream) else {
        return Err(NoConnection::NoMemory);
    };
    match Arc::try_clone(&stream) {
        Ok(other) => Ok((ReadHalf { stream: other }, WriteHalf { stream })),
        Err(_) => Err(NoConnection::NoMemory),
    }
}

/// What a connection's octets are read from.
#[derive(Drop)]
pub struct ReadHalf {
    stream: Arc<TcpStream>,
}

impl Read for ReadHalf {
    fn read(&mut self, buf: &mut [u8]) -> io::Result<usize> {
        let mut stream: &TcpStream = &self.stream;
        stream.read(buf)
    }
}

/// What a connection's replies are written to.
#[derive(Drop)]
pub struct WriteHalf {
    stream: Arc<TcpStream>,
}

impl Write for WriteHalf {
    fn write(&mut self, buf: &[u8]) -> io::Result<usize> {
        let mut stream: &TcpStream = &self.stream;
        stream.write(buf)
    }

    fn flush(&mut self) -> io::Result<()> {
        let mut stream: &TcpStream = &self.stream;
        stream.flush()
    }
}
