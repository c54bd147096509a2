//! A host on which a command ends quietly where whoever reads its standard output has closed the
//! pipe, as `head` does.

ghost use Rattle.std.specs.Prelude.{◌≡◌};

use std::alloc::{Allocator, Global};
use std::cell::Cell;
use std::fmt::Display;
use std::fs::{Metadata, OpenOptions};
use std::io::{self, ErrorKind};
use std::net::{Net, SocketAddr, UdpSocket};
use std::os::fd::OwnedFd;
use std::os::unix::net::{SocketAddr as UnixAddr, UnixStream};
use std::process::ExitCode;
use std::rt::Files;
use std::time::Duration;

/// The status with which others end then: that of a program that SIGPIPE ends, 128 and 13.
const CLOSED_PIPE: u8 = 141;

/// A host, and whether the reader of its standard output has closed the pipe. From then on nothing
/// is said on standard error: it would be that standard output failed.
#[derive(Drop)]
pub struct QuietHost<'a, R> {
    host: &'a R,
    is_closed: Cell<bool>,
}

impl<'a, R> QuietHost<'a, R> {
    /// The host, on which nothing was printed.
    pub fn new(host: &'a R) -> QuietHost<'a, R> {
        QuietHost {
            host,
            is_closed: Cell::new(false),
        }
    }

    /// How the program ends where a command ended so.
    pub fn end(&self, status: ExitCode) -> ExitCode {
        if self.is_closed.get() {
            ExitCode::from(CLOSED_PIPE)
        } else {
            status
        }
    }

    /// Notes what became of a print, and returns it.
    fn note<T>(&self, printed: io::Result<T>) -> io::Result<T>
        ensures { result ≡ printed }
    {
        if let Err(error) = &printed {
            if error.kind() == ErrorKind::BrokenPipe {
                self.is_closed.set(true);
            }
        }
        printed
    }
}

impl<R: Print> Print for QuietHost<'_, R> {
    fn print<D: Display + Drop>(&self, value: D) -> io::Result<()> {
        self.note(self.host.print(value))
    }

    fn println<D: Display + Drop>(&self, value: D) -> io::Result<()> {
        self.note(self.host.println(value))
    }

    fn write_all(&self, bytes: &[u8]) -> io::Result<()> {
        self.note(self.host.write_all(bytes))
    }

    fn write_some(&self, bytes: &[u8]) -> io::Result<usize> {
        self.note(self.host.write_some(bytes))
    }
}

impl<R: Eprint> Eprint for QuietHost<'_, R> {
    fn eprint<D: Display + Drop>(&self, value: D) -> io::Result<()> {
        if self.is_closed.get() {
            return Ok(());
        }
        self.host.eprint(value)
    }

    fn eprintln<D: Display + Drop>(&self, value: D) -> io::Result<()> {
        if self.is_closed.get() {
            return Ok(());
        }
        self.host.eprintln(value)
    }
}

impl<R: AllocGlobal> Alloc for QuietHost<'_, R> {
    type A = Global;

    fn alloc(&self) -> Global {
        self.host.alloc()
    }
}

impl<R: Files> Files for QuietHost<'_, R> {
    type File = R::File;

    type Dir = R::Dir;

    fn open_file(&self, how: &OpenOptions, path: &str) -> io::Result<R::File> {
        self.host.open_file(how, path)
    }

    fn open_dir(&self, path: &str) -> io::Result<R::Dir> {
        self.host.open_dir(path)
    }

    fn metadata(&self, path: &str) -> io::Result<Metadata> {
        self.host.metadata(path)
    }

    fn symlink_metadata(&self, path: &str) -> io::Result<Metadata> {
        self.host.symlink_metadata(path)
    }

    fn copy(&self, from: &str, to: &str) -> io::Result<u64> {
        self.host.copy(from, to)
    }

    fn rename(&self, from: &str, to: &str) -> io::Result<()> {
        self.host.rename(from, to)
    }

    fn remove_file(&self, path: &str) -> io::Result<()> {
        self.host.remove_file(path)
    }

    fn create_dir(&self, path: &str) -> io::Result<()> {
        self.host.create_dir(path)
    }

    fn remove_dir(&self, path: &str) -> io::Result<()> {
        self.host.remove_dir(path)
    }

    fn remove_dir_all<B: Allocator>(&self, alloc: B, path: &str) -> io::Result<()> {
        self.host.remove_dir_all(alloc, path)
    }
}

impl<R: Net> Net for QuietHost<'_, R> {
    type Stream = R::Stream;

    type Listener = R::Listener;

    fn bind(&self, addr: SocketAddr) -> io::Result<R::Listener> {
        self.host.bind(addr)
    }

    fn connect(&self, addr: SocketAddr) -> io::Result<R::Stream> {
        self.host.connect(addr)
    }

    fn connect_timeout(&self, addr: SocketAddr, timeout: Duration) -> io::Result<R::Stream> {
        self.host.connect_timeout(addr, timeout)
    }

    fn bind_udp(&self, addr: SocketAddr) -> io::Result<UdpSocket> {
        self.host.bind_udp(addr)
    }

    fn lookup_host(&self, host: &str, port: u16, found: &mut [SocketAddr]) -> io::Result<usize> {
        self.host.lookup_host(host, port, found)
    }

    fn connect_unix(&self, addr: &UnixAddr) -> io::Result<UnixStream> {
        self.host.connect_unix(addr)
    }

    fn unix_pair(&self) -> io::Result<(UnixStream, UnixStream)> {
        self.host.unix_pair()
    }

    fn unix_socket(&self) -> io::Result<OwnedFd> {
        self.host.unix_socket()
    }
}
