//! Lines for standard error, which a separate thread writes. The station doesn't wait until they
//! are read.

use crate::line_tally::LineTally;
use day_base::DayFault;
use std::alloc::Global;
use std::cell::Cell;
use std::fmt::Display;
use std::io::{ErrorKind, Read, Write};
use std::net::{Net, Shutdown};
use std::os::fd::AsRawFd;
use std::os::unix::net::UnixStream;
use std::sync::{Arc, Mutex};
use std::thread::{JoinHandle, Threads};
use std::time::{Clock, Duration, Instant};
use std::{io, thread};

/// The number of standard error, the last one of the system's own.
const LAST_STANDARD: i32 = 2;

/// So many octets of lines are taken at once.
const LINE_OCTETS: usize = 4_096;

/// A line that is interrupted is passed on again, so often at most.
const TURNS_A_LINE: usize = 4;

/// The last lines are waited for so many seconds, where nobody reads them.
const LAST_LINE_SECONDS: u64 = 1;

/// Passes lines to a thread that writes them. Of lines with the same text only the first ones of
/// each second are passed. A line for which there is no room, because nobody reads them, is left
/// out and counted.
#[derive(Drop)]
pub struct ErrorLines {
    alloc: Global,
    stream: UnixStream,
    /// What was passed in this second. The thread has it, too: it says how many were left out where
    /// no more lines come.
    tally: Arc<Mutex<LineTally>>,
    left_out: Cell<u64>,
    thread: JoinHandle<()>,
}

impl ErrorLines {
    /// Starts the thread, which writes to this output. `NoConnection`, `NoMemory` or `NoWorker` if
    /// that fails.
    pub fn start<N: Net, T: Threads, E: Eprint + Clock + Send + Drop + 'static>(
        net: &N,
        threads: &T,
        alloc: Global,
        output: E,
    ) -> Result<ErrorLines, DayFault> {
        let Ok((stream, lines)) = open_pair(net) else {
            return Err(DayFault::NoConnection);
        };
        if stream.set_nonblocking(true).is_err() {
            return Err(DayFault::NoConnection);
        }
        let Ok(tally) = Arc::new(alloc, Mutex::new(LineTally::new(alloc))) else {
            return Err(DayFault::NoMemory);
        };
        let Ok(shared) = Arc::clone(&tally) else {
            return Err(DayFault::NoMemory);
        };
        match thread::spawn(threads, move || write_lines(alloc, &output, lines, &shared)) {
            Ok(thread) => Ok(ErrorLines {
                alloc,
                stream,
                tally,
                left_out: Cell::new(0),
                thread,
            }),
            Err(_) => Err(DayFault::NoWorker),
        }
    }

    /// Waits until the last lines are written; if nobody reads them, for a second at most.
    pub fn end<T: Threads>(self, threads: &T) {
        let _ = self.pass_left_out();
        let ErrorLines {
            mut stream,
            thread,
            ..
        } = self;
        let _ = stream.shutdown(Shutdown::Write);
        let seconds = Duration::from_secs(LAST_LINE_SECONDS);
        let is_waiting = stream.set_nonblocking(false).is_ok()
            && stream.set_read_timeout(Some(seconds)).is_ok();
        let mut piece = [0; 1];
        if is_waiting && matches!(stream.read(&mut piece), Ok(0)) {
            thread.join(threads);
        }
    }

    /// Passes a text on to the thread, if it has room for it.
    fn pass(&self, text: &str) -> io::Result<()> {
        for _ in 0..TURNS_A_LINE {
            match (&self.stream).write(text.as_bytes()) {
                Ok(_) => return Ok(()),
                Err(error) if error.kind() == ErrorKind::Interrupted => {}
                Err(error) => return Err(error),
            }
        }
        Err(ErrorKind::Interrupted.into())
    }

    /// Says how many lines were left out, if some were.
    fn pass_left_out(&self) -> io::Result<()> {
        let count = self.left_out.get();
        if count == 0 {
            return Ok(());
        }
        let text = format!(in self.alloc; "{count} lines were left out: nobody read them\n")?;
        self.pass(text.as_str())?;
        self.left_out.set(0);
        Ok(())
    }

    /// Passes a line on, behind how many were left out. One that can't be is left out.
    fn pass_line<D: Display + Drop>(&self, line: D) -> io::Result<()> {
        let passed = self.try_to_pass(line);
        if passed.is_err() {
            self.left_out.set(self.left_out.get().saturating_add(1));
        }
        passed
    }

    fn try_to_pass<D: Display + Drop>(&self, line: D) -> io::Result<()> {
        let text = format!(in self.alloc; "{line}\n")?;
        self.pass_left_out()?;
        self.pass(text.as_str())
    }

    /// Passes a line on, if not too many of its text were passed in this second. Where a second is
    /// over, first comes how many it has left out.
    fn pass_some<D: Display + Drop>(&self, line: D, now: Option<Instant>) -> io::Result<()> {
        let line = format!(in self.alloc; "{line}")?;
        if let Some(ended) = take_ended(&self.tally, now) {
            ended.tell(&Passing { lines: self });
        }
        if self.counts(line.as_str(), now) {
            self.pass_line(line)
        } else {
            Ok(())
        }
    }

    /// Counts a line: is it to be passed? One is that comes just while the thread has the tally.
    fn counts(&self, line: &str, now: Option<Instant>) -> bool {
        match self.tally.try_lock() {
            Some(mut tally) => tally.count(line, now),
            None => true,
        }
    }
}

/// Lines that are passed, however many were.
#[derive(Drop)]
struct Passing<'a> {
    lines: &'a ErrorLines,
}

impl Eprint for Passing<'_> {
    fn eprint<D: Display + Drop>(&self, value: D) -> io::Result<()> {
        self.lines.pass_line(value)
    }

    fn eprintln<D: Display + Drop>(&self, value: D) -> io::Result<()> {
        self.lines.pass_line(value)
    }
}

/// The clock of a host, and lines that a separate thread writes.
#[derive(Drop)]
pub struct Reporting<'a, R> {
    pub host: &'a R,
    pub lines: &'a ErrorLines,
}

impl<R: Clock> Clock for Reporting<'_, R> {
    fn monotonic(&self) -> io::Result<Duration> {
        self.host.monotonic()
    }

    fn since_1970(&self) -> io::Result<Duration> {
        self.host.since_1970()
    }
}

impl<R: Clock> Eprint for Reporting<'_, R> {
    fn eprint<D: Display + Drop>(&self, value: D) -> io::Result<()> {
        self.eprintln(value)
    }

    fn eprintln<D: Display + Drop>(&self, value: D) -> io::Result<()> {
        self.lines.pass_some(value, Instant::now(self.host).ok())
    }
}

/// Two sockets, each the other's peer. Where standard input, output or error is closed, its number
/// stays free: what is written there must not come to the lines.
fn open_pair<N: Net>(net: &N) -> io::Result<(UnixStream, UnixStream)> {
    let first = UnixStream::pair(net)?;
    if is_apart(&first.0, &first.1) {
        return Ok(first);
    }
    let second = UnixStream::pair(net)?;
    if is_apart(&second.0, &second.1) {
        return Ok(second);
    }
    // The first two have each of the three numbers that is free.
    UnixStream::pair(net)
}

/// Has neither of these sockets a number of standard input, output or error?
fn is_apart(one: &UnixStream, other: &UnixStream) -> bool {
    one.as_raw_fd() > LAST_STANDARD && other.as_raw_fd() > LAST_STANDARD
}

/// Writes the lines that come, until no more do. How many were left out in a second is said at its
/// end, though no more come.
fn write_lines<E: Eprint + Clock>(
    alloc: Global,
    output: &E,
    stream: UnixStream,
    tally: &Mutex<LineTally>,
) {
    let mut stream = stream;
    let mut pending = Vec::new(alloc);
    let mut piece = [0; LINE_OCTETS];
    for _ in 0..u64::MAX {
        match stream.read(&mut piece) {
            Ok(0) => break,
            Ok(n) => {
                let _ = pending.extend_from_slice(&piece[..n]);
                write_whole_lines(output, &mut pending);
            }
            Err(error) if error.kind() == ErrorKind::Interrupted => {}
            Err(_) => tell_ended(output, tally),
        }
        let timeout = has_lines(tally).then(|| Duration::from_secs(1));
        let _ = stream.set_read_timeout(timeout);
    }
    if let Some(ended) = take_all(tally) {
        ended.tell(output);
    }
}

/// Says how many lines a second has left out, if it is over.
fn tell_ended<E: Eprint + Clock>(output: &E, tally: &Mutex<LineTally>) {
    if let Some(ended) = take_ended(tally, Instant::now(output).ok()) {
        ended.tell(output);
    }
}

/// Were lines passed in this second? So it may be, where somebody else has the tally.
fn has_lines(tally: &Mutex<LineTally>) -> bool {
    match tally.try_lock() {
        Some(tally) => !tally.is_empty(),
        None => true,
    }
}

/// Takes what was counted in a second that is over, if nobody else has the tally just now.
fn take_ended(tally: &Mutex<LineTally>, now: Option<Instant>) -> Option<LineTally> {
    let mut tally = tally.try_lock()?;
    if tally.is_over(now) {
        Some(tally.take())
    } else {
        None
    }
}

/// Takes what was counted, if nobody else has the tally just now.
fn take_all(tally: &Mutex<LineTally>) -> Option<LineTally> {
    let mut tally = tally.try_lock()?;
    Some(tally.take())
}

/// Writes the whole lines of what came.
fn write_whole_lines<E: Eprint>(output: &E, pending: &mut Vec<u8>) {
    let mut begin = 0;
    for at in 0..pending.len() {
        if pending[at] == b'\n' {
            if let Some(line) = line_in(pending, begin, at) {
                let _ = output.eprintln(line);
            }
            begin = at + 1;
        }
    }
    if begin <= pending.len() {
        pending.drain(..begin);
    }
}

/// The text between these places, if it is one.
fn line_in(octets: &[u8], begin: usize, end: usize) -> Option<&str> {
    match str::from_utf8(octets.get(begin..end)?) {
        Ok(line) => Some(line),
        Err(_) => None,
    }
}
