//! The peer of a session: what it sends and when, what it takes, and how its devices fail.

use site_base::NoMemory;
use std::alloc::Global;
use std::cell::Cell;
use std::io::{self, ErrorKind, Read, Write};
use std::rc::Rc;
use till_session::testing::Faulty;

/// The number of octets that a peer was sent. Its two ends and the session's counter read it.
pub type Told = Rc<Cell<u64>>;

/// Returns the count of a peer that was sent nothing.
pub fn new_told(alloc: Global) -> Result<Told, NoMemory> {
    match Rc::new(alloc, Cell::new(0)) {
        Ok(told) => Ok(told),
        Err(_) => Err(NoMemory),
    }
}

/// A client that doesn't wait for replies: all that it has is there to be read at once.
const AT_ONCE: &[(u64, usize)] = &[(0, usize::MAX)];

/// What a session is served, and how its devices fail: at their call of this number, if there is
/// one.
#[derive(Drop)]
pub struct Peer {
    /// What it sends in all.
    pub octets: Vec<u8>,
    /// For each pair: once the peer was sent this many octets, it has sent that many.
    pub sends: &'static [(u64, usize)],
    pub read_fails: u64,
    pub write_fails: u64,
    /// The most octets of a read, and of a write.
    pub read_most: usize,
    pub write_most: usize,
    /// From its write call of this number on, this many calls are interrupted.
    pub interrupted_from: u64,
    pub interruptions: u64,
    pub turns: u64,
}

impl Peer {
    /// Returns a peer that doesn't wait for replies, and whose devices don't fail.
    pub fn of(octets: Vec<u8>) -> Peer {
        Peer {
            octets,
            sends: AT_ONCE,
            read_fails: 0,
            write_fails: 0,
            read_most: usize::MAX,
            write_most: usize::MAX,
            interrupted_from: 1,
            interruptions: 0,
            turns: 1_000_000,
        }
    }

    /// Returns the same peer, whose calls move at most this many octets.
    pub fn in_pieces(self, most: usize) -> Peer {
        let mut peer = self;
        peer.read_most = most;
        peer.write_most = most;
        peer
    }

    /// Returns what the session reads from, and what it writes to. The second takes what the peer
    /// is sent in `room`, and counts it in `told`.
    pub fn into_ends(self, room: Vec<u8>, told: &Told) -> Result<(Sender, Taker), NoMemory> {
        let sender = Sender {
            size: self.octets.len(),
            memory: Faulty::new(self.octets, self.read_fails, self.read_most),
            sends: self.sends,
            most: self.read_most,
            read: 0,
            told: told.clone()?,
        };
        let taker = Taker {
            memory: Faulty::new(room, self.write_fails, self.write_most),
            interrupted_from: self.interrupted_from,
            interruptions: self.interruptions,
            calls: 0,
            told: told.clone()?,
        };
        Ok((sender, taker))
    }
}

/// What a peer sends.
#[derive(Drop)]
pub struct Sender {
    memory: Faulty,
    size: usize,
    sends: &'static [(u64, usize)],
    most: usize,
    read: usize,
    told: Told,
}

impl Sender {
    /// How many octets it has sent by now.
    fn count_sent(&self) -> usize {
        let mut sent = 0;
        for (told, size) in self.sends {
            if *told <= self.told.get() {
                sent = *size;
            }
        }
        sent.min(self.size)
    }
}

impl Read for Sender {
    /// A read that would wait for good, for octets that the peer doesn't send before it is told
    /// more, fails.
    fn read(&mut self, buf: &mut [u8]) -> io::Result<usize> {
        let rest = self.count_sent().saturating_sub(self.read);
        if rest == 0 && self.read < self.size {
            return Err(io::Error::from(ErrorKind::WouldBlock));
        }
        let most = buf.len().min(self.most).min(rest);
        let n = self.memory.read(&mut buf[..most])?;
        self.read = self.read.saturating_add(n);
        Ok(n)
    }
}

/// What a peer takes.
#[derive(Drop)]
pub struct Taker {
    memory: Faulty,
    interrupted_from: u64,
    interruptions: u64,
    calls: u64,
    told: Told,
}

impl Taker {
    /// Returns what it was sent.
    pub fn octets(&self) -> &[u8] {
        self.memory.octets()
    }

    /// Returns how often it was called, interrupted calls included.
    pub fn calls(&self) -> u64 {
        self.calls
    }
}

impl Write for Taker {
    fn write(&mut self, buf: &[u8]) -> io::Result<usize> {
        self.calls = self.calls.saturating_add(1);
        let is_due = self.calls >= self.interrupted_from;
        if is_due && self.calls.saturating_sub(self.interrupted_from) < self.interruptions {
            return Err(io::Error::from(ErrorKind::Interrupted));
        }
        let n = self.memory.write(buf)?;
        self.told.set(self.told.get().saturating_add(n as u64));
        Ok(n)
    }

    fn flush(&mut self) -> io::Result<()> {
        Ok(())
    }
}
