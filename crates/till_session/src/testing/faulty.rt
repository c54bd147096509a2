//! Devices in memory that fail where a test wants it.

ghost use Rattle.std.specs.Prelude.{◌≡◌, ◌≤◌, Some, drop, vec_len};

use std::io::{self, ErrorKind, Read, Write};

/// A reader or a writer in memory: a reader of the octets that it has, or a writer that appends to
/// them. One of its calls may fail. A write takes at most a given number of octets.
#[derive(Debug, Drop)]
pub struct Faulty {
    octets: Vec<u8>,
    read: usize,
    calls: u64,
    fails_at: u64,
    most: usize,
    ghost within: { read ≤ vec_len octets },
}

impl Faulty {
    /// Returns a device over these octets. Its call number `fails_at` fails, counted from 1; with 0
    /// none does. A write takes at most `most` octets.
    pub fn new(octets: Vec<u8>, fails_at: u64, most: usize) -> Faulty
        ensures reads { ⟦<Faulty as Read>⟧.remaining result ≡ Some octets.items }
        ensures writes { ⟦<Faulty as Write>⟧.contents result ≡ Some octets.items }
    {
        Faulty {
            octets,
            read: 0,
            calls: 0,
            fails_at,
            most,
        }
    }

    /// Returns its octets.
    pub fn octets(&self) -> &[u8]
        ensures { Some result.now ≡ ⟦<Faulty as Write>⟧.contents self.now }
    {
        &self.octets
    }

    /// One more call: is it the one that fails?
    fn fails(&mut self) -> bool
        ensures octets { self.new.octets ≡ self.old.octets }
        ensures read { self.new.read ≡ self.old.read }
    {
        self.calls = self.calls.saturating_add(1);
        self.calls == self.fails_at
    }
}

impl Read for Faulty {
    ghost remaining = { λ f. Some (drop f.read f.octets.items) };

    fn read(&mut self, buf: &mut [u8]) -> io::Result<usize> {
        if self.fails() {
            return Err(io::Error::from(ErrorKind::Other));
        }
        let mut rest = &self.octets[self.read..];
        let n = rest.read(buf)?;
        self.read += n;
        Ok(n)
    }
}

impl Write for Faulty {
    ghost contents = { λ f. Some f.octets.items };

    fn write(&mut self, buf: &[u8]) -> io::Result<usize> {
        if self.fails() {
            return Err(io::Error::from(ErrorKind::Other));
        }
        let n = buf.len().min(self.most);
        if self.octets.extend_from_slice(&buf[..n]).is_err() {
            return Err(io::Error::from(ErrorKind::OutOfMemory));
        }
        Ok(n)
    }

    fn flush(&mut self) -> io::Result<()> {
        Ok(())
    }
}
