//! A disk in memory that can be cut.

ghost use Rattle.std.specs.Prelude.{◌≡◌, None, Some};
ghost use Rattle.memory_disk.specs.Calls.{was_cut};
ghost use Rattle.memory_disk.specs.Files.{IsLeftOf, empty_file};

use crate::contents::Contents;
use crate::cut::{Calls, Cut, Fate};
use journal::{Disk, DiskFault};
use std::alloc::Global;
use std::marker::Model;

/// A disk in memory. At the call at which it is cut it fails: an append writes its first octets, a
/// sync does nothing, and a renewal, or the begin of a chapter, is done or not. From then on each
/// call fails, and does nothing.
#[derive(Drop)]
pub struct MemoryDisk {
    contents: Contents,
    calls: Calls,
}

impl Model for MemoryDisk {
    ghost use Rattle.memory_disk.specs.DiskState.{DiskState};

    ghost Value = { DiskState };

    ghost view = { λ d.
        record { file = d.contents; count = d.calls.count; cut = d.calls.cut } };
}

impl MemoryDisk {
    /// Returns a disk on which nothing is written, and which isn't cut.
    pub fn new(alloc: Global) -> MemoryDisk
        ensures { result ≡ record { file = empty_file; count = 0; cut = None } }
    {
        MemoryDisk {
            contents: Contents::new(alloc),
            calls: Calls::new(),
        }
    }

    /// Cuts it there. Its calls are counted from here on.
    pub fn cut_at(&mut self, cut: Cut)
        ensures { self.new ≡ record self.old { count = 0; cut = Some cut } }
    {
        self.calls = Calls::cut_at(cut);
    }

    /// Returns the number of calls so far.
    pub fn calls(&self) -> u64
        ensures { result ≡ self.now.count }
    {
        self.calls.count
    }

    /// Was a call cut?
    pub fn is_cut(&self) -> bool
        ensures { result ≡ was_cut self.now.count self.now.cut }
    {
        self.calls.is_cut()
    }

    /// Returns the disk as a start finds it after a crash: the closed chapters, and of the open one
    /// what was synced, with up to `kept` octets more of what follows that. It isn't cut any more.
    pub fn after_crash(self, kept: usize) -> MemoryDisk
        ensures file { IsLeftOf kept self.file result.file }
        ensures cut { result.cut ≡ None }
    {
        MemoryDisk {
            contents: self.contents.after_crash(kept),
            calls: Calls::new(),
        }
    }

    /// Returns the disk as a start finds it if only the process has ended: what is read is what was
    /// written. It isn't cut any more.
    pub fn after_stop(self) -> MemoryDisk
        ensures { result ≡ record { file = self.file; count = 0; cut = None } }
    {
        MemoryDisk {
            contents: self.contents,
            calls: Calls::new(),
        }
    }
}

impl Disk for MemoryDisk {
    ghost use Rattle.std.specs.Prelude.{Some};

    ghost file = { λ d. Some d.file };

    fn closed(&self) -> u64 {
        self.contents.closed() as u64
    }

    fn read_closed(&mut self, alloc: Global, place: u64) -> Result<Vec<u8>, DiskFault> {
        match self.calls.next() {
            Fate::Made => self.contents.read_closed(alloc, place as usize),
            Fate::Cut(_) | Fate::Late => Err(DiskFault::Failed),
        }
    }

    fn read(&mut self, alloc: Global) -> Result<Vec<u8>, DiskFault> {
        match self.calls.next() {
            Fate::Made => Ok(self.contents.read(alloc)?),
            Fate::Cut(_) | Fate::Late => Err(DiskFault::Failed),
        }
    }

    fn append(&mut self, octets: &[u8]) -> Result<(), DiskFault> {
        match self.calls.next() {
            Fate::Made => Ok(self.contents.append(octets)?),
            Fate::Cut(cut) => {
                self.contents.append(front_of(octets, cut.octets))?;
                Err(DiskFault::Failed)
            }
            Fate::Late => Err(DiskFault::Failed),
        }
    }

    fn sync(&mut self) -> Result<(), DiskFault> {
        match self.calls.next() {
            Fate::Made => Ok(self.contents.sync()?),
            Fate::Cut(_) => {
                self.contents.fail_sync();
                Err(DiskFault::Failed)
            }
            Fate::Late => Err(DiskFault::Failed),
        }
    }

    fn renew(&mut self, octets: &[u8]) -> Result<(), DiskFault> {
        match self.calls.next() {
            Fate::Made => Ok(self.contents.renew(octets)?),
            Fate::Cut(cut) => {
                if cut.is_done {
                    self.contents.renew(octets)?;
                }
                Err(DiskFault::Failed)
            }
            Fate::Late => Err(DiskFault::Failed),
        }
    }

    fn begin(&mut self, octets: &[u8]) -> Result<bool, DiskFault> {
        match self.calls.next() {
            Fate::Made if self.contents.may_begin() => {
                self.contents.begin(octets)?;
                Ok(true)
            }
            Fate::Made => Ok(false),
            Fate::Cut(cut) => {
                if cut.is_done && self.contents.may_begin() {
                    self.contents.begin(octets)?;
                }
                Err(DiskFault::Failed)
            }
            Fate::Late => Err(DiskFault::Failed),
        }
    }
}

/// So many octets at the front, as far as there are any.
fn front_of(octets: &[u8], count: usize) -> &[u8] {
    match octets.get(..count) {
        Some(front) => front,
        None => octets,
    }
}
