//! A disk in memory that a station borrows.

ghost use Rattle.std.specs.Prelude.{◌≡◌, Some};

use crate::memory_disk::MemoryDisk;
use journal::{Disk, DiskFault};
use std::alloc::Global;

/// A disk in memory that a station only borrows, so that it is there when the station is gone.
#[derive(Drop)]
pub struct LentDisk<'a> {
    disk: &'a mut MemoryDisk,
}

impl<'a> LentDisk<'a> {
    /// Borrows the disk.
    pub fn new(disk: &'a mut MemoryDisk) -> LentDisk<'a>
        ensures { ⟦<LentDisk<'a> as Disk>⟧.file result ≡ Some disk.old.file }
    {
        LentDisk { disk }
    }
}

impl<'a> Disk for LentDisk<'a> {
    ghost use Rattle.std.specs.Prelude.{Some};

    ghost file = { λ l. Some l.disk.now.file };

    fn closed(&self) -> u64 {
        self.disk.closed()
    }

    fn read_closed(&mut self, alloc: Global, place: u64) -> Result<Vec<u8>, DiskFault> {
        self.disk.read_closed(alloc, place)
    }

    fn read(&mut self, alloc: Global) -> Result<Vec<u8>, DiskFault> {
        self.disk.read(alloc)
    }

    fn append(&mut self, octets: &[u8]) -> Result<(), DiskFault> {
        self.disk.append(octets)
    }

    fn sync(&mut self) -> Result<(), DiskFault> {
        self.disk.sync()
    }

    fn renew(&mut self, octets: &[u8]) -> Result<(), DiskFault> {
        self.disk.renew(octets)
    }

    fn begin(&mut self, octets: &[u8]) -> Result<bool, DiskFault> {
        self.disk.begin(octets)
    }
}
