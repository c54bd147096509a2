//! The chapters of a folder, as a disk.

ghost use Rattle.std.specs.Prelude.{◌≡◌};
ghost use Rattle.history_files.specs.Counts.{chapters_closed, octets_flushed, octets_put};

use crate::copies::{Place, Put, put_copy};
use crate::fault::disk_fault_of;
use crate::files::{flush_folder, read_file};
use crate::folder::chapter_path;
use crate::history_disk::HistoryDisk;
use crate::identity::is_at;
use chapters::MOST_CHAPTERS;
use journal::{Disk, DiskFault};
use std::alloc::Global;
use std::fs::File;
use std::io::{ErrorKind, Read, Seek, SeekFrom, Write};
use std::os::unix::fs::MetadataExt;
use std::rt::Files;
use std::{fs, io};

impl<'a, R: Files<File = File> + AllocGlobal> HistoryDisk<'a, R> {
    /// Cuts off what wasn't flushed, where that may be, since nobody was told of it. The system may
    /// have kept some of it and not what stands before. A file that is shorter stays as it is.
    fn cut_unflushed(&self) {
        if let Some(file) = &self.open {
            if self.is_own && is_longer(file, self.flushed) {
                let _ = file.set_len(self.flushed);
            }
        }
    }

    /// Puts octets behind those of the open chapter's file.
    fn write(&self, octets: &[u8]) -> io::Result<()> {
        match &self.open {
            Some(file) => {
                let mut writer = file;
                writer.write_all(octets)
            }
            None => Err(io::Error::from(ErrorKind::NotFound)),
        }
    }

    /// Has all octets on the disk. A file system that stops because of a failure may answer a flush
    /// well that it didn't make, but it takes no change then: so one is asked for that changes
    /// nothing.
    fn flush(&self) -> io::Result<()> {
        match &self.open {
            Some(file) => {
                file.sync_data()?;
                let found = file.metadata()?;
                file.set_len(found.len())
            }
            None => Err(io::Error::from(ErrorKind::NotFound)),
        }
    }

    /// Is the open chapter's file as this process left it: as long, with one name, which is its
    /// own?
    fn is_as_left(&self) -> bool {
        match &self.open {
            Some(file) => match file.metadata() {
                Ok(found) => {
                    found.len() == self.len
                        && found.nlink() == 1
                        && is_at(self.rt, self.path.as_str(), file)
                }
                Err(_) => false,
            },
            None => false,
        }
    }

    /// Puts a copy with these octets in the open chapter's place. Where there is no chapter yet, it
    /// is the first one.
    fn put_open(&self, octets: &[u8]) -> Put {
        match &self.open {
            Some(file) => put_copy(
                self.rt,
                &Place::Taken(file),
                Some(file),
                self.path.as_str(),
                octets,
            ),
            None => put_copy(self.rt, &Place::Free, None, self.path.as_str(), octets),
        }
    }

    /// Takes this file for the open chapter's, which has so many octets, all of them on the disk.
    fn take_open(&mut self, file: File, len: u64)
        ensures put { octets_put self.new ≡ len }
        ensures flushed { octets_flushed self.new ≡ len }
        ensures closed { chapters_closed self.new ≡ chapters_closed self.old }
    {
        self.open = Some(file);
        self.is_own = true;
        self.len = len;
        self.flushed = len;
    }

    /// Has on the disk which files the folder has.
    fn flush_names(&self) -> Result<(), DiskFault> {
        match flush_folder(self.rt, self.folder.as_str()) {
            Ok(()) => Ok(()),
            Err(error) => Err(disk_fault_of(&error)),
        }
    }
}

impl<'a, R: Files<File = File> + AllocGlobal> Disk for HistoryDisk<'a, R> {
    ghost use Rattle.std.specs.Prelude.{◌≡◌, ◌<◌, ◌+◌, IfOk, None, OnErr, OnOk, length, min};
    ghost use Rattle.std.specs.Prelude.{false, true};
    ghost use Rattle.chapters.specs.declared.history_end.TheConstants.{MOST_CHAPTERS};
    ghost use Rattle.history_files.specs.Counts.{HasBegun, StaysOpen, chapters_closed};
    ghost use Rattle.history_files.specs.Counts.{octets_flushed, octets_put};

    // No contract can say what a file carries, so the trait's clauses say nothing here.
    ghost file = { λ _. None };

    fn closed(&self) -> u64
        ensures count { result ≡ chapters_closed self.now }
        ensures most { result < MOST_CHAPTERS }
    {
        self.closed
    }

    fn read_closed(&mut self, alloc: Global, place: u64) -> Result<Vec<u8>, DiskFault>
        ensures stays { self.new ≡ self.old }
    {
        if place >= self.closed {
            return Err(DiskFault::Failed);
        }
        let path = chapter_path(alloc, self.folder.as_str(), place + 1)?;
        match read_file(self.rt, path.as_str()) {
            Ok(Some(octets)) => Ok(octets),
            Ok(None) => Err(DiskFault::Failed),
            Err(error) => Err(disk_fault_of(&error)),
        }
    }

    fn read(&mut self, alloc: Global) -> Result<Vec<u8>, DiskFault>
        ensures put { octets_put self.new ≡ octets_put self.old }
        ensures flushed { octets_flushed self.new ≡ octets_flushed self.old }
        ensures closed { chapters_closed self.new ≡ chapters_closed self.old }
    {
        let mut octets = Vec::new(alloc);
        let Some(file) = &mut self.open else {
            return Ok(octets);
        };
        match file.seek(SeekFrom::Start(0)) {
            Ok(_) => {}
            Err(error) => return Err(disk_fault_of(&error)),
        }
        match file.read_to_end(&mut octets) {
            Ok(_) if has_len(file, octets.len()) => Ok(octets),
            Ok(_) => Err(DiskFault::Failed),
            Err(error) => Err(disk_fault_of(&error)),
        }
    }

    fn append(&mut self, octets: &[u8]) -> Result<(), DiskFault>
        ensures put { OnOk result
            (octets_put self.new ≡ min (octets_put self.old + length octets.now) u64.MAX) }
        ensures unput { OnErr result (octets_put self.new ≡ octets_put self.old) }
        ensures flushed { octets_flushed self.new ≡ octets_flushed self.old }
        ensures closed { chapters_closed self.new ≡ chapters_closed self.old }
    {
        match self.write(octets) {
            Ok(()) => {
                self.len = self.len.saturating_add(octets.len() as u64);
                Ok(())
            }
            Err(error) => {
                self.cut_unflushed();
                Err(disk_fault_of(&error))
            }
        }
    }

    /// It fails where the file is not as this process left it: it was removed, cut or replaced.
    fn sync(&mut self) -> Result<(), DiskFault>
        ensures put { octets_put self.new ≡ octets_put self.old }
        ensures flushed { OnOk result (octets_flushed self.new ≡ octets_put self.old) }
        ensures unflushed { OnErr result (octets_flushed self.new ≡ octets_flushed self.old) }
        ensures closed { chapters_closed self.new ≡ chapters_closed self.old }
    {
        match self.flush() {
            Ok(()) if self.is_as_left() => {
                self.flushed = self.len;
                Ok(())
            }
            Ok(()) => Err(DiskFault::Failed),
            Err(error) => {
                self.cut_unflushed();
                Err(disk_fault_of(&error))
            }
        }
    }

    /// A copy with these octets takes the open chapter's place, and is on the disk before it does.
    fn renew(&mut self, octets: &[u8]) -> Result<(), DiskFault>
        ensures put { OnOk result (octets_put self.new ≡ length octets.now) }
        ensures flushed { OnOk result (octets_flushed self.new ≡ length octets.now) }
        ensures closed { chapters_closed self.new ≡ chapters_closed self.old }
    {
        match self.put_open(octets) {
            Put::Done(copy) => self.take_open(copy, octets.len() as u64),
            Put::Undone(error) => return Err(disk_fault_of(&error)),
            Put::Unknown => return Err(DiskFault::Failed),
        }
        self.flush_names()
    }

    /// The next chapter's file is made as a copy that takes its name. Where it can't be made it
    /// says false, and no copy is left.
    fn begin(&mut self, octets: &[u8]) -> Result<bool, DiskFault>
        ensures begun { IfOk result (λ begun. begun ≡ true
            → HasBegun octets.now self.old self.new) }
        ensures goes_on { IfOk result (λ begun. begun ≡ false → StaysOpen self.old self.new) }
    {
        let next = self.closed + 1;
        if next >= MOST_CHAPTERS {
            return Ok(false);
        }
        let path = match chapter_path(self.rt.alloc(), self.folder.as_str(), next + 1) {
            Ok(path) => path,
            Err(_) => return Ok(false),
        };
        let like = self.open.as_ref();
        match put_copy(self.rt, &Place::Free, like, path.as_str(), octets) {
            Put::Done(file) => {
                self.closed = next;
                self.path = path;
                self.take_open(file, octets.len() as u64);
            }
            Put::Undone(_) => return Ok(false),
            Put::Unknown => return Err(DiskFault::Failed),
        }
        match self.flush_names() {
            Ok(()) => Ok(true),
            Err(_) => Err(DiskFault::Failed),
        }
    }
}

/// Has the file so many octets?
fn has_len(file: &File, len: usize) -> bool {
    match file.metadata() {
        Ok(found) => found.len() == len as u64,
        Err(_) => false,
    }
}

/// Has the file more octets than these?
fn is_longer(file: &File, len: u64) -> bool {
    match file.metadata() {
        Ok(found) => found.len() > len,
        Err(_) => false,
    }
}
