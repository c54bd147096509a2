//! The chapters that a disk in memory holds.

ghost use Rattle.std.specs.Prelude.{◌≡◌, ◌<◌, ◌+◌, ◌++◌, ◌∷◌, [], IfOk, OnErr, OnOk};
ghost use Rattle.std.specs.Prelude.{false, length, true};
ghost use Rattle.chapters.specs.declared.history_end.TheConstants.{MOST_CHAPTERS};
ghost use Rattle.journal.specs.Disks.{Appends, Begins, Keeps, KeepsEither, Reads};
ghost use Rattle.journal.specs.Disks.{ReadsClosed, Renews, Syncs, moment_of};
ghost use Rattle.memory_disk.specs.Files.{IsLeftOf, empty_file};

use crate::left::Left;
use chapters::MOST_CHAPTERS;
use journal::DiskFault;
use site_base::NoMemory;
use std::alloc::Global;
use std::marker::Model;

/// The chapters of a history, in memory.
#[derive(Drop)]
pub struct Contents {
    alloc: Global,
    closed: Vec<Vec<u8>>,
    octets: Vec<u8>,
    /// So many octets of the open chapter are synced.
    synced: usize,
    /// No flush of the open chapter has failed.
    is_sound: bool,
    /// What a crash would have left before each call that changed them.
    moments: Vec<Left>,
}

impl Model for Contents {
    ghost use Rattle.std.specs.Prelude.{◌≤◌, ◌<◌, length, map, take};
    ghost use Rattle.chapters.specs.declared.history_end.TheConstants.{MOST_CHAPTERS};
    ghost use Rattle.journal.specs.Disks.{DiskFile};

    ghost Value = { DiskFile };

    ghost view = { λ c. record {
      closed = map (λ t. t.items) c.closed.items;
      octets = c.octets.items;
      synced = take c.synced c.octets.items;
      moments = c.moments.items;
      sound = c.is_sound;
    } };

    ghost invariant = { λ c. (c.synced ≤ length c.octets.items)
        × (length c.closed.items < MOST_CHAPTERS) };
}

impl Contents {
    /// Returns chapters in which nothing is written.
    pub fn new(alloc: Global) -> Contents
        ensures { result ≡ empty_file }
    {
        Contents {
            alloc,
            closed: Vec::new(alloc),
            octets: Vec::new(alloc),
            synced: 0,
            is_sound: true,
            moments: Vec::new(alloc),
        }
    }

    /// Returns the number of closed chapters.
    pub fn closed(&self) -> usize
        ensures count { result ≡ length self.now.closed }
        ensures most { result < MOST_CHAPTERS }
    {
        self.closed.len()
    }

    /// Returns the octets of the closed chapter at this place, counted from 0.
    pub fn read_closed(&self, alloc: Global, place: usize) -> Result<Vec<u8>, DiskFault>
        ensures { IfOk result (λ v. ReadsClosed place v.items self.now) }
    {
        match self.closed.get(place) {
            Some(text) => Ok(copy_of(alloc, text)?),
            None => Err(DiskFault::Failed),
        }
    }

    /// Returns the octets of the open chapter.
    pub fn read(&self, alloc: Global) -> Result<Vec<u8>, NoMemory>
        ensures { IfOk result (λ v. Reads v.items self.now) }
    {
        let octets = copy_of(alloc, &self.octets)?;
        Ok(octets)
    }

    /// Appends octets to the open chapter.
    pub fn append(&mut self, octets: &[u8]) -> Result<(), NoMemory>
        ensures ok { OnOk result (Appends octets.now self.old self.new) }
        ensures moments { Keeps self.old self.new }
    {
        self.note_moment()?;
        self.octets.extend_from_slice(octets)?;
        Ok(())
    }

    /// Syncs all octets. If a flush has failed before, it syncs none: the system takes them for
    /// written.
    pub fn sync(&mut self) -> Result<(), NoMemory>
        ensures ok { OnOk result (Syncs self.old self.new) }
        ensures moments { Keeps self.old self.new }
    {
        self.note_moment()?;
        if self.is_sound {
            self.synced = self.octets.len();
        }
        Ok(())
    }

    /// Lets a flush fail.
    pub fn fail_sync(&mut self)
        ensures moments { Keeps self.old self.new }
        ensures sound { self.new ≡ record self.old { sound = false } }
    {
        self.is_sound = false;
    }

    /// Replaces the octets of the open chapter by these, all of them synced.
    pub fn renew(&mut self, octets: &[u8]) -> Result<(), NoMemory>
        ensures ok { OnOk result (Renews octets.now self.old self.new) }
        ensures moments { KeepsEither octets.now self.old self.new }
    {
        let renewed = copy_of(self.alloc, octets)?;
        self.note_moment()?;
        self.synced = renewed.len();
        self.octets = renewed;
        self.is_sound = true;
        Ok(())
    }

    /// May the next chapter begin? Not after a failed flush: what is read may not be on the disk.
    pub fn may_begin(&self) -> bool
        ensures sound { result ≡ true → self.now.sound ≡ true }
        ensures room { result ≡ true → length self.now.closed + 1 < MOST_CHAPTERS }
    {
        self.is_sound && (self.closed.len() as u64) < MOST_CHAPTERS - 1
    }

    /// Closes the open chapter, all of it synced, and opens the next one with these octets.
    pub fn begin(&mut self, octets: &[u8]) -> Result<(), NoMemory>
        requires { length self.old.closed + 1 < MOST_CHAPTERS }
        ensures ok { OnOk result (Begins octets.now self.old self.new) }
        ensures moments { Keeps self.old self.new }
    {
        let text = copy_of(self.alloc, &self.octets)?;
        let next = copy_of(self.alloc, octets)?;
        self.note_moment()?;
        self.closed.push(text)?;
        self.synced = next.len();
        self.octets = next;
        self.is_sound = true;
        Ok(())
    }

    /// Returns what a crash has left of them: what was synced, and this many octets more.
    pub fn after_crash(self, kept: usize) -> Contents
        ensures { IsLeftOf kept self result }
    {
        let mut left = self;
        let more = kept.min(left.octets.len() - left.synced);
        left.octets.truncate(left.synced + more);
        left.synced = left.octets.len();
        left.is_sound = true;
        left
    }

    /// Keeps what a crash would leave now.
    fn note_moment(&mut self) -> Result<(), NoMemory>
        ensures ok { OnOk result (self.new
            ≡ record self.old { moments = self.old.moments ++ moment_of self.old ∷ [] }) }
        ensures err { OnErr result (self.new ≡ self.old) }
    {
        let left = Left::copy_of(self.alloc, &self.closed, &self.octets[..self.synced])?;
        self.moments.push(left)?;
        Ok(())
    }
}

/// A copy of these octets.
fn copy_of(alloc: Global, octets: &[u8]) -> Result<Vec<u8>, NoMemory>
    ensures { IfOk result (λ v. v.items ≡ octets.now) }
{
    Ok(Vec::from_slice(alloc, octets)?)
}
