//! What holds a history's chapters.

ghost use Rattle.std.specs.Prelude.{◌≡◌, ◌<◌, IfOk, OnOk, Option, false, length, true};
ghost use Rattle.chapters.specs.declared.history_end.TheConstants.{MOST_CHAPTERS};
ghost use Rattle.journal.specs.Disks.{Appends, Begins, DiskFile, IsUntouched, Keeps, KeepsEither};
ghost use Rattle.journal.specs.Disks.{OfFile, OfFiles, Reads, ReadsClosed, Renews, Syncs};

use site_base::NoMemory;
use std::alloc::Global;
use thiserror::Error;

/// Why a call of a disk did nothing, or only a part.
#[derive(Clone, Copy, Debug, PartialEq, Eq, Error)]
pub enum DiskFault {
    /// An allocation failed.
    #[error("out of memory")]
    NoMemory,
    /// The disk failed, or takes no more.
    #[error("the disk failed, or takes no more")]
    Failed,
}

impl From<NoMemory> for DiskFault {
    ghost use Rattle.std.specs.Prelude.{◌≡◌};
    ghost use Rattle.journal.specs.declared.disk.DiskFault.{DiskFault};

    ghost from_gives = { λ _ e. e ≡ DiskFault.NoMemory };

    fn from(_e: NoMemory) -> DiskFault {
        DiskFault::NoMemory
    }
}

/// The chapters of a history: closed ones, which nothing changes any more, and the open one. Octets
/// are appended to the open chapter, or replace it. A crash, at any moment of a call or between two
/// calls, leaves the closed chapters, and an open one that begins with what was synced.
pub trait Disk: Drop {
    /// What is known of its chapters. Of a real disk nothing is known: no contract can say what it
    /// carries.
    ghost file: { Self → Option DiskFile };

    /// Returns the number of closed chapters.
    fn closed(&self) -> u64
        ensures count { OfFile (λ f. result ≡ length f.closed) (file self.now) }
        ensures most { result < MOST_CHAPTERS };

    /// Returns all octets of the closed chapter at this place, counted from 0.
    fn read_closed(&mut self, alloc: Global, place: u64) -> Result<Vec<u8>, DiskFault>
        ensures octets { IfOk result (λ v. OfFile (ReadsClosed place v.items) (file self.old)) }
        ensures stays { file self.new ≡ file self.old };

    /// Returns all octets of the open chapter. If a flush has failed, in this process or an earlier
    /// one, the next read may return others.
    fn read(&mut self, alloc: Global) -> Result<Vec<u8>, DiskFault>
        ensures octets { IfOk result (λ v. OfFile (Reads v.items) (file self.old)) }
        ensures stays { OfFiles IsUntouched (file self.old) (file self.new) };

    /// Appends octets to the open chapter. If that fails, nothing is known of what follows the
    /// octets that were synced.
    fn append(&mut self, octets: &[u8]) -> Result<(), DiskFault>
        ensures ok { OnOk result (OfFiles (Appends octets.now) (file self.old) (file self.new)) }
        ensures moments { OfFiles Keeps (file self.old) (file self.new) };

    /// Returns once all octets are on the disk. That can't be relied on if a flush of the chapter
    /// has failed before, in this process or an earlier one.
    fn sync(&mut self) -> Result<(), DiskFault>
        ensures ok { OnOk result (OfFiles Syncs (file self.old) (file self.new)) }
        ensures moments { OfFiles Keeps (file self.old) (file self.new) };

    /// Replaces the octets of the open chapter by these, and returns once these are on the disk,
    /// whatever flush has failed before. A crash leaves what was synced, or these.
    fn renew(&mut self, octets: &[u8]) -> Result<(), DiskFault>
        ensures ok { OnOk result (OfFiles (Renews octets.now) (file self.old) (file self.new)) }
        ensures moments { OfFiles (KeepsEither octets.now) (file self.old) (file self.new) };

    /// Closes the open chapter, all of which is synced, and opens the next one with these octets.
    /// Returns once they are on the disk. Returns false if there can't be a next chapter now: the
    /// open one continues. After an error it isn't known which chapter is open.
    fn begin(&mut self, octets: &[u8]) -> Result<bool, DiskFault>
        ensures begun { IfOk result (λ begun. begun ≡ true
            → OfFiles (Begins octets.now) (file self.old) (file self.new)) }
        ensures goes_on { IfOk result (λ begun. begun ≡ false
            → OfFiles IsUntouched (file self.old) (file self.new)) }
        ensures moments { OfFiles Keeps (file self.old) (file self.new) };
}
