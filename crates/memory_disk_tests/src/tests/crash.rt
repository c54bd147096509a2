//! How a day ends at a call of its disk.

use super::day::Reached;
use memory_disk::{Cut, MemoryDisk};

/// How much of a call is done when a disk is cut, and what is left of the disk.
#[derive(Clone, Copy)]
pub struct Crash {
    /// The octets of an append that are written.
    pub octets: usize,
    /// Whether a renewal is done, or the next chapter has begun.
    pub is_done: bool,
    /// The octets that are left of those that weren't synced. None if only the process ends: all
    /// are left, and still not synced.
    pub kept: Option<usize>,
}

/// Nothing is left of the call.
pub const LOST: Crash = Crash {
    octets: 0,
    is_done: false,
    kept: Some(0),
};

/// The first octets of an append are left.
pub const TORN: Crash = Crash {
    octets: 40,
    is_done: true,
    kept: Some(usize::MAX),
};

/// Only the process ends, after the whole append: it is read, but isn't on the disk.
pub const STOPPED: Crash = Crash {
    octets: usize::MAX,
    is_done: false,
    kept: None,
};

/// The call is done not at all, in part or as a whole. What isn't synced is left not at all, in
/// part or as a whole, or only the process ends.
pub const CRASHES: [Crash; 9] = [
    LOST,
    TORN,
    STOPPED,
    Crash {
        octets: 0,
        is_done: true,
        kept: None,
    },
    Crash {
        octets: 40,
        is_done: false,
        kept: Some(0),
    },
    Crash {
        octets: 40,
        is_done: false,
        kept: None,
    },
    Crash {
        octets: usize::MAX,
        is_done: true,
        kept: Some(0),
    },
    Crash {
        octets: usize::MAX,
        is_done: true,
        kept: Some(60),
    },
    Crash {
        octets: usize::MAX,
        is_done: true,
        kept: Some(usize::MAX),
    },
];

impl Crash {
    /// The cut after this number of calls.
    pub fn at(&self, calls: u64) -> Cut {
        Cut {
            calls,
            octets: self.octets,
            is_done: self.is_done,
        }
    }

    /// The disk as the next start finds it.
    pub fn leave(&self, disk: MemoryDisk) -> MemoryDisk {
        match self.kept {
            Some(kept) => disk.after_crash(kept),
            None => disk.after_stop(),
        }
    }

    /// The rows that a start finds: those that were sent if nothing is left that wasn't synced,
    /// those that were heard if all of it is, and otherwise any number between.
    pub fn find(&self, reached: Reached) -> Reached {
        let Reached { sent, heard } = reached;
        match (self.octets, self.kept) {
            (_, Some(0)) => Reached { sent, heard: sent },
            (usize::MAX, None | Some(usize::MAX)) => Reached { sent: heard, heard },
            _ => reached,
        }
    }
}
