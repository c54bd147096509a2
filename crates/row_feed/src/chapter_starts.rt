//! The chapter of a row.

ghost use Rattle.std.specs.Prelude.{◌≡◌, ◌∷◌, ◌++◌, [], OnErr, OnOk, count_by, nat_le};
ghost use Rattle.row_feed.specs.FeedFaults.{chapter_of};

use site_base::NoMemory;
use std::alloc::Global;
use std::marker::Model;

/// The number of the first row of each chapter, in order. Contracts see the list.
#[derive(Drop)]
pub struct ChapterStarts {
    starts: Vec<u64>,
}

impl Model for ChapterStarts {
    ghost use Rattle.std.specs.Prelude.{ℕ, List};

    ghost Value = { List ℕ };

    ghost view = { λ c. c.starts.items };
}

impl ChapterStarts {
    /// Returns a list without chapters. It takes no memory.
    pub fn new(alloc: Global) -> ChapterStarts
        ensures { result ≡ [] }
    {
        ChapterStarts {
            starts: Vec::new(alloc),
        }
    }

    /// Notes that the next chapter begins with this row.
    pub fn add(&mut self, row: u64) -> Result<(), NoMemory>
        ensures added { OnOk result (self.new ≡ self.old ++ row ∷ []) }
        ensures err { OnErr result (self.new ≡ self.old) }
    {
        self.starts.push(row)?;
        Ok(())
    }

    /// Returns the number of the chapter that has a row: the number of chapters that begin with
    /// that row or an earlier one.
    pub fn chapter_of(&self, row: u64) -> usize
        ensures { result ≡ chapter_of self.now row }
    {
        self.starts.iter().filter(|start| **start <= row).count()
    }
}
