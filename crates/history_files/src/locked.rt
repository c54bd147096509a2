//! A history's folder that this process has locked.

ghost use Rattle.std.specs.Prelude.{◌≤◌};
ghost use Rattle.chapters.specs.declared.history_end.TheConstants.{MOST_CHAPTERS};

use std::fs::File;

/// A history's folder, which this process has locked.
#[derive(Drop)]
pub struct HistoryFolder<'a, R> {
    pub(crate) rt: &'a R,
    /// Its name.
    pub(crate) folder: String,
    /// The file by whose lock it is this process's alone.
    pub(crate) lock: File,
    /// So many chapters it has.
    pub(crate) chapters: u64,
    // The names of chapters have six digits.
    ghost few: { chapters ≤ MOST_CHAPTERS },
}
