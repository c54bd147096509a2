//! What a process keeps of its history's folder.

ghost use Rattle.std.specs.Prelude.{◌<◌};
ghost use Rattle.chapters.specs.declared.history_end.TheConstants.{MOST_CHAPTERS};

use std::fs::File;

/// The chapters in a folder that this process has locked.
#[derive(Drop)]
pub struct HistoryDisk<'a, R> {
    pub(crate) rt: &'a R,
    /// The name of the folder.
    pub(crate) folder: String,
    /// The file by whose lock the folder is this process's alone.
    pub(crate) lock: File,
    /// So many chapters are closed.
    pub(crate) closed: u64,
    /// The open chapter's path.
    pub(crate) path: String,
    /// The open chapter's file; before the first chapter there is none.
    pub(crate) open: Option<File>,
    /// How many octets this process has put into it.
    pub(crate) len: u64,
    /// How many of them were flushed.
    pub(crate) flushed: u64,
    /// The file is a copy that this process has put in its place: it knows each octet.
    pub(crate) is_own: bool,
    // The names of chapters have six digits.
    ghost few: { closed < MOST_CHAPTERS },
}
