//! The rows that the feed's peers are sent.

ghost use Rattle.std.specs.Prelude.{◌≡◌, ◌++◌, ◌∷◌, [], OnOk};
ghost use Rattle.kept_history.specs.KeptRows.{kept_rows};
ghost use Rattle.peer_connections.specs.Fed.{with_rows};

use row_feed::ChapterStarts;
use row_json::{GREATEST_ROW, LastRows};
use site_base::{NoMemory, Row};
use site_book::is_kept;
use stamps::Stamp;

/// The last kept rows of a station's history, and where its chapters begin.
#[derive(Drop)]
pub struct FedRows {
    rows: LastRows,
    starts: ChapterStarts,
}

impl FedRows {
    /// Returns these last rows, with these beginnings of chapters.
    pub fn new(rows: LastRows, starts: ChapterStarts) -> FedRows
        ensures rows { result.rows ≡ rows }
        ensures starts { result.starts ≡ starts }
    {
        FedRows { rows, starts }
    }

    /// Returns the last rows.
    pub fn rows(&self) -> &LastRows
        ensures { result.now ≡ self.now.rows }
    {
        &self.rows
    }

    /// Returns where chapters begin.
    pub fn starts(&self) -> &ChapterStarts
        ensures { result.now ≡ self.now.starts }
    {
        &self.starts
    }

    /// The next row of a book, which has this time, if it is kept. After `NoMemory` no further row
    /// can be read.
    pub(crate) fn read(&mut self, time: &Option<Stamp>, row: &Row) -> Result<(), NoMemory>
        ensures rows { OnOk result
            (self.new.rows ≡ with_rows time.now (kept_rows (row.now ∷ [])) self.old.rows) }
        ensures starts { self.new.starts ≡ self.old.starts }
    {
        if !is_kept(row) {
            return Ok(());
        }
        if self.rows.next() >= GREATEST_ROW {
            return Err(NoMemory);
        }
        self.rows.read(*time, row)
    }

    /// Lets go of the rows' lines, and of their memory.
    pub(crate) fn forget_lines(&mut self)
        ensures lines { self.new.rows.lines ≡ [] }
        ensures starts { self.new.starts ≡ self.old.starts }
    {
        self.rows.forget_lines();
    }

    /// A chapter begins with the next row. After `NoMemory` that isn't known.
    pub(crate) fn begin_chapter(&mut self) -> Result<(), NoMemory>
        ensures rows { self.new.rows ≡ self.old.rows }
        ensures starts { OnOk result
            (self.new.starts ≡ self.old.starts ++ self.old.rows.next ∷ []) }
    {
        self.starts.add(self.rows.next())
    }
}
