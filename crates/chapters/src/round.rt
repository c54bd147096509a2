//! The lines of a round.

ghost use Rattle.std.specs.Prelude.{◌≡◌, ◌≢◌, ◌≤◌, ◌<◌, ◌+◌, ◌++◌, ◌∷◌, [], OnOk, length, true};
ghost use Rattle.std.specs.List.{AllByRecursion};
ghost use Rattle.kept_history.specs.KeptRows.{is_kept, kept_rows};
ghost use Rattle.stamps.specs.Stamps.{at_line, is_stamp, later_of};
ghost use Rattle.chapters.specs.declared.history_end.TheConstants.{SEAL_ROWS};
ghost use Rattle.chapters.specs.HistoryEnds.{one_more_row};
ghost use Rattle.chapters.specs.ChapterText.{row_digits, text_of_lines};
ghost use Rattle.chapters.specs.OpenShift.{first_after, first_behind};
ghost use Rattle.chapters.specs.Rounds.{WritesFirst, WritesOn, WritesRound, stamp_lines};
ghost use Rattle.chapters.specs.Rounds.{time_behind};
ghost use Rattle.chapters.specs.RowText.{CanBeSpelled, IsSent, kept_behind};

use crate::history_end::{HistoryEnd, SEAL_ROWS};
use crate::row_line::put_row_line;
use site_base::{NoMemory, Row};
use site_book::{SiteBook, is_kept};
use stamps::{AT_MARK, Stamp, is_later};
use std::alloc::Global;

impl HistoryEnd {
    /// Replaces the text by the lines of a round: those of the book's rows from `from` on, except
    /// rows of reads. The time `now` is above the first row, if it is later than the last time. A
    /// seal follows each 256th row, and the last row if `is_due`. Without such rows there are no
    /// lines.
    ///
    /// After an error it isn't known where the text ends.
    pub fn put_round(
        &mut self,
        alloc: Global,
        book: &SiteBook,
        from: u64,
        now: Option<Stamp>,
        is_due: bool,
        text: &mut Vec<u8>,
    ) -> Result<(), NoMemory>
        requires place { from ≤ length book.now.rows }
        requires memory { book.now.forgotten ≤ from }
        requires sent { AllByRecursion IsSent book.now.rows }
        ensures written { OnOk result (WritesRound now (kept_behind from book.now.rows) self.old
            self.new [] text.new.items) }
        ensures spelled { OnOk result (CanBeSpelled (kept_behind from book.now.rows)) }
        ensures time { OnOk result
            (self.new.time ≡ time_behind self.old.time now (kept_behind from book.now.rows)) }
        ensures first { OnOk result (self.new.first ≡ first_behind self.old.time now
            (kept_behind from book.now.rows) self.old.first) }
        ensures size { OnOk result
            (length (kept_behind from book.now.rows) ≤ length text.new.items) }
        ensures none { OnOk result (kept_behind from book.now.rows ≡ [] → self.new ≡ self.old) }
        ensures still { OnOk result (kept_behind from book.now.rows ≡ [] → text.new.items ≡ []) }
        ensures few { self.old.rows < SEAL_ROWS → OnOk result (self.new.rows < SEAL_ROWS) }
        ensures sealed { is_due ≡ true → OnOk result
            (kept_behind from book.now.rows ≢ [] → self.new.sealed ≡ true) }
        ensures count { self.new.chapters ≡ self.old.chapters }
    {
        self.put_rows(alloc, book, from, now, text)?;
        if is_due && !text.is_empty() && !self.is_sealed() {
            self.put_seal(alloc, text)?;
        }
        Ok(())
    }

    /// Puts the lines of rows at this time, with the seals among them, in place of what the text
    /// holds.
    fn put_rows(
        &mut self,
        alloc: Global,
        book: &SiteBook,
        from: u64,
        now: Option<Stamp>,
        text: &mut Vec<u8>,
    ) -> Result<(), NoMemory>
        requires place { from ≤ length book.now.rows }
        requires memory { book.now.forgotten ≤ from }
        requires sent { AllByRecursion IsSent book.now.rows }
        ensures first { OnOk result (WritesFirst now (kept_behind from book.now.rows) self.old
            self.new text.new.items) }
        ensures few { self.old.rows < SEAL_ROWS → OnOk result (self.new.rows < SEAL_ROWS) }
        ensures count { self.new.chapters ≡ self.old.chapters }
    {
        let now = &now;
        text.clear();
        for place in from..book.len() {
            let Some(row) = book.row(place) else {
                unreachable!();
            };
            self.put_kept(alloc, &row, now, text)?;
        }
        Ok(())
    }

    /// Appends the lines of a row at this time, if it is kept.
    fn put_kept(
        &mut self,
        alloc: Global,
        row: &Row,
        now: &Option<Stamp>,
        text: &mut Vec<u8>,
    ) -> Result<(), NoMemory>
        requires { IsSent row.now }
        ensures written { OnOk result (WritesRound now.now (kept_rows (row.now ∷ [])) self.old self.new
            text.old.items text.new.items) }
        ensures spelled { OnOk result (CanBeSpelled (kept_rows (row.now ∷ []))) }
        ensures time { OnOk result
            (self.new.time ≡ time_behind self.old.time now.now (kept_rows (row.now ∷ []))) }
        ensures first { OnOk result (self.new.first ≡ first_behind self.old.time now.now
            (kept_rows (row.now ∷ [])) self.old.first) }
        ensures size { OnOk result (length text.old.items + length (kept_rows (row.now ∷ []))
            ≤ length text.new.items) }
        ensures none { kept_rows (row.now ∷ []) ≡ [] → self.new ≡ self.old }
        ensures still { kept_rows (row.now ∷ []) ≡ [] → text.new.items ≡ text.old.items }
        ensures few { self.old.rows < SEAL_ROWS → OnOk result (self.new.rows < SEAL_ROWS) }
        ensures count { self.new.chapters ≡ self.old.chapters }
    {
        if !is_kept(row) {
            return Ok(());
        }
        self.put_stamp(now, text)?;
        self.put_row(alloc, row, text)?;
        if self.rows() >= SEAL_ROWS {
            self.put_seal(alloc, text)?;
        }
        Ok(())
    }

    /// Appends the stamp of this time, where it is later than the last one.
    fn put_stamp(&mut self, now: &Option<Stamp>, text: &mut Vec<u8>) -> Result<(), NoMemory>
        ensures written { OnOk result (WritesOn (stamp_lines self.old.time now.now) [] self.old self.new
            text.old.items text.new.items) }
        ensures size { OnOk result (length text.old.items ≤ length text.new.items) }
        ensures time { OnOk result (self.new.time ≡ later_of self.old.time now.now) }
        ensures first { OnOk result (self.new.first ≡ self.old.first) }
        ensures rows { OnOk result (self.new.rows ≡ self.old.rows) }
        ensures count { self.new.chapters ≡ self.old.chapters }
    {
        let Some(now) = now else {
            return Ok(());
        };
        if !is_later(self.time(), now) {
            return Ok(());
        }
        let start = text.len();
        put_stamp_line(now, text)?;
        self.cover(&text[start..]);
        self.tell_time(*now);
        Ok(())
    }

    /// Appends the line of a row.
    fn put_row(&mut self, alloc: Global, row: &Row, text: &mut Vec<u8>) -> Result<(), NoMemory>
        requires sent { IsSent row.now }
        requires kept { is_kept row.now ≡ true }
        ensures written { OnOk result (WritesOn (row_digits row.now ∷ []) (row.now ∷ []) self.old
            self.new text.old.items text.new.items) }
        ensures spelled { OnOk result (CanBeSpelled (row.now ∷ [])) }
        ensures size { OnOk result (length text.old.items + 1 ≤ length text.new.items) }
        ensures rows { OnOk result (self.new.rows ≡ one_more_row self.old.rows) }
        ensures time { OnOk result (self.new.time ≡ self.old.time) }
        ensures first { OnOk result (self.new.first
            ≡ first_after row.now self.old.time self.old.first) }
        ensures count { self.new.chapters ≡ self.old.chapters }
    {
        let start = text.len();
        put_row_line(alloc, row, text)?;
        self.cover(&text[start..]);
        self.count_row();
        self.note_row(row);
        Ok(())
    }

    /// Appends a seal. After an error it isn't known where the text ends.
    pub fn put_seal(&mut self, alloc: Global, text: &mut Vec<u8>) -> Result<(), NoMemory>
        ensures written { OnOk result
            (WritesOn [] [] self.old self.new text.old.items text.new.items) }
        ensures size { OnOk result (length text.old.items ≤ length text.new.items) }
        ensures sealed { OnOk result (self.new.sealed ≡ true) }
        ensures rows { OnOk result (self.new.rows ≡ 0) }
        ensures time { self.new.time ≡ self.old.time }
        ensures first { self.new.first ≡ self.old.first }
        ensures count { self.new.chapters ≡ self.old.chapters }
    {
        let line = self.seal_text(alloc)?;
        text.extend_from_slice(&line)?;
        Ok(())
    }
}

/// Appends the line of a time.
fn put_stamp_line(time: &Stamp, text: &mut Vec<u8>) -> Result<(), NoMemory>
    ensures line { OnOk result
        (text.new.items ≡ text.old.items ++ text_of_lines (at_line time.now ∷ [])) }
    ensures form { OnOk result (is_stamp time.now ≡ true) }
{
    text.extend_from_slice(AT_MARK)?;
    text.extend_from_slice(time.as_octets())?;
    text.push(b'\n')?;
    Ok(())
}
