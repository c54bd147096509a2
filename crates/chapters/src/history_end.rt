//! Where the text of a history ends, as far as it is read or written.

ghost use Rattle.std.specs.Prelude.{◌≡◌, ◌≢◌, ◌++◌, ◌≤◌, ◌<◌, ◌+◌, ℕ, [], ◌∷◌, IfOk, List};
ghost use Rattle.std.specs.Prelude.{◌^◌, None, OnOk, Some, string_bytes, true};
ghost use Rattle.stamps.specs.Stamps.{time_after};
ghost use Rattle.chapters.specs.ChapterReading.{is_same_line};
ghost use Rattle.chapters.specs.ChapterText.{first_lines, no_seal, seal_line, seal_of};
ghost use Rattle.chapters.specs.ChapterText.{text_of_lines};
ghost use Rattle.chapters.specs.HistoryEnds.{EndsAt, one_more_row, rows_with};
ghost use Rattle.chapters.specs.OpenShift.{first_after, first_with, open_since};
ghost use Rattle.chapters.specs.Readers.{row_read};

use crate::first_lines::{put_after, put_site, put_title};
use crate::line_read::{LineRead, is_comment};
use crate::open_shift::{FirstRow, first_after, open_since};
use crate::seal::Unsealed;
use site_base::{NoMemory, Row};
use stamps::{Stamp, time_after};
use std::alloc::Global;
use std::marker::Model;

/// The most chapters of a history: the names of their files have six digits.
pub const MOST_CHAPTERS: u64 = 999_999;

/// The most lines of rows without a seal between them.
pub const SEAL_ROWS: u64 = 256;

/// What a seal's line begins with.
pub(crate) const SEAL_MARK: &[u8] = b"# seal ";

/// What stands for a seal before the first chapter.
const NO_SEAL: &str = "0000000000000000000000000000000000000000000000000000000000000000";

/// Where the text of a history ends: the number of its chapters, its last seal, and what the next
/// seal covers.
#[derive(Drop)]
pub struct HistoryEnd {
    chapters: u64,
    seal: String,
    unsealed: Unsealed,
    /// Nothing stands behind the last seal.
    is_sealed: bool,
    /// So many lines of rows stand behind the last seal, counted up to 256.
    rows: u64,
    /// The last time that was told.
    time: Option<Stamp>,
    /// The first row of the open shift, once it has one.
    first: Option<FirstRow>,
    /// So many seals there are.
    seals: u64,
}

impl Model for HistoryEnd {
    ghost use Rattle.std.specs.Prelude.{◌≤◌, string_bytes};
    ghost use Rattle.chapters.specs.declared.history_end.TheConstants.{MOST_CHAPTERS};
    ghost use Rattle.chapters.specs.HistoryEnds.{EndState};

    ghost Value = { EndState };

    ghost view = { λ e. record {
      chapters = e.chapters;
      seal = string_bytes e.seal;
      hasher = e.unsealed;
      sealed = e.is_sealed;
      rows = e.rows;
      time = e.time;
      first = e.first;
      seals = e.seals;
    } };

    ghost invariant = { λ e. e.chapters ≤ MOST_CHAPTERS };
}

impl HistoryEnd {
    /// Returns the end of a history without chapters.
    pub fn new(alloc: Global) -> Result<HistoryEnd, NoMemory>
        ensures ends { IfOk result (EndsAt 0 no_seal []) }
        ensures time { IfOk result (λ end. end.time ≡ None) }
        ensures first { IfOk result (λ end. end.first ≡ None) }
    {
        let seal = String::from_str(alloc, NO_SEAL)?;
        let unsealed = Unsealed::behind(NO_SEAL.as_bytes());
        Ok(HistoryEnd {
            chapters: 0,
            seal,
            unsealed,
            is_sealed: true,
            rows: 0,
            time: None,
            first: None,
            seals: 0,
        })
    }

    /// Returns the number of chapters.
    pub fn chapters(&self) -> u64
        ensures count { result ≡ self.now.chapters }
        ensures most { result ≤ MOST_CHAPTERS }
    {
        self.chapters
    }

    /// Is the last line a seal, or is there no line?
    pub fn is_sealed(&self) -> bool
        ensures { result ≡ self.now.sealed }
    {
        self.is_sealed
    }

    /// So many lines of rows stand behind the last seal, counted up to 256.
    pub(crate) fn rows(&self) -> u64
        ensures { result ≡ self.now.rows }
    {
        self.rows
    }

    /// Returns the last time, if there is one.
    pub fn time(&self) -> Option<Stamp>
        ensures { result ≡ self.now.time }
    {
        self.time
    }

    /// Returns the time of the open shift's first row, if it has one and its time is known.
    pub fn open_since(&self) -> Option<Stamp>
        ensures { result ≡ open_since self.now.first }
    {
        open_since(self.first)
    }

    /// Returns the number of seals.
    pub fn seals(&self) -> u64
        ensures { result ≡ self.now.seals }
    {
        self.seals
    }

    /// Returns the last seal; 64 zeros if there is none.
    pub fn last_seal(&self) -> &str
        ensures { result.now ≡ self.now.seal }
    {
        self.seal.as_str()
    }

    /// Returns the first lines of the next chapter, for the site of this name.
    pub fn next_lines(&self, alloc: Global, site: &str) -> Result<String, NoMemory>
        ensures { IfOk result (λ text. string_bytes text
            ≡ text_of_lines (first_lines site.now (self.now.chapters + 1) self.now.seal)) }
    {
        let mut text = String::new(alloc);
        put_title(self.chapters + 1, &mut text)?;
        put_site(site, &mut text)?;
        put_after(self.seal.as_str(), &mut text)?;
        Ok(text)
    }

    /// Begins the next chapter with these octets, which are its first lines.
    pub fn begin_chapter(&mut self, octets: &[u8])
        requires most { self.old.chapters < MOST_CHAPTERS }
        requires sealed { self.old.sealed ≡ true }
        ensures begun { (chapters : ℕ) (seal : List ℕ) (lines : List (List ℕ))
            → EndsAt chapters seal [] self.old → octets.now ≡ text_of_lines lines → lines ≢ []
            → EndsAt (chapters + 1) seal lines self.new }
        ensures count { self.new.chapters ≡ self.old.chapters + 1 }
        ensures time { self.new.time ≡ self.old.time }
        ensures first { self.new.first ≡ self.old.first }
    {
        self.chapters += 1;
        self.cover(octets);
    }

    /// This time is told.
    pub(crate) fn tell_time(&mut self, time: Stamp)
        ensures { self.new ≡ record self.old { time = Some time } }
    {
        self.time = Some(time);
    }

    /// This row has come, at the last time that was told.
    pub(crate) fn note_row(&mut self, row: &Row)
        ensures { self.new ≡ record self.old {
          first = first_after row.now self.old.time self.old.first;
        } }
    {
        self.first = first_after(row, self.time, self.first);
    }

    /// A line was read as this, at the last time that was told.
    pub(crate) fn note_read(&mut self, read: &LineRead)
        ensures { self.new ≡ record self.old {
          first = first_with (row_read read.now) self.old.time self.old.first;
        } }
    {
        if let LineRead::Row(row) = read {
            self.note_row(row);
        }
    }

    /// The line of one more row stands behind the last seal.
    pub(crate) fn count_row(&mut self)
        ensures { self.new ≡ record self.old { rows = one_more_row self.old.rows } }
    {
        if self.rows < SEAL_ROWS {
            self.rows += 1;
        }
    }

    /// Behind the others stand these octets: lines.
    pub(crate) fn cover(&mut self, octets: &[u8])
        ensures covers { (chapters : ℕ) (seal : List ℕ) (unsealed lines : List (List ℕ))
            → EndsAt chapters seal unsealed self.old → octets.now ≡ text_of_lines lines
            → lines ≢ [] → EndsAt chapters seal (unsealed ++ lines) self.new }
        ensures count { self.new.chapters ≡ self.old.chapters }
        ensures rows { self.new.rows ≡ self.old.rows }
        ensures time { self.new.time ≡ self.old.time }
        ensures first { self.new.first ≡ self.old.first }
    {
        self.unsealed.cover(octets);
        self.is_sealed = false;
    }

    /// Behind the others stands this line, and its line feed.
    pub(crate) fn cover_line(&mut self, line: &[u8])
        ensures covers { (chapters : ℕ) (seal : List ℕ) (unsealed : List (List ℕ))
            → EndsAt chapters seal unsealed self.old
            → EndsAt chapters seal (unsealed ++ line.now ∷ []) self.new }
        ensures count { self.new.chapters ≡ self.old.chapters }
        ensures rows { self.new.rows ≡ rows_with line.now self.old.rows }
        ensures time { self.new.time ≡ time_after line.now self.old.time }
        ensures first { self.new.first ≡ self.old.first }
    {
        self.unsealed.cover(line);
        self.unsealed.cover(b"\n");
        self.is_sealed = false;
        self.time = time_after(line, self.time);
        if !is_comment(line) {
            self.count_row();
        }
    }

    /// Reads the line of a seal; says whether it is the next one. Behind it there is nothing yet.
    pub(crate) fn meet_seal(&mut self, alloc: Global, line: &[u8]) -> Result<bool, NoMemory>
        ensures right { IfOk result (λ right. (chapters : ℕ) (seal : List ℕ)
            (unsealed : List (List ℕ)) → EndsAt chapters seal unsealed self.old
            → right ≡ is_same_line (seal_line (seal_of seal unsealed)) line.now) }
        ensures behind { IfOk result (λ right. (chapters : ℕ) (seal : List ℕ)
            (unsealed : List (List ℕ)) → EndsAt chapters seal unsealed self.old
            → EndsAt chapters (seal_of seal unsealed) [] self.new) }
        ensures count { self.new.chapters ≡ self.old.chapters }
        ensures time { self.new.time ≡ self.old.time }
        ensures first { self.new.first ≡ self.old.first }
    {
        let seal = self.seal(alloc)?;
        Ok(is_same(&seal, line))
    }

    /// Returns the line of the next seal, with its line feed. After it the seal covers nothing yet.
    pub fn seal_text(&mut self, alloc: Global) -> Result<Vec<u8>, NoMemory>
        ensures line { IfOk result (λ line. (chapters : ℕ) (seal : List ℕ)
            (unsealed : List (List ℕ)) → EndsAt chapters seal unsealed self.old
            → line.items ≡ text_of_lines (seal_line (seal_of seal unsealed) ∷ [])) }
        ensures behind { IfOk result (λ line. (chapters : ℕ) (seal : List ℕ)
            (unsealed : List (List ℕ)) → EndsAt chapters seal unsealed self.old
            → EndsAt chapters (seal_of seal unsealed) [] self.new) }
        ensures sealed { OnOk result (self.new.sealed ≡ true) }
        ensures rows { OnOk result (self.new.rows ≡ 0) }
        ensures count { self.new.chapters ≡ self.old.chapters }
        ensures time { self.new.time ≡ self.old.time }
        ensures first { self.new.first ≡ self.old.first }
    {
        let mut line = self.seal(alloc)?;
        line.push(b'\n')?;
        Ok(line)
    }

    /// The line of the next seal, without its line feed. Behind it there is nothing yet.
    pub(crate) fn seal(&mut self, alloc: Global) -> Result<Vec<u8>, NoMemory>
        ensures line { IfOk result (λ line. (chapters : ℕ) (seal : List ℕ)
            (unsealed : List (List ℕ)) → EndsAt chapters seal unsealed self.old
            → line.items ≡ seal_line (seal_of seal unsealed)) }
        ensures behind { IfOk result (λ line. (chapters : ℕ) (seal : List ℕ)
            (unsealed : List (List ℕ)) → EndsAt chapters seal unsealed self.old
            → EndsAt chapters (seal_of seal unsealed) [] self.new) }
        ensures sealed { OnOk result (self.new.sealed ≡ true) }
        ensures rows { OnOk result (self.new.rows ≡ 0) }
        ensures seals { self.old.seals + 1 < 2 ^ 64
            → OnOk result (self.new.seals ≡ self.old.seals + 1) }
        ensures count { self.new.chapters ≡ self.old.chapters }
        ensures time { self.new.time ≡ self.old.time }
        ensures first { self.new.first ≡ self.old.first }
    {
        self.seal = self.unsealed.seal(alloc)?;
        self.is_sealed = true;
        self.rows = 0;
        self.seals = self.seals.saturating_add(1);
        let mut line = Vec::from_slice(alloc, SEAL_MARK)?;
        line.extend_from_slice(self.seal.as_bytes())?;
        Ok(line)
    }
}

/// Are these the same octets?
fn is_same(right: &[u8], line: &[u8]) -> bool
    ensures { result ≡ is_same_line right.now line.now }
{
    line.len() == right.len() && line.starts_with(right)
}
