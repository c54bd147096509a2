//! A journal that is written.

ghost use Rattle.std.specs.Prelude.{◌≡◌, ◌≢◌, ◌≤◌, ◌<◌, [], IfOk, List, None, OnOk, false, length};
ghost use Rattle.std.specs.Prelude.{string_bytes, true};
ghost use Rattle.site_base.specs.declared.row.Row.{Row as RowFacts};
ghost use Rattle.chapters.specs.declared.history_end.TheConstants.{MOST_CHAPTERS, SEAL_ROWS};
ghost use Rattle.std.specs.List.{AllByRecursion};
ghost use Rattle.chapters.specs.RowText.{IsSent, kept_behind};
ghost use Rattle.journal.specs.ChapterEnds.{IsEnd, may_try, rows_kept};
ghost use Rattle.journal.specs.Disks.{Keeps, OfFile, OfFiles};
ghost use Rattle.chapters.specs.Rounds.{time_behind};
ghost use Rattle.chapters.specs.OpenShift.{open_since};
ghost use Rattle.journal.specs.Stored.{GrowsByLines, HasBegun, IsJournalOf, first_stored};
ghost use Rattle.journal.specs.Stored.{is_behind};

use crate::disk::{Disk, DiskFault};
use chapters::{ChapterBegin, HistoryEnd, MOST_CHAPTERS};
use site_book::SiteBook;
use stamps::Stamp;
use std::alloc::Global;
use std::marker::Model;
use std::time::Instant;

/// The number of kept rows after which a refused next chapter is tried again.
pub const RETRY_ROWS: u64 = 1_024;

/// A round that begins so many seconds after the last seal, or more, ends with one.
const SEAL_SECONDS: u64 = 1;

/// What became of a chapter that may be over.
#[derive(Clone, Copy, Debug, PartialEq, Eq)]
pub enum ChapterEnd {
    /// It isn't over, or the next one was refused a short while ago. Nothing was done.
    NotDue,
    /// It has ended, and the next one has begun.
    Ended,
    /// It is over, but there can't be a next one now. It continues.
    Refused,
}

/// A journal's disk, and how far it has come. Once a write has failed it takes no more.
#[derive(Drop)]
pub struct Journal<D: Disk> {
    alloc: Global,
    disk: D,
    site: String,
    end: HistoryEnd,
    /// Where the open chapter began.
    begin: ChapterBegin,
    /// At how many kept rows the next chapter was refused last.
    refused: Option<u64>,
    /// So many rows are stored.
    stored: u64,
    has_failed: bool,
    /// The time of this round, if it is known.
    clock: Option<Stamp>,
    /// When this round began.
    round_at: Option<Instant>,
    /// When the round began that ended with the last seal.
    sealed_at: Option<Instant>,
    /// A seal is due at the end of this round.
    is_due: bool,
    /// The lines of this round.
    text: Vec<u8>,
}

impl<D: Disk> Model for Journal<D> {
    ghost use Rattle.std.specs.Prelude.{string_bytes};
    ghost use Rattle.journal.specs.Stored.{JournalState};

    ghost Value = { JournalState };

    ghost view = { λ j. record {
      site = string_bytes j.site;
      stored = j.stored;
      failed = j.has_failed;
      end = j.end;
      begin = j.begin;
      refused = j.refused;
      clock = j.clock;
      due = j.is_due;
      file = D.file j.disk;
    } };
}

impl<D: Disk> Journal<D> {
    /// The journal of a site on this disk, whose chapters end so, the last of which began so, and
    /// which have so many rows; the first round is at this time.
    pub(crate) fn new(
        alloc: Global,
        disk: D,
        site: String,
        end: HistoryEnd,
        begin: ChapterBegin,
        stored: u64,
        clock: Option<Stamp>,
    ) -> Journal<D>
        ensures { result ≡ record {
          site = string_bytes site;
          stored = stored;
          failed = false;
          end = end;
          begin = begin;
          refused = None;
          clock = clock;
          due = true;
          file = D.file disk;
        } }
    {
        Journal {
            alloc,
            disk,
            site,
            end,
            begin,
            refused: None,
            stored,
            has_failed: false,
            clock,
            round_at: None,
            sealed_at: None,
            is_due: true,
            text: Vec::new(alloc),
        }
    }

    /// The disk that it lies on.
    pub(crate) fn into_disk(self) -> D
        ensures { D.file result ≡ self.file }
    {
        self.disk
    }

    /// So many rows are stored.
    pub(crate) fn stored(&self) -> u64
        ensures { result ≡ self.now.stored }
    {
        self.stored
    }

    /// The last seal; 64 zeros where there is none.
    pub(crate) fn last_seal(&self) -> &str
        ensures { result.now ≡ self.now.end.seal }
    {
        self.end.last_seal()
    }

    /// When the round began that ended with the last seal, if one has since the start.
    pub(crate) fn sealed_at(&self) -> Option<Instant> {
        self.sealed_at
    }

    /// So many chapters of it are closed.
    pub(crate) fn closed(&self) -> u64
        ensures { OfFile (λ f. result ≡ length f.closed) self.now.file }
    {
        self.disk.closed()
    }

    /// The last time that it tells, if it tells one.
    pub(crate) fn last_time(&self) -> Option<Stamp>
        ensures { result ≡ self.now.end.time }
    {
        self.end.time()
    }

    /// The time of the first row of the shift that is open, if it has one and its time is known.
    pub(crate) fn open_since(&self) -> Option<Stamp>
        ensures { result ≡ open_since self.now.end.first }
    {
        self.end.open_since()
    }

    /// A round begins at this time, if it is known. Where it stores rows, it ends with a seal if it
    /// begins a second or more after the last one. It says whether the time is before the last one
    /// that the journal tells: that one is repeated then.
    pub(crate) fn begin_round(&mut self, clock: Option<Stamp>, at: Instant) -> bool
        ensures round { self.new ≡ record self.old { clock = clock; due = self.new.due } }
        ensures behind { result ≡ is_behind clock self.old.end.time }
    {
        let is_behind = is_behind(&clock, &self.end.time());
        self.is_due = match self.sealed_at {
            None => true,
            Some(sealed) => at.duration_since(sealed).as_secs() >= SEAL_SECONDS,
        };
        self.clock = clock;
        self.round_at = Some(at);
        is_behind
    }

    /// Stores the rows of the book that aren't stored yet, but for those of reads: their lines,
    /// with the round's time and seals, are written behind the others by one call, and synced by
    /// another. Where there are only reads, nothing is written or synced. Where the disk fails, or
    /// there is no memory for the lines, the journal takes no more.
    pub(crate) fn store(&mut self, book: &SiteBook) -> Result<(), DiskFault>
        requires journal { IsJournalOf book.now.rows self.old }
        requires sent { AllByRecursion IsSent book.now.rows }
        requires memory { book.now.forgotten ≤ self.old.stored }
        ensures stored { OnOk result (self.new.stored ≡ length book.now.rows) }
        ensures none_lost { self.old.stored ≤ self.new.stored }
        ensures journal { IsJournalOf book.now.rows self.new }
        ensures site { self.new.site ≡ self.old.site }
        ensures begin { self.new.begin ≡ self.old.begin }
        ensures refused { self.new.refused ≡ self.old.refused }
        ensures lines { OnOk result (GrowsByLines book.now.rows self.old self.new) }
        ensures quiet { kept_behind self.old.stored book.now.rows ≡ []
            → self.new.file ≡ self.old.file }
        ensures time { OnOk result (self.new.end.time
            ≡ time_behind self.old.end.time self.old.clock
            (kept_behind self.old.stored book.now.rows)) }
        ensures clock { self.new.clock ≡ self.old.clock }
        ensures opened { OnOk result (self.new.end.first ≡ first_stored book.now.rows self.old) }
        ensures whole { OnOk result (self.old.failed ≡ false) }
        ensures sealed { self.old.due ≡ true → OnOk result
            (kept_behind self.old.stored book.now.rows ≢ [] → self.new.end.sealed ≡ true) }
        ensures few { self.old.end.rows < SEAL_ROWS
            → OnOk result (self.new.end.rows < SEAL_ROWS) }
        ensures moments { OfFiles Keeps self.old.file self.new.file }
    {
        if self.has_failed {
            return Err(DiskFault::Failed);
        }
        let count = book.len();
        if count == self.stored {
            return Ok(());
        }
        self.has_failed = true;
        let (alloc, clock, is_due) = (self.alloc, self.clock, self.is_due);
        let text = &mut self.text;
        self.end
            .put_round(alloc, book, self.stored, clock, is_due, text)?;
        if self.text.is_empty() {
            self.has_failed = false;
            self.stored = count;
            return Ok(());
        }
        self.disk.append(&self.text)?;
        self.disk.sync()?;
        self.has_failed = false;
        self.stored = count;
        self.note_seal();
        Ok(())
    }

    /// If a seal was due at the end of this round, it is there.
    fn note_seal(&mut self)
        ensures { self.new ≡ self.old }
    {
        if self.is_due {
            self.sealed_at = self.round_at;
        }
    }

    /// Ends the chapter if it is over: a shift was closed in it, or it has 1,000,000 rows. Where
    /// the next one can't be made now, the open one goes on, and it is tried again 1,024 rows
    /// later. Where the disk fails, or memory is wanting, the journal may take no more.
    pub(crate) fn end_if_over(&mut self, book: &SiteBook) -> Result<ChapterEnd, DiskFault>
        requires stored { self.old.stored ≡ length book.now.rows }
        ensures end { IfOk result (λ end. IsEnd end book.now self.old self.new) }
        ensures journal { (rows : List RowFacts) → IsJournalOf rows self.old
            → IsJournalOf rows self.new }
        ensures whole { self.old.failed ≡ false → OnOk result (self.new.failed ≡ false) }
        ensures stored { self.new.stored ≡ self.old.stored }
        ensures site { self.new.site ≡ self.old.site }
        ensures opened { self.new.end.first ≡ self.old.end.first }
        ensures moments { OfFiles Keeps self.old.file self.new.file }
    {
        if !self.begin.is_over(book) || !self.may_try(book) {
            return Ok(ChapterEnd::NotDue);
        }
        if self.end_chapter()? {
            self.begin = ChapterBegin::of(book);
            self.refused = None;
            return Ok(ChapterEnd::Ended);
        }
        self.refused = Some(book.kept_len());
        Ok(ChapterEnd::Refused)
    }

    /// May the next chapter be tried, behind the last row of this book?
    fn may_try(&self, book: &SiteBook) -> bool
        ensures { result ≡ may_try self.now.refused (rows_kept book.now) }
    {
        match self.refused {
            None => true,
            Some(rows) => book.kept_len().saturating_sub(rows) >= RETRY_ROWS,
        }
    }

    /// Ends the chapter: a seal behind its rows, and then the next one with its first lines. It
    /// says whether that has begun. Where there can't be one now, the open one goes on, and it may
    /// be asked again. Where the disk fails, or memory is wanting, the journal may take no more.
    fn end_chapter(&mut self) -> Result<bool, DiskFault>
        ensures journal { (rows : List RowFacts) → IsJournalOf rows self.old
            → IsJournalOf rows self.new }
        ensures begun { IfOk result (λ begun. HasBegun begun self.old.end self.new.end) }
        ensures begin { self.new.begin ≡ self.old.begin }
        ensures refused { self.new.refused ≡ self.old.refused }
        ensures whole { OnOk result (self.new.failed ≡ false) }
        ensures stored { self.new.stored ≡ self.old.stored }
        ensures site { self.new.site ≡ self.old.site }
        ensures opened { self.new.end.first ≡ self.old.end.first }
        ensures moments { OfFiles Keeps self.old.file self.new.file }
    {
        match self.seal() {
            Ok(()) => {}
            Err(fault) => return Err(fault),
        }
        if self.end.chapters() >= MOST_CHAPTERS {
            return Ok(false);
        }
        self.begin_chapter()
    }

    /// Puts a seal behind the last row, if there is none. Where the disk fails, or memory is
    /// wanting, the journal takes no more.
    pub(crate) fn seal(&mut self) -> Result<(), DiskFault>
        ensures journal { (rows : List RowFacts) → IsJournalOf rows self.old
            → IsJournalOf rows self.new }
        ensures whole { OnOk result (self.new.failed ≡ false) }
        ensures sealed { OnOk result (self.new.end.sealed ≡ true) }
        ensures count { self.new.end.chapters ≡ self.old.end.chapters }
        ensures begin { self.new.begin ≡ self.old.begin }
        ensures refused { self.new.refused ≡ self.old.refused }
        ensures stored { self.new.stored ≡ self.old.stored }
        ensures site { self.new.site ≡ self.old.site }
        ensures opened { self.new.end.first ≡ self.old.end.first }
        ensures moments { OfFiles Keeps self.old.file self.new.file }
    {
        if self.has_failed {
            return Err(DiskFault::Failed);
        }
        if self.end.is_sealed() {
            return Ok(());
        }
        self.has_failed = true;
        let line = self.end.seal_text(self.alloc)?;
        let target = &mut self.disk;
        target.append(&line)?;
        target.sync()?;
        self.sealed_at = self.round_at;
        self.has_failed = false;
        Ok(())
    }

    /// Begins the next chapter, behind one that is sealed; says whether it has begun.
    fn begin_chapter(&mut self) -> Result<bool, DiskFault>
        requires whole { self.old.failed ≡ false }
        requires sealed { self.old.end.sealed ≡ true }
        requires most { self.old.end.chapters < MOST_CHAPTERS }
        ensures journal { (rows : List RowFacts) → IsJournalOf rows self.old
            → IsJournalOf rows self.new }
        ensures begun { IfOk result (λ begun. HasBegun begun self.old.end self.new.end) }
        ensures begin { self.new.begin ≡ self.old.begin }
        ensures refused { self.new.refused ≡ self.old.refused }
        ensures whole { OnOk result (self.new.failed ≡ false) }
        ensures stored { self.new.stored ≡ self.old.stored }
        ensures site { self.new.site ≡ self.old.site }
        ensures opened { self.new.end.first ≡ self.old.end.first }
        ensures moments { OfFiles Keeps self.old.file self.new.file }
    {
        let lines = self.end.next_lines(self.alloc, self.site.as_str())?;
        self.has_failed = true;
        if !self.disk.begin(lines.as_bytes())? {
            self.has_failed = false;
            return Ok(false);
        }
        self.end.begin_chapter(lines.as_bytes());
        self.has_failed = false;
        Ok(true)
    }
}

/// Is this time before the last one?
fn is_behind(time: &Option<Stamp>, last: &Option<Stamp>) -> bool
    ensures { result ≡ is_behind time.now last.now }
{
    match (time, last) {
        (Some(time), Some(last)) => time.is_before(last),
        _ => false,
    }
}
