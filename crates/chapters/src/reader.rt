//! A history, read chapter after chapter.

ghost use Rattle.std.specs.Prelude.{◌≡◌, ◌≢◌, ◌++◌, ◌∷◌, ◌+◌, ◌<◌, ◌≤◌, [], ℕ, List, IfErr, IfOk};
ghost use Rattle.std.specs.Prelude.{◌&&◌, IfSome, None, OnErr, OnOk, drop, false, length, not};
ghost use Rattle.std.specs.Prelude.{string_bytes, take, true};
ghost use Rattle.std.specs.List.{cons_option};
ghost use Rattle.site_book.specs.Book.{next_row};
ghost use Rattle.site_book.specs.Unpaid.{GoesBy};
ghost use Rattle.stamps.specs.Stamps.{time_after, time_of_lines};
ghost use Rattle.chapters.specs.declared.history_end.TheConstants.{MOST_CHAPTERS};
ghost use Rattle.chapters.specs.ChapterBegins.{begin_of};
ghost use Rattle.chapters.specs.ChapterReading.{HistoryRead, read_line, read_text};
ghost use Rattle.chapters.specs.ChapterText.{first_lines, text_of_lines};
ghost use Rattle.chapters.specs.History.{IsMadeOf};
ghost use Rattle.chapters.specs.Lines.{unfinished, whole_lines};
ghost use Rattle.chapters.specs.OpenShift.{first_with};
ghost use Rattle.chapters.specs.Readers.{AddsText, AreRead, AreWholeLines, HasRead, IsOfText};
ghost use Rattle.chapters.specs.Readers.{IsReading, IsRefused, KeepsLines, Names, NamesIn};
ghost use Rattle.chapters.specs.Readers.{is_right, row_read};
ghost use Rattle.chapters.specs.RowText.{IsSent};

use crate::chapter_begin::ChapterBegin;
use crate::fault::HistoryFault;
use crate::first_lines::meet_first_lines;
use crate::history_end::{HistoryEnd, SEAL_MARK};
use crate::line_read::{LineRead, is_comment};
use crate::request_line::LineReader;
use memchr::memchr;
use site_base::{Actor, Event, NoMemory, Placed, Row, SiteConfig};
use site_book::{SiteBook, UnpaidSales};
use std::alloc::Global;
use std::marker::Model;

/// The most rows in memory before more are read, if the site file allows that many. They take 4
/// MiB, or 7 MiB if each row tells what was drawn of a product.
pub const ROWS_IN_MEMORY: usize = 65_536;

/// So many lines name a chapter, before those of its rows.
const FIRST_LINES: u64 = 3;

/// A history as far as it is read: the book of its rows, the transactions that may be unpaid, and
/// where it ends.
#[derive(Drop)]
pub struct HistoryReader {
    alloc: Global,
    site: String,
    lines: LineReader,
    book: SiteBook,
    unpaid: UnpaidSales,
    end: HistoryEnd,
    /// Where its last chapter began.
    begin: ChapterBegin,
    /// So many lines of its last chapter are read.
    line: u64,
    /// Octets stand behind the last line feed.
    is_torn: bool,
}

impl Model for HistoryReader {
    ghost use Rattle.std.specs.Prelude.{string_bytes};
    ghost use Rattle.site_book.specs.Unpaid.{GoesBy};
    ghost use Rattle.chapters.specs.Readers.{ReaderState};

    ghost Value = { ReaderState };

    ghost view = { λ r. record {
      site = string_bytes r.site;
      book = r.book;
      unpaid = r.unpaid;
      end = r.end;
      begin = r.begin;
      line = r.line;
      torn = r.is_torn;
    } };

    ghost invariant = { λ r. GoesBy r.unpaid r.book };
}

/// The next row of a chapter, and how far the text was read for it.
#[derive(Clone, Copy, Debug, PartialEq, Eq)]
pub struct RowRead {
    /// The row; None if no line is left.
    pub row: Option<Row>,
    /// The number of octets that were read: whole lines.
    pub octets: usize,
}

/// What was read of a history.
#[derive(Drop)]
pub struct ReadHistory {
    /// The name of its site.
    pub site: String,
    /// The book of its rows, restored. It may have forgotten them.
    pub book: SiteBook,
    /// Those of its transactions that may be unpaid.
    pub unpaid: UnpaidSales,
    /// Where it ends, without its torn last line.
    pub end: HistoryEnd,
    /// Where its last chapter began.
    pub begin: ChapterBegin,
}

impl HistoryReader {
    /// Returns a reader of the history of this site, which has read nothing yet.
    pub fn open(alloc: Global, config: &SiteConfig, site: String) -> Result<HistoryReader, NoMemory>
        ensures site { IfOk result (λ r. r.site ≡ string_bytes site) }
        ensures config { IfOk result (λ r. r.book.config ≡ config.now) }
        ensures nothing { IfOk result (HasRead []) }
    {
        let book = SiteBook::try_open(alloc, config)?;
        let begin = ChapterBegin::of(&book);
        Ok(HistoryReader {
            alloc,
            site,
            lines: LineReader::new(alloc),
            book,
            unpaid: UnpaidSales::new(alloc),
            end: HistoryEnd::new(alloc)?,
            begin,
            line: 0,
            is_torn: false,
        })
    }

    /// Returns the number of chapters that were read.
    pub fn chapters(&self) -> u64
        ensures { result ≡ self.now.end.chapters }
    {
        self.end.chapters()
    }

    /// Returns the first lines of the next chapter.
    pub fn next_lines(&self) -> Result<String, NoMemory>
        ensures { IfOk result (λ text. string_bytes text ≡ text_of_lines
            (first_lines self.now.site (self.now.end.chapters + 1) self.now.end.seal)) }
    {
        self.end.next_lines(self.alloc, self.site.as_str())
    }

    /// Returns the book of the rows that were read.
    pub fn book(&self) -> &SiteBook
        ensures { result.now ≡ self.now.book }
    {
        &self.book
    }

    /// Returns where the text that was read ends, with its last time and its seals.
    pub fn end(&self) -> &HistoryEnd
        ensures { result.now ≡ self.now.end }
    {
        &self.end
    }

    /// Reads the text of the next chapter. Returns how many of its octets are whole lines.
    ///
    /// `NotAfter` means that the chapters before it don't end with a seal, or that its third line
    /// doesn't name their last seal. `Line` names the first line that is wrong.
    pub fn read_chapter(&mut self, text: &[u8]) -> Result<usize, HistoryFault>
        requires { self.old.end.chapters < MOST_CHAPTERS }
        ensures read { IfOk result (λ whole. (texts : List (List ℕ)) → HasRead texts self.old
            → HasRead (texts ++ text.now ∷ []) self.new) }
        ensures whole { IfOk result (λ whole. AreWholeLines whole text.now) }
        ensures refused { IfErr result (λ fault. IsOfText fault → (texts : List (List ℕ))
            → HasRead texts self.old → IsRefused texts text.now self.old) }
        ensures named { IfErr result (λ fault. IsOfText fault → (texts : List (List ℕ))
            → (h : HasRead texts self.old)
            → Names self.old.site (length texts + 1) h.reading text.now fault) }
        ensures site { self.new.site ≡ self.old.site }
        ensures config { self.new.book.config ≡ self.old.book.config }
        ensures chapters { OnOk result (self.new.end.chapters ≡ self.old.end.chapters + 1) }
        ensures begins { OnOk result (self.new.begin ≡ begin_of self.old.book) }
    {
        let octets = match self.begin_chapter(text) {
            Ok(octets) => octets,
            Err(fault) => return Err(fault),
        };
        let mut rest = &text[octets..];
        let mut is_left = true;
        while is_left {
            let read = match self.next_row(rest) {
                Ok(read) => read,
                Err(fault) => return Err(fault),
            };
            let (_, others) = rest.split_at(read.octets);
            rest = others;
            is_left = read.row.is_some();
        }
        Ok(text.len() - rest.len())
    }

    /// Begins the next chapter, which has this text, and reads the lines that name it. Returns the
    /// number of their octets. `next_row` reads its rows.
    ///
    /// `NotAfter` means that the chapters before it don't end with a seal, or that its third line
    /// doesn't name their last seal. `Line` names the first line that is wrong.
    pub fn begin_chapter(&mut self, text: &[u8]) -> Result<usize, HistoryFault>
        requires { self.old.end.chapters < MOST_CHAPTERS }
        ensures begun { IfOk result (λ octets. (texts : List (List ℕ)) → HasRead texts self.old
            → IsReading texts text.now (drop octets text.now) self.new) }
        ensures within { IfOk result (λ octets. octets ≤ length text.now) }
        ensures whole { IfOk result (λ octets. unfinished (take octets text.now) ≡ []) }
        ensures refused { IfErr result (λ fault. IsOfText fault → (texts : List (List ℕ))
            → HasRead texts self.old → IsRefused texts text.now self.old) }
        ensures named { IfErr result (λ fault. IsOfText fault → (texts : List (List ℕ))
            → (h : HasRead texts self.old)
            → Names self.old.site (length texts + 1) h.reading text.now fault) }
        ensures site { self.new.site ≡ self.old.site }
        ensures book { self.new.book ≡ self.old.book }
        ensures time { self.new.end.time ≡ self.old.end.time }
        ensures first { self.new.end.first ≡ self.old.end.first }
        ensures chapters { OnOk result (self.new.end.chapters ≡ self.old.end.chapters + 1) }
        ensures begins { OnOk result (self.new.begin ≡ begin_of self.old.book) }
        ensures err { OnErr result (self.new ≡ self.old) }
    {
        let number = self.end.chapters() + 1;
        if !self.is_ended() {
            return Err(HistoryFault::NotAfter(number, number - 1));
        }
        let (site, after) = (self.site.as_str(), self.end.last_seal());
        let first = match meet_first_lines(self.alloc, site, number, after, text) {
            Ok(first) => first,
            Err(fault) => return Err(fault),
        };
        self.begin = ChapterBegin::of(&self.book);
        self.line = FIRST_LINES;
        let octets = first.as_bytes();
        self.end.begin_chapter(octets);
        Ok(octets.len())
    }

    /// Reads the rest of a chapter's text up to its next row, and puts that row into the book.
    /// After the last row it reads the remaining lines.
    ///
    /// `Line` names the first line that is wrong.
    pub fn next_row(&mut self, text: &[u8]) -> Result<RowRead, HistoryFault>
        ensures reads { IfOk result (λ read. (texts : List (List ℕ)) (whole : List ℕ)
            → IsReading texts whole text.now self.old
            → IsReading texts whole (drop read.octets text.now) self.new) }
        ensures row { IfOk result (λ read. self.new.book.rows
            ≡ self.old.book.rows ++ cons_option read.row []) }
        ensures sent { IfOk result (λ read. IfSome read.row IsSent) }
        ensures ends { IfOk result (λ read. read.row ≡ None → (texts : List (List ℕ))
            (whole : List ℕ) → IsReading texts whole text.now self.old
            → HasRead (texts ++ whole ∷ []) self.new) }
        ensures within { IfOk result (λ read. read.octets ≤ length text.now) }
        ensures whole { IfOk result (λ read. unfinished (take read.octets text.now) ≡ []) }
        ensures last { IfOk result (λ read. read.row ≡ None
            → whole_lines (drop read.octets text.now) ≡ []) }
        ensures more { IfOk result (λ read. read.row ≢ None → 0 < read.octets) }
        ensures time { IfOk result (λ read. self.new.end.time
            ≡ time_of_lines (whole_lines (take read.octets text.now)) self.old.end.time) }
        ensures first { IfOk result (λ read. self.new.end.first
            ≡ first_with read.row self.new.end.time self.old.end.first) }
        ensures refused { IfErr result (λ fault. IsOfText fault → (texts : List (List ℕ))
            (whole : List ℕ) → IsReading texts whole text.now self.old
            → IsRefused texts whole self.old) }
        ensures named { IfErr result (λ fault. IsOfText fault → (texts : List (List ℕ))
            (whole : List ℕ) → (h : IsReading texts whole text.now self.old)
            → NamesIn texts whole h.before self.old fault) }
        ensures site { self.new.site ≡ self.old.site }
        ensures config { self.new.book.config ≡ self.old.book.config }
        ensures chapters { self.new.end.chapters ≡ self.old.end.chapters }
        ensures begins { self.new.begin ≡ self.old.begin }
    {
        let mut rest = text;
        while let Some(end) = memchr(b'\n', rest) {
            let (line, others) = rest.split_at(end);
            rest = &others[1..];
            self.line = self.line.saturating_add(1);
            match self.read_line(line)? {
                LineRead::Wrong => {
                    return Err(HistoryFault::Line(self.end.chapters(), self.line));
                }
                LineRead::NoRow => {}
                LineRead::Row(row) => {
                    return Ok(RowRead {
                        row: Some(row),
                        octets: text.len() - rest.len(),
                    });
                }
            }
        }
        self.is_torn = !rest.is_empty();
        Ok(RowRead {
            row: None,
            octets: text.len() - rest.len(),
        })
    }

    /// Do the chapters end with a seal, or is there none?
    fn is_ended(&self) -> bool
        ensures { result ≡ (not self.now.torn && self.now.end.sealed) }
    {
        !self.is_torn && self.end.is_sealed()
    }

    /// Reads a line.
    fn read_line(&mut self, line: &[u8]) -> Result<LineRead, NoMemory>
        ensures right { IfOk result (λ read. is_right read ≡ true → (chapters : ℕ)
            (r : HistoryRead) → KeepsLines chapters r self.old
            → AreRead chapters r (line.now ∷ []) self.new) }
        ensures wrong { IfOk result (λ read. is_right read ≡ false → (chapters : ℕ)
            (r : HistoryRead) → KeepsLines chapters r self.old → read_line line.now r ≡ None) }
        ensures row { IfOk result (λ read. self.new.book.rows
            ≡ self.old.book.rows ++ cons_option (row_read read) []) }
        ensures sent { IfOk result (λ read. IfSome (row_read read) IsSent) }
        ensures time { OnOk result (self.new.end.time ≡ time_after line.now self.old.end.time) }
        ensures first { IfOk result (λ read. self.new.end.first
            ≡ first_with (row_read read) self.new.end.time self.old.end.first) }
        ensures site { self.new.site ≡ self.old.site }
        ensures config { self.new.book.config ≡ self.old.book.config }
        ensures chapters { self.new.end.chapters ≡ self.old.end.chapters }
        ensures begins { self.new.begin ≡ self.old.begin }
        ensures number { self.new.line ≡ self.old.line }
        ensures torn { self.new.torn ≡ self.old.torn }
    {
        if line.starts_with(SEAL_MARK) {
            return Ok(LineRead::of_seal(self.end.meet_seal(self.alloc, line)?));
        }
        let read = self.read_text(line)?;
        self.end.cover_line(line);
        self.end.note_read(&read);
        Ok(read)
    }

    /// Reads a line that is no seal, and adds its row, if it is no comment.
    fn read_text(&mut self, line: &[u8]) -> Result<LineRead, NoMemory>
        ensures right { IfOk result (λ read. is_right read ≡ true → (r : HistoryRead)
            → IsMadeOf self.old.book r.events → AddsText line.now r self.new) }
        ensures wrong { IfOk result (λ read. is_right read ≡ false → (r : HistoryRead)
            → read_text line.now r ≡ None) }
        ensures row { IfOk result (λ read. self.new.book.rows
            ≡ self.old.book.rows ++ cons_option (row_read read) []) }
        ensures sent { IfOk result (λ read. IfSome (row_read read) IsSent) }
        ensures site { self.new.site ≡ self.old.site }
        ensures config { self.new.book.config ≡ self.old.book.config }
        ensures end { self.new.end ≡ self.old.end }
        ensures begins { self.new.begin ≡ self.old.begin }
        ensures number { self.new.line ≡ self.old.line }
        ensures torn { self.new.torn ≡ self.old.torn }
    {
        if is_comment(line) {
            return Ok(LineRead::NoRow);
        }
        let Some((actor, event)) = self.lines.read(line)? else {
            return Ok(LineRead::Wrong);
        };
        Ok(LineRead::Row(self.add_row(&actor, &event)?))
    }

    /// Forgets the rows in memory, where the book may be full soon.
    fn make_room(&mut self) -> Result<(), NoMemory>
        ensures rows { self.new.book.rows ≡ self.old.book.rows }
        ensures config { self.new.book.config ≡ self.old.book.config }
        ensures site { self.new.site ≡ self.old.site }
        ensures end { self.new.end ≡ self.old.end }
        ensures begins { self.new.begin ≡ self.old.begin }
        ensures number { self.new.line ≡ self.old.line }
        ensures torn { self.new.torn ≡ self.old.torn }
    {
        let rows = self.book.rows_in_memory();
        if rows >= ROWS_IN_MEMORY || rows >= self.book.config().rows() as usize {
            self.unpaid.forget_rows(self.alloc, &mut self.book)?;
        }
        Ok(())
    }

    /// Adds the row of a request, once there is room for it. Behind 2^62 rows the book is full, and
    /// it fails as for want of memory.
    fn add_row(&mut self, actor: &Actor, event: &Event) -> Result<Row, NoMemory>
        ensures row { IfOk result (λ row. row ≡ next_row self.old.book actor.now event.now) }
        ensures added { OnOk result (self.new.book.rows
            ≡ self.old.book.rows ++ next_row self.old.book actor.now event.now ∷ []) }
        ensures config { self.new.book.config ≡ self.old.book.config }
        ensures site { self.new.site ≡ self.old.site }
        ensures end { self.new.end ≡ self.old.end }
        ensures begins { self.new.begin ≡ self.old.begin }
        ensures number { self.new.line ≡ self.old.line }
        ensures torn { self.new.torn ≡ self.old.torn }
    {
        self.make_room()?;
        match self.book.apply(*actor, *event) {
            Ok(Placed { place: _, reply }) => Ok(Row {
                actor: *actor,
                event: *event,
                reply,
            }),
            Err(_) => Err(NoMemory),
        }
    }

    /// Returns what was read.
    pub fn into_read(self) -> ReadHistory
        ensures site { string_bytes result.site ≡ self.site }
        ensures book { result.book ≡ self.book }
        ensures unpaid { result.unpaid ≡ self.unpaid }
        ensures goes { GoesBy result.unpaid result.book }
        ensures end { result.end ≡ self.end }
        ensures begin { result.begin ≡ self.begin }
    {
        ReadHistory {
            site: self.site,
            book: self.book,
            unpaid: self.unpaid,
            end: self.end,
            begin: self.begin,
        }
    }
}
