//! The rows of a folder's history, one after another.

ghost use Rattle.std.specs.Prelude.{◌≡◌, ◌<◌, ◌+◌, ◌++◌, [], IfErr, IfOk, IfSome, None, OnOk};
ghost use Rattle.std.specs.List.{cons_option};
ghost use Rattle.chapters.specs.declared.history_end.TheConstants.{MOST_CHAPTERS};
ghost use Rattle.chapters.specs.RowText.{IsSent};
ghost use Rattle.history_folder.specs.Reading.{HasReadBegun, IsWhole};
ghost use Rattle.program_io.specs.Statuses.{IsFailed};

use crate::exit::exit_history;
use crate::place::WalkPlace;
use crate::reading::{open_folder, read_chapter};
use crate::seal_search::{LinePlace, SealSearch};
use chapters::{HistoryEnd, HistoryReader};
use program_io::FAULT;
use site_base::{NoMemory, Row};
use site_book::SiteBook;
use std::alloc::Global;
use std::marker::Model;
use std::process::ExitCode;
use std::rt::Files;

/// A walk over the rows of a folder's history. It gives each row once its book has that row. It
/// reads the chapters one after another, and has checked each one as far as it has come.
#[derive(Drop)]
pub struct FolderWalk {
    reader: HistoryReader,
    /// So many chapters the folder had when the walk began.
    count: u64,
    /// The text of the chapter that is being read.
    text: Vec<u8>,
    /// So many octets of it are read.
    octets: usize,
    place: WalkPlace,
    /// The seal that is looked for, if one is.
    search: Option<SealSearch>,
}

impl Model for FolderWalk {
    ghost use Rattle.history_folder.specs.Reading.{IsWalking, WalkState};

    ghost Value = { WalkState };

    ghost view = { λ w. record { reader = w.reader; count = w.count; place = w.place } };

    ghost invariant = { λ w. IsWalking w.reader w.count w.text.items w.octets w.place };
}

impl FolderWalk {
    /// Begins a walk over the history in this folder, before its first row. If a file can't be read
    /// or has a fault, or a chapter is missing, prints that and returns the exit status.
    pub fn open<R: Files + Eprint + AllocGlobal>(
        rt: &R,
        folder: &str,
    ) -> Result<FolderWalk, ExitCode>
        ensures none { IfOk result (λ walk. walk.reader.book.rows ≡ []) }
        ensures failed { IfErr result IsFailed }
    {
        let (reader, count) = open_folder(rt, folder)?;
        Ok(FolderWalk {
            reader,
            count,
            text: Vec::new(rt.alloc()),
            octets: 0,
            place: WalkPlace::Between,
            search: None,
        })
    }

    /// Lets the walk look for this seal, in 64 digits, in each chapter that it begins from now on.
    pub fn seek_seal(&mut self, alloc: Global, seal: &str) -> Result<(), NoMemory>
        ensures { self.new ≡ self.old }
    {
        self.search = Some(SealSearch::new(alloc, seal)?);
        Ok(())
    }

    /// Returns where that seal is, if a chapter that the walk has begun has it.
    pub fn seal_place(&self) -> Option<LinePlace> {
        match &self.search {
            Some(search) => search.place(),
            None => None,
        }
    }

    /// Returns the book of the rows that were given.
    pub fn book(&self) -> &SiteBook
        ensures { result.now ≡ self.now.reader.book }
    {
        self.reader.book()
    }

    /// Returns where the text that was read ends: right after the line of the row that was given
    /// last, or after all lines once no row is left. Its time is the last time up to there.
    pub fn end(&self) -> &HistoryEnd
        ensures { result.now ≡ self.now.reader.end }
    {
        self.reader.end()
    }

    /// Returns the number of octets of the current chapter that aren't read yet. Once no row is
    /// left, they are the octets of a last line without a line feed.
    pub fn unread(&self) -> usize {
        self.text.len() - self.octets
    }

    /// Returns the next row; None after the last one, once each chapter is read. If a chapter can't
    /// be read or is refused, prints that and returns the exit status.
    pub fn next<R: Files + Eprint + AllocGlobal>(
        &mut self,
        rt: &R,
        folder: &str,
    ) -> Result<Option<Row>, ExitCode>
        ensures row { IfOk result (λ row. self.new.reader.book.rows
            ≡ self.old.reader.book.rows ++ cons_option row []) }
        ensures sent { IfOk result (λ row. IfSome row IsSent) }
        ensures whole { IfOk result (λ row. row ≡ None → IsWhole self.new) }
        ensures config { self.new.reader.book.config ≡ self.old.reader.book.config }
        ensures failed { IfErr result IsFailed }
    {
        let mut row = self.next_in_chapter(rt, folder)?;
        while row.is_none() && self.reader.chapters() < self.count {
            self.begin_chapter(rt, folder)?;
            row = self.next_in_chapter(rt, folder)?;
        }
        Ok(row)
    }

    /// Begins the next chapter of the folder.
    fn begin_chapter<R: Files + Eprint + AllocGlobal>(
        &mut self,
        rt: &R,
        folder: &str,
    ) -> Result<(), ExitCode>
        requires more { self.old.reader.end.chapters < self.old.count }
        requires between { self.old.place ≡ WalkPlace.Between }
        ensures begun { OnOk result
            (self.new.reader.end.chapters ≡ self.old.reader.end.chapters + 1) }
        ensures book { self.new.reader.book ≡ self.old.reader.book }
        ensures count { self.new.count ≡ self.old.count }
        ensures failed { IfErr result IsFailed }
    {
        let text = read_chapter(rt, folder, self.reader.chapters() + 1, self.count)?;
        match self.reader.begin_chapter(&text) {
            Ok(octets) => {
                look_in(&mut self.search, self.reader.chapters(), &text);
                self.text = text;
                self.octets = octets;
                self.place = WalkPlace::Within;
                Ok(())
            }
            Err(fault) => Err(exit_history(rt, folder, fault)),
        }
    }

    /// The next row of the chapter that is being read. None where it has no more, or none is.
    fn next_in_chapter(&mut self, rt: &impl Eprint, folder: &str) -> Result<Option<Row>, ExitCode>
        ensures row { IfOk result (λ row. self.new.reader.book.rows
            ≡ self.old.reader.book.rows ++ cons_option row []) }
        ensures sent { IfOk result (λ row. IfSome row IsSent) }
        ensures read { IfOk result (λ row. row ≡ None → HasReadBegun self.new.reader) }
        ensures place { IfOk result (λ row. row ≡ None → self.new.place ≡ WalkPlace.Between) }
        ensures config { self.new.reader.book.config ≡ self.old.reader.book.config }
        ensures chapters { self.new.reader.end.chapters ≡ self.old.reader.end.chapters }
        ensures count { self.new.count ≡ self.old.count }
        ensures failed { IfErr result IsFailed }
    {
        match self.place {
            WalkPlace::Between => Ok(None),
            WalkPlace::Within => self.read_row(rt, folder),
            WalkPlace::Refused => Err(ExitCode::from(FAULT)),
        }
    }

    /// The next row of the chapter that is being read. None where it has no more.
    fn read_row(&mut self, rt: &impl Eprint, folder: &str) -> Result<Option<Row>, ExitCode>
        requires { self.old.place ≡ WalkPlace.Within }
        ensures row { IfOk result (λ row. self.new.reader.book.rows
            ≡ self.old.reader.book.rows ++ cons_option row []) }
        ensures sent { IfOk result (λ row. IfSome row IsSent) }
        ensures read { IfOk result (λ row. row ≡ None → HasReadBegun self.new.reader) }
        ensures place { IfOk result (λ row. row ≡ None → self.new.place ≡ WalkPlace.Between) }
        ensures config { self.new.reader.book.config ≡ self.old.reader.book.config }
        ensures chapters { self.new.reader.end.chapters ≡ self.old.reader.end.chapters }
        ensures count { self.new.count ≡ self.old.count }
        ensures failed { IfErr result IsFailed }
    {
        match self.reader.next_row(&self.text[self.octets..]) {
            Ok(read) => {
                self.octets += read.octets;
                if read.row.is_none() {
                    self.place = WalkPlace::Between;
                }
                Ok(read.row)
            }
            Err(fault) => {
                self.place = WalkPlace::Refused;
                Err(exit_history(rt, folder, fault))
            }
        }
    }
}

/// Looks for the seal that is looked for, if one is, in the text of the chapter of this number.
fn look_in(search: &mut Option<SealSearch>, chapter: u64, text: &[u8]) {
    if let Some(search) = search {
        search.look(chapter, text);
    }
}
