//! A peer that is fed rows.

ghost use Rattle.std.specs.Prelude.{◌≡◌, ◌≤◌, ◌-◌, [], IfOk, OnOk, Some};
ghost use Rattle.row_json.specs.LastRows.{first_of, lines_from};
ghost use Rattle.row_feed.specs.Feeds.{AreMade, AsksOctet, Hears, HearsOctet, Makes, alive};
ghost use Rattle.row_feed.specs.Feeds.{answered, new_feed, with_fault, with_taken};

use crate::chapter_starts::ChapterStarts;
use crate::fault::{FeedFault, put_alive, put_fault};
use crate::first_line::row_asked;
use crate::sizes::{FEED_OCTETS, LINE_OCTETS};
use crate::stage::Stage;
use row_json::LastRows;
use site_base::NoMemory;
use std::alloc::Global;
use std::marker::Model;

/// A peer that is fed rows: how far it has come, and what was made for it and not taken yet. Close
/// it after `NoMemory`.
#[derive(Drop)]
pub struct Feed {
    alloc: Global,
    stage: Stage,
    line: Vec<u8>,
    text: Vec<u8>,
    /// So many octets of the text were taken.
    taken: usize,
}

impl Model for Feed {
    ghost use Rattle.std.specs.Prelude.{◌≤◌, drop, length};
    ghost use Rattle.row_feed.specs.Feeds.{FeedState};

    ghost Value = { FeedState };

    ghost view = { λ f. record {
      stage = f.stage;
      line = f.line.items;
      pending = drop f.taken f.text.items;
    } };

    ghost invariant = { λ f. f.taken ≤ length f.text.items };
}

impl Feed {
    /// Returns a peer that has sent nothing. It takes no memory.
    pub fn new(alloc: Global) -> Feed
        ensures { result ≡ new_feed }
    {
        Feed {
            alloc,
            stage: Stage::Asks,
            line: Vec::new(alloc),
            text: Vec::new(alloc),
            taken: 0,
        }
    }

    /// Returns how far it has come.
    pub fn stage(&self) -> Stage
        ensures { result ≡ self.now.stage }
    {
        self.stage
    }

    /// Hears octets of the peer. `next` is the number of the next row.
    pub fn hear(&mut self, octets: &[u8], next: u64) -> Result<(), NoMemory>
        ensures { OnOk result (Hears next octets.now self.old self.new) }
    {
        for octet in octets {
            self.hear_octet(*octet, next)?;
        }
        Ok(())
    }

    /// An octet of the peer.
    fn hear_octet(&mut self, octet: u8, next: u64) -> Result<(), NoMemory>
        ensures { OnOk result (HearsOctet next octet self.old self.new) }
    {
        match self.stage {
            Stage::Asks => self.hear_asking(octet, next),
            _ => Ok(()),
        }
    }

    /// An octet of its first line.
    fn hear_asking(&mut self, octet: u8, next: u64) -> Result<(), NoMemory>
        ensures { OnOk result (AsksOctet next octet self.old self.new) }
    {
        if octet == b'\n' {
            return match row_asked(&self.line, next) {
                Some(row) => self.follow(row, next),
                None => self.end(FeedFault::NoFrom),
            };
        }
        if self.line.len() < LINE_OCTETS {
            self.line.push(octet)?;
            return Ok(());
        }
        self.end(FeedFault::NoFrom)
    }

    /// The peer is fed from this row on, if it isn't ahead of the next one.
    fn follow(&mut self, row: u64, next: u64) -> Result<(), NoMemory>
        ensures { OnOk result (self.new ≡ answered next (Some row) self.old) }
    {
        if row > next {
            return self.end(FeedFault::Ahead { row, next });
        }
        self.stage = Stage::Follows(row);
        Ok(())
    }

    /// The peer is told why it is fed nothing more.
    fn end(&mut self, fault: FeedFault) -> Result<(), NoMemory>
        ensures { OnOk result (self.new ≡ with_fault fault self.old) }
    {
        put_fault(self.alloc, fault, &mut self.text)?;
        self.stage = Stage::Over;
        Ok(())
    }

    /// Makes lines for a peer that has taken everything: those of the rows from its next one on, as
    /// many as fit. If that row isn't in memory any more, the line says so, and in which chapter
    /// the row is.
    pub fn make(&mut self, rows: &LastRows, starts: &ChapterStarts) -> Result<(), NoMemory>
        ensures { OnOk result (Makes starts.now rows.now self.old self.new) }
    {
        let Stage::Follows(next) = self.stage else {
            return Ok(());
        };
        if !self.pending().is_empty() {
            return Ok(());
        }
        if next < rows.first() {
            return self.end(FeedFault::of_forgotten(next, starts));
        }
        self.text.clear();
        self.taken = 0;
        let next = put_lines(rows, next, &mut self.text)?;
        self.stage = Stage::Follows(next);
        Ok(())
    }

    /// Makes the line that says which row is next, for a peer that is fed and has taken everything.
    pub fn say_alive(&mut self) -> Result<(), NoMemory>
        ensures { OnOk result (self.new ≡ alive self.old) }
    {
        let Stage::Follows(next) = self.stage else {
            return Ok(());
        };
        if !self.pending().is_empty() {
            return Ok(());
        }
        put_alive(self.alloc, next, &mut self.text)
    }

    /// Returns what was made and not taken yet.
    pub fn pending(&self) -> &[u8]
        ensures { result.now ≡ self.now.pending }
    {
        &self.text[self.taken..]
    }

    /// Notes that this many octets were taken, or all if fewer are pending.
    pub fn take(&mut self, count: usize)
        ensures { self.new ≡ with_taken count self.old }
    {
        if count < self.pending().len() {
            self.taken += count;
        } else {
            self.text.clear();
            self.taken = 0;
        }
    }

    /// Is the peer fed nothing more, and has it taken everything?
    pub fn is_over(&self) -> bool {
        self.stage == Stage::Over && self.pending().is_empty()
    }
}

/// Appends the lines of the rows from this one on, as many as fit, and says which row is next then.
fn put_lines(rows: &LastRows, from: u64, text: &mut Vec<u8>) -> Result<u64, NoMemory>
    requires empty { text.old.items ≡ [] }
    requires there { first_of rows.now ≤ from }
    ensures next { IfOk result (λ next. from ≤ next) }
    ensures made { IfOk result (λ next.
        AreMade (lines_from from rows.now) (next - from) text.new.items) }
{
    for number in from..rows.next() {
        let whole = text.len();
        rows.put_line(number, text)?;
        if text.len() > FEED_OCTETS {
            text.truncate(whole);
            return Ok(number);
        }
    }
    let next = rows.next();
    Ok(if from < next { next } else { from })
}
