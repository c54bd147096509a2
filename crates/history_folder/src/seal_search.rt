//! Where a seal is in a history.

ghost use Rattle.std.specs.Prelude.{◌≡◌, IfOk, None};
ghost use Rattle.chapters.specs.ChapterReading.{is_same_line};
ghost use Rattle.chapters.specs.ChapterText.{seal_line};
ghost use Rattle.chapters.specs.Lines.{whole_lines};
ghost use Rattle.history_folder.specs.SealPlaces.{line_number, place_or};

use memchr::memchr;
use site_base::NoMemory;
use std::alloc::Global;
use std::marker::Model;

/// What a seal's line begins with.
const SEAL_MARK: &[u8] = b"# seal ";

/// Where a line is in a history.
#[derive(Clone, Copy, Debug, PartialEq, Eq)]
pub struct LinePlace {
    /// The number of its chapter.
    pub chapter: u64,
    /// Its number in the chapter, counted from 1.
    pub line: u64,
}

/// Looks for the line of a seal in one chapter after another.
#[derive(Drop)]
pub(crate) struct SealSearch {
    line: Vec<u8>,
    place: Option<LinePlace>,
}

impl Model for SealSearch {
    ghost use Rattle.history_folder.specs.SealPlaces.{SearchState};

    ghost Value = { SearchState };

    ghost view = { λ s. record { line = s.line.items; place = s.place } };
}

impl SealSearch {
    /// Returns a search for this seal, in 64 digits. It has looked at no chapter yet.
    pub fn new(alloc: Global, seal: &str) -> Result<SealSearch, NoMemory>
        ensures { IfOk result (λ search.
            search ≡ record { line = seal_line seal.now; place = None }) }
    {
        let mut line = Vec::from_slice(alloc, SEAL_MARK)?;
        line.extend_from_slice(seal.as_bytes())?;
        Ok(SealSearch { line, place: None })
    }

    /// Looks at the text of the chapter of this number, if the seal isn't found yet.
    pub fn look(&mut self, chapter: u64, text: &[u8])
        ensures { self.new ≡ record self.old {
          place = place_or self.old.place chapter
              (line_number self.old.line 1 (whole_lines text.now));
        } }
    {
        if self.place.is_some() {
            return;
        }
        if let Some(line) = find_line(text, &self.line) {
            self.place = Some(LinePlace { chapter, line });
        }
    }

    /// Returns where the seal is, as far as the search has looked.
    pub fn place(&self) -> Option<LinePlace>
        ensures { result ≡ self.now.place }
    {
        self.place
    }
}

/// The number of the first whole line of a text that is this one, counted from 1.
fn find_line(text: &[u8], wanted: &[u8]) -> Option<u64>
    ensures { result ≡ line_number wanted.now 1 (whole_lines text.now) }
{
    let mut rest = text;
    let mut number = 0;
    while let Some(end) = memchr(b'\n', rest) {
        let (line, others) = rest.split_at(end);
        rest = &others[1..];
        number += 1;
        if is_same(line, wanted) {
            return Some(number);
        }
    }
    None
}

/// Are these the same octets?
fn is_same(line: &[u8], wanted: &[u8]) -> bool
    ensures { result ≡ is_same_line wanted.now line.now }
{
    line.len() == wanted.len() && line.starts_with(wanted)
}
