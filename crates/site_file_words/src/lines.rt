//! The lines of a text, and places in them.

ghost use Rattle.std.specs.Prelude.{◌≡◌, ◌≤◌, ◌+◌, length, take};
ghost use Rattle.memchr.specs.Find.{is_byte, places};

use crate::shown::{Shown, count_characters, count_shown};
use memchr::{memchr, memchr_iter, memrchr};
use site_base::NoMemory;
use std::str;

/// The characters of a line that are printed at most.
const LINE_CHARACTERS: usize = 120;

/// The characters that are printed before a place far behind in its line.
const CHARACTERS_BEFORE: usize = 60;

/// Where something begins and ends, in octets of a text.
#[derive(Clone, Copy, Debug)]
pub struct Span {
    /// Its first octet.
    pub start: usize,
    /// The octet after its last one.
    pub end: usize,
}

/// Where something is in a text: its line, and the column of its first character, both from 1.
#[derive(Clone, Copy, Debug)]
pub struct Position<'a> {
    /// The number of the line.
    pub line: usize,
    /// The place of the first character in its line.
    pub column: usize,
    /// How many characters it has in this line, at least 1.
    width: usize,
    octets: &'a [u8],
}

impl<'a> Position<'a> {
    /// Returns where this span of the text is.
    pub fn new(text: &'a [u8], span: Span) -> Self
        ensures line { result.line
            ≡ length (places (is_byte 10) (take span.start text.now)) + 1 }
    {
        let at = span.start.min(text.len());
        let (before, rest) = text.split_at(at);
        let begin = match memrchr(b'\n', before) {
            Some(place) => place.saturating_add(1).min(at),
            None => 0,
        };
        let beside = &before[begin..];
        let back = trim_return(front_until_newline(rest));
        let end = begin
            .saturating_add(beside.len())
            .saturating_add(back.len());
        let octets = &text[begin..end.min(text.len()).max(begin)];
        let length = span.end.saturating_sub(span.start).min(back.len());
        Position {
            line: line_number(text, span.start),
            column: count_in_line(octets, beside).saturating_add(1),
            width: count_in_line(octets, &back[..length]).max(1),
            octets,
        }
    }

    /// Appends the line, and below it a mark at the place, followed by the words.
    pub fn put(&self, text: &mut String, words: &str) -> Result<(), NoMemory> {
        let margin = count_digits(self.line);
        let before = self.column.saturating_sub(1);
        let begin = if before < LINE_CHARACTERS {
            0
        } else {
            before.saturating_sub(CHARACTERS_BEFORE)
        };
        let end = begin.saturating_add(LINE_CHARACTERS);
        put_many(text, ' ', margin)?;
        text.push_str(" |\n")?;
        let (line, shown) = (self.line, Shown::of_part(self.octets, begin, end));
        write!(text, "{line} | {shown}\n")?;
        put_many(text, ' ', margin)?;
        text.push_str(" | ")?;
        put_many(text, ' ', before.saturating_sub(begin))?;
        put_many(text, '^', self.width.min(end.saturating_sub(before)))?;
        write!(text, " {words}\n")?;
        Ok(())
    }

    /// Appends the margin of the line's number.
    pub fn put_margin(&self, text: &mut String) -> Result<(), NoMemory> {
        put_many(text, ' ', count_digits(self.line))
    }
}

fn put_many(text: &mut String, character: char, count: usize) -> Result<(), NoMemory> {
    for _ in 0..count {
        text.push(character)?;
    }
    Ok(())
}

/// How many characters a part of this line has.
fn count_in_line(line: &[u8], part: &[u8]) -> usize {
    match str::from_utf8(line) {
        Ok(_) => count_characters(part),
        Err(_) => part.len(),
    }
}

/// The number of the line in which this place of the text stands.
fn line_number(text: &[u8], at: usize) -> usize
    ensures { result ≡ length (places (is_byte 10) (take at text.now)) + 1 }
{
    count_newlines(front(text, at)) + 1
}

fn count_newlines(octets: &[u8]) -> usize
    ensures count { result ≡ length (places (is_byte 10) octets.now) }
    ensures bound { result ≤ length octets.now }
{
    memchr_iter(b'\n', octets).count()
}

/// As many octets of the front, or all.
fn front(octets: &[u8], most: usize) -> &[u8]
    ensures { result.now ≡ take most octets.now }
{
    if octets.len() < most {
        octets
    } else {
        &octets[..most]
    }
}

/// Returns the octets before the first end of a line.
pub fn front_until_newline(octets: &[u8]) -> &[u8] {
    match memchr(b'\n', octets) {
        Some(place) => &octets[..place.min(octets.len())],
        None => octets,
    }
}

fn trim_return(octets: &[u8]) -> &[u8] {
    match octets {
        [front @ .., b'\r'] => front,
        _ => octets,
    }
}

/// How many digits the number has.
fn count_digits(number: usize) -> usize {
    let mut rest = number;
    let mut count = 1usize;
    for _ in 0..20 {
        rest /= 10;
        if rest > 0 {
            count = count.saturating_add(1);
        }
    }
    count
}
