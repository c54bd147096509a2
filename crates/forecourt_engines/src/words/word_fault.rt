//! A wrong word as it is printed: quoted, with its place and what was expected there.

use crate::number::split_at_octet;
use crate::words::nearest::{nearest_name, parts_a_number};
use crate::words::places::word_behind;
use crate::words::splitting::count_words;
use crate::words::wrong_word::{Wanted, WrongWord};
use std::error::Error;
use std::fmt;

/// So many octets of a word are quoted.
const QUOTED_OCTETS: usize = 40;

/// A wrong word of a line.
#[derive(Clone, Copy, Debug)]
pub struct WordFault<'a> {
    /// The line.
    pub line: &'a [u8],
    /// Its first wrong word.
    pub wrong: WrongWord,
}

impl<'a> fmt::Display for WordFault<'a> {
    /// `word 4 "2000": volume, money, or nothing`; where it isn't there `word 3 is missing: token`,
    /// or before the comma that comes too early `word 3 is missing before the comma: ..`. For a
    /// name that is nearly one it tells which: `word 2 "signon": the name of an event, perhaps
    /// SignOn`; behind a number with a comma, that numbers have none.
    fn fmt<W: fmt::Write>(&self, f: &mut fmt::Formatter<W>) -> fmt::Result {
        let place = self.wrong.place;
        let wanted = self.wrong.wanted;
        if is_before_comma(self.line, &self.wrong) {
            write!(f, "word {place} is missing before the comma: {wanted}")?;
        } else if let Some(word) = word_behind(self.line, place.saturating_sub(1)) {
            write!(f, "word {place} {}: ", Quoted { word })?;
            write_wanted(f, word, wanted)?;
        } else {
            write!(f, "word {place} is missing: {wanted}")?;
        }
        if parts_a_number(self.line) {
            f.write_str(" (numbers have no commas)")?;
        }
        Ok(())
    }
}

/// Writes what could stand in place of a word: of a name, the one that is perhaps meant.
fn write_wanted<W: fmt::Write>(
    f: &mut fmt::Formatter<W>,
    word: &[u8],
    wanted: Wanted,
) -> fmt::Result {
    match (wanted, nearest_name(word)) {
        (Wanted::EventName, Some(name)) => write!(f, "the name of an event, perhaps {name}"),
        _ => write!(f, "{wanted}"),
    }
}

impl<'a> Error for WordFault<'a> {}

/// Is the wrong word one that should stand before the line's comma, and doesn't?
fn is_before_comma(line: &[u8], wrong: &WrongWord) -> bool {
    match wrong.wanted {
        Wanted::Token | Wanted::TokenNumber | Wanted::Nothing => false,
        _ => match split_at_octet(b',', line) {
            Some((front, _)) => wrong.place > count_words(front),
            None => false,
        },
    }
}

/// A word between quotation marks, of which a text shows its first octets.
#[derive(Clone, Copy, Debug)]
struct Quoted<'a> {
    word: &'a [u8],
}

impl<'a> fmt::Display for Quoted<'a> {
    fn fmt<W: fmt::Write>(&self, f: &mut fmt::Formatter<W>) -> fmt::Result {
        f.write_char('"')?;
        for octet in &self.word[..self.word.len().min(QUOTED_OCTETS)] {
            write_octet(f, *octet)?;
        }
        f.write_char('"')?;
        if self.word.len() > QUOTED_OCTETS {
            f.write_str("..")?;
        }
        Ok(())
    }
}

/// Writes a printable octet of ASCII as it is, and any other, a quotation mark and a backslash by
/// its number: `\x1b`.
fn write_octet<W: fmt::Write>(f: &mut fmt::Formatter<W>, octet: u8) -> fmt::Result {
    match octet {
        b'"' | b'\\' => write!(f, "\\x{octet:02x}"),
        b' '..=b'~' => f.write_char(octet as char),
        _ => write!(f, "\\x{octet:02x}"),
    }
}
