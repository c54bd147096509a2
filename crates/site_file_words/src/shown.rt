//! Text of a file as it is printed: a part of it, without control characters.

ghost use Rattle.std.specs.Prelude.{◌≤◌};

use std::{fmt, str};

/// Some characters of a text as they are printed. A tab becomes a space; any other control
/// character, and what isn't UTF-8, becomes a question mark.
#[derive(Clone, Copy, Debug)]
pub struct Shown<'a> {
    octets: &'a [u8],
    begin: usize,
    end: usize,
}

impl<'a> Shown<'a> {
    /// Returns the first characters, at most this many.
    pub fn of_front(octets: &'a [u8], most: usize) -> Self {
        Shown {
            octets,
            begin: 0,
            end: most,
        }
    }

    /// Returns the characters from the place `begin` on, before the place `end`.
    pub fn of_part(octets: &'a [u8], begin: usize, end: usize) -> Self {
        Shown { octets, begin, end }
    }
}

impl<'a> fmt::Display for Shown<'a> {
    fn fmt<W: fmt::Write>(&self, f: &mut fmt::Formatter<W>) -> fmt::Result {
        match str::from_utf8(self.octets) {
            Ok(text) => {
                let mut place = 0usize;
                for character in text.chars() {
                    if self.begin <= place && place < self.end {
                        f.write_char(shown_char(character))?;
                    }
                    place = place.saturating_add(1);
                }
            }
            Err(_) => {
                let mut place = 0usize;
                for octet in self.octets {
                    if self.begin <= place && place < self.end {
                        f.write_char(shown_octet(*octet))?;
                    }
                    place = place.saturating_add(1);
                }
            }
        }
        Ok(())
    }
}

/// Returns how many characters of these octets are printed.
pub fn count_shown(octets: &[u8]) -> usize {
    match str::from_utf8(octets) {
        Ok(_) => count_characters(octets),
        Err(_) => octets.len(),
    }
}

/// Returns how many characters of UTF-8 begin in these octets.
pub fn count_characters(octets: &[u8]) -> usize {
    let mut count = 0usize;
    for octet in octets {
        if *octet & 0xC0 != 0x80 {
            count = count.saturating_add(1);
        }
    }
    count
}

/// The character as it is printed. Those that turn the direction of a text are none.
fn shown_char(character: char) -> char
    ensures { 32 ≤ result }
{
    match character {
        '\t' => ' ',
        '\u{0}'..='\u{1F}' | '\u{7F}'..='\u{9F}' => '?',
        '\u{200B}'..='\u{200F}' | '\u{2028}'..='\u{202E}' | '\u{2060}'..='\u{206F}' => '?',
        '\u{FEFF}' => '?',
        _ => character,
    }
}

/// The octet as it is printed, if it isn't of a text.
fn shown_octet(octet: u8) -> char
    ensures least { 32 ≤ result }
    ensures greatest { result ≤ 126 }
{
    match octet {
        b'\t' => ' ',
        b' '..=b'~' => octet as char,
        _ => '?',
    }
}
