//! The text of a site file in pieces: words, texts between quotation marks, marks, and ends of
//! lines.

use crate::lines::{Span, front_until_newline};
use site_base::NoMemory;
use std::alloc::Global;

/// What a piece is.
#[derive(Clone, Copy, Debug, PartialEq, Eq)]
pub enum TokenKind {
    /// Letters, digits and signs.
    Word,
    /// A text between quotation marks.
    Quoted,
    /// The end of a line.
    Newline,
    /// One of `[ ] { } , = .`
    Mark(u8),
}

/// A piece, and where it is.
#[derive(Clone, Copy, Debug)]
pub struct Token {
    /// What it is.
    pub kind: TokenKind,
    /// Where it begins and ends.
    pub span: Span,
}

/// Returns the pieces of a text, without blanks and comments, and at last an end of a line.
pub fn tokens_of(alloc: Global, text: &[u8]) -> Result<Vec<Token>, NoMemory> {
    let mut tokens = Vec::new(alloc);
    let mut next = count_mark(text);
    for start in 0..text.len() {
        if start < next {
            continue;
        }
        let (kind, end) = piece_at(text, start);
        next = end;
        if let Some(kind) = kind {
            let span = Span { start, end };
            tokens.push(Token { kind, span })?;
        }
    }
    let (kind, end) = (TokenKind::Newline, text.len());
    let span = Span { start: end, end };
    tokens.push(Token { kind, span })?;
    Ok(tokens)
}

/// The octets of the mark of UTF-8 in front of a text.
fn count_mark(text: &[u8]) -> usize {
    match text {
        [0xEF, 0xBB, 0xBF, ..] => 3,
        _ => 0,
    }
}

/// The piece that begins here, and where it ends. A blank and a comment are none.
fn piece_at(text: &[u8], start: usize) -> (Option<TokenKind>, usize) {
    let octet = octet_at(text, start);
    let behind = start.saturating_add(1);
    match octet {
        b' ' | b'\t' | b'\r' => (None, behind),
        b'\n' => (Some(TokenKind::Newline), behind),
        b'#' => (None, find_newline(text, start)),
        b'"' | b'\'' => (Some(TokenKind::Quoted), find_quoted_end(text, start, octet)),
        b'[' | b']' | b'{' | b'}' | b',' | b'=' | b'.' => (Some(TokenKind::Mark(octet)), behind),
        _ => (Some(TokenKind::Word), find_word_end(text, start)),
    }
}

/// The octet at a place; an end of a line behind the text.
fn octet_at(text: &[u8], place: usize) -> u8 {
    match text.get(place) {
        Some(octet) => *octet,
        None => b'\n',
    }
}

/// Where the line ends.
fn find_newline(text: &[u8], start: usize) -> usize {
    match text.get(start..) {
        Some(rest) => start.saturating_add(front_until_newline(rest).len()),
        None => text.len(),
    }
}

fn find_word_end(text: &[u8], start: usize) -> usize {
    for place in start..text.len() {
        if is_word_end(text[place]) {
            return place;
        }
    }
    text.len()
}

fn is_word_end(octet: u8) -> bool {
    matches!(
        octet,
        b' ' | b'\t'
            | b'\r'
            | b'\n'
            | b'#'
            | b'"'
            | b'\''
            | b'['
            | b']'
            | b'{'
            | b'}'
            | b','
            | b'='
            | b'.'
    )
}

/// Where the text that begins with this quotation mark ends. One of three marks goes over several
/// lines.
fn find_quoted_end(text: &[u8], start: usize, quote: u8) -> usize {
    let is_long = is_triple(text, start, quote);
    let begin = start.saturating_add(if is_long { 3 } else { 1 });
    let mut is_escaped = false;
    for place in begin..text.len() {
        let octet = text[place];
        if is_escaped {
            is_escaped = false;
        } else if octet == b'\\' && quote == b'"' {
            is_escaped = true;
        } else if is_long && is_triple(text, place, quote) {
            return place.saturating_add(3);
        } else if !is_long && octet == quote {
            return place.saturating_add(1);
        } else if !is_long && octet == b'\n' {
            return place;
        }
    }
    text.len()
}

/// Do three of these marks stand here?
fn is_triple(text: &[u8], place: usize, quote: u8) -> bool {
    octet_at(text, place) == quote
        && octet_at(text, place.saturating_add(1)) == quote
        && octet_at(text, place.saturating_add(2)) == quote
}
