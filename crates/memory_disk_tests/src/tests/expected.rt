//! The rows that a book has to have, from the day's text.

use super::day::Reached;
use super::message::Message;
use site_base::{NoMemory, Row};
use site_book::SiteBook;
use std::alloc::Global;

/// The rows after a start, in words: the first kept rows of the day, this number of them, and then
/// the sign-offs of the tills that were signed on.
pub fn expected_rows(
    alloc: Global,
    messages: &[Message],
    kept: u64,
) -> Result<Vec<String>, NoMemory> {
    let mut rows = Vec::new(alloc);
    let mut last = 0;
    let mut on = "-";
    for message in messages {
        if message.kept > last && message.kept <= kept {
            rows.push(String::from_str(alloc, message.row)?)?;
            last = message.kept;
            on = message.on;
        }
    }
    push_sign_offs(alloc, on, &mut rows)?;
    Ok(rows)
}

/// Appends the sign-offs of these tills.
fn push_sign_offs(alloc: Global, on: &str, rows: &mut Vec<String>) -> Result<(), NoMemory> {
    for till in on.split_whitespace() {
        if till != "-" {
            rows.push(format!(in alloc; "{till} SignOff: Done")?)?;
        }
    }
    Ok(())
}

/// The number of rows that are left if this number of octets is left of the lines of the last
/// round: those that were sent, and each whose line is whole. The line of a row is its message in
/// hexadecimal, and a line feed.
pub fn rows_left(messages: &[Message], reached: Reached, octets: usize) -> u64 {
    let mut kept = reached.sent;
    let mut end = 0usize;
    for message in messages {
        if message.kept > kept && message.kept <= reached.heard {
            end = end.saturating_add(line_octets(message));
            if end <= octets {
                kept = message.kept;
            }
        }
    }
    kept
}

/// The octets of the line of a message.
fn line_octets(message: &Message) -> usize {
    message.octets.len().saturating_mul(2).saturating_add(1)
}

/// Does the book have just these rows?
pub fn has_rows(alloc: Global, book: &SiteBook, rows: &[String]) -> Result<bool, NoMemory> {
    if book.len() != rows.len() as u64 {
        return Ok(false);
    }
    for (place, words) in rows.iter().enumerate() {
        if !has_row(alloc, book.row(place as u64), words.as_str())? {
            return Ok(false);
        }
    }
    Ok(true)
}

/// Is there a row, and is it this one?
pub fn has_row(alloc: Global, row: Option<Row>, words: &str) -> Result<bool, NoMemory> {
    match row {
        None => Ok(false),
        Some(row) => Ok(format!(in alloc; "{row}")?.as_str() == words),
    }
}
