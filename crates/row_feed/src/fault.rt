//! Why a peer is fed nothing more, and the lines that aren't rows.

ghost use Rattle.std.specs.Prelude.{◌≡◌, ◌≤◌, ◌++◌, IfOk, OnOk, codes, length, string_bytes};
ghost use Rattle.serde_json.specs.View.{view};
ghost use Rattle.serde_json.specs.Written.{compact_text};
ghost use Rattle.row_feed.specs.FeedFaults.{alive_data, alive_line, fault_data, fault_line};
ghost use Rattle.row_feed.specs.FeedFaults.{fault_text, forgotten_fault};

use crate::chapter_starts::ChapterStarts;
use serde_json::{Value, json};
use site_base::NoMemory;
use std::alloc::{AllocError, Global};

/// Why a peer is fed nothing more.
#[derive(Clone, Copy, Debug, PartialEq, Eq)]
pub enum FeedFault {
    /// Its first line isn't `from N` or `from end`.
    NoFrom,
    /// It asked for a row after the next one.
    Ahead { row: u64, next: u64 },
    /// The row is in this chapter, and not in memory.
    InChapter { row: u64, chapter: u64 },
    /// The row isn't in memory, and there are no chapters.
    Forgotten { row: u64 },
}

impl FeedFault {
    /// Returns why a row can't be fed that isn't in memory any more.
    pub fn of_forgotten(row: u64, starts: &ChapterStarts) -> FeedFault
        ensures { result ≡ forgotten_fault starts.now row }
    {
        let chapter = starts.chapter_of(row) as u64;
        if chapter == 0 {
            FeedFault::Forgotten { row }
        } else {
            FeedFault::InChapter { row, chapter }
        }
    }
}

/// What is wrong, in words.
fn fault_text(alloc: Global, fault: FeedFault) -> Result<String, AllocError>
    ensures { IfOk result (λ text. string_bytes text ≡ fault_text fault) }
{
    match fault {
        FeedFault::NoFrom => {
            String::from_str(alloc, "a feed begins with a line: from N, or from end")
        }
        FeedFault::Ahead { row, next } => {
            format!(in alloc; "row {row} isn't there: row {next} is next")
        }
        FeedFault::InChapter { row, chapter } => {
            format!(in alloc; "row {row} is in chapter {chapter}")
        }
        FeedFault::Forgotten { row } => format!(in alloc; "row {row} isn't in memory any more"),
    }
}

/// Appends the line that says why a peer is fed nothing more. After `NoMemory` there may be a part
/// of it.
pub(crate) fn put_fault(alloc: Global, fault: FeedFault, text: &mut Vec<u8>) -> Result<(), NoMemory>
    ensures line { OnOk result (text.new.items ≡ text.old.items ++ fault_line fault) }
    ensures kept { length text.old.items ≤ length text.new.items }
{
    let object = fault_object(alloc, fault)?;
    put_line(object.as_str(), text)
}

/// Appends the line that says which row is next. After `NoMemory` there may be a part of it.
pub(crate) fn put_alive(alloc: Global, next: u64, text: &mut Vec<u8>) -> Result<(), NoMemory>
    ensures line { OnOk result (text.new.items ≡ text.old.items ++ alive_line next) }
    ensures kept { length text.old.items ≤ length text.new.items }
{
    let object = alive_object(alloc, next)?;
    put_line(object.as_str(), text)
}

/// Appends a line.
fn put_line(line: &str, text: &mut Vec<u8>) -> Result<(), NoMemory>
    ensures line { OnOk result (text.new.items ≡ text.old.items ++ (line.now ++ codes "\n")) }
    ensures kept { length text.old.items ≤ length text.new.items }
{
    text.extend_from_slice(line.as_bytes())?;
    text.push(b'\n')?;
    Ok(())
}

/// A fault as a JSON object.
fn fault_object(alloc: Global, fault: FeedFault) -> Result<String, NoMemory>
    ensures { IfOk result (λ text. string_bytes text ≡ compact_text (fault_data fault)) }
{
    Ok(fault_value(alloc, fault)?.to_string(alloc)?)
}

fn fault_value(alloc: Global, fault: FeedFault) -> Result<Value, AllocError>
    ensures { IfOk result (λ value. view value ≡ fault_data fault) }
{
    let words = fault_text(alloc, fault)?;
    json!(in alloc; { "fault": words })
}

/// The number of the next row as a JSON object.
fn alive_object(alloc: Global, next: u64) -> Result<String, NoMemory>
    ensures { IfOk result (λ text. string_bytes text ≡ compact_text (alive_data next)) }
{
    Ok(alive_value(alloc, next)?.to_string(alloc)?)
}

fn alive_value(alloc: Global, next: u64) -> Result<Value, AllocError>
    ensures { IfOk result (λ value. view value ≡ alive_data next) }
{
    json!(in alloc; { "alive": next })
}
