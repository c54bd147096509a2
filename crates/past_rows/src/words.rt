//! Rows in words.

ghost use Rattle.std.specs.Prelude.{◌≡◌, ◌++◌, OnOk, length, take};
ghost use Rattle.past_rows.specs.TimeColumns.{BeginsWith, time_column};

use site_base::{NoMemory, Row};
use stamps::Stamp;
use std::alloc::Global;

/// What stands in place of a time: as wide as one.
const NO_TIME: &[u8] = b"-                       ";

/// Appends a row in words, as a line: who asked what, and the reply.
pub fn put_words(alloc: Global, row: &Row, text: &mut Vec<u8>) -> Result<(), NoMemory>
    ensures front { take (length text.old.items) text.new.items ≡ text.old.items }
{
    let line = format!(in alloc; "{row}\n")?;
    text.extend_from_slice(line.as_bytes())?;
    Ok(())
}

/// Appends a row in words, as a line, with its time at the front. After `NoMemory` a part of the
/// line may have been appended.
pub fn put_timed_words(
    alloc: Global,
    time: Option<Stamp>,
    row: &Row,
    text: &mut Vec<u8>,
) -> Result<(), NoMemory>
    ensures front { OnOk result (BeginsWith (text.old.items ++ time_column time) text.new.items) }
{
    put_time(time, text)?;
    put_words(alloc, row, text)
}

/// Appends the time of a row, as a column.
fn put_time(time: Option<Stamp>, text: &mut Vec<u8>) -> Result<(), NoMemory>
    ensures { OnOk result (text.new.items ≡ text.old.items ++ time_column time) }
{
    match &time {
        Some(time) => text.extend_from_slice(time.as_octets())?,
        None => text.extend_from_slice(NO_TIME)?,
    }
    text.push(b' ')?;
    Ok(())
}
