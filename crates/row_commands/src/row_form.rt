//! What is printed of a row.

ghost use Rattle.std.specs.Prelude.{◌≡◌, false};
ghost use Rattle.chapters.specs.RowText.{IsSent};

use past_rows::{ReplyLines, put_timed_words, put_words};
use row_json::RowReader;
use site_base::{NoMemory, Row, SiteConfig};
use stamps::Stamp;
use std::alloc::Global;

/// The form in which rows are printed.
#[derive(Clone, Copy, Debug, PartialEq, Eq)]
pub enum FormKind {
    /// Their replies as lines of hexadecimal; with `changes` the notices too.
    Reply { changes: bool },
    /// Their words.
    Words,
    /// Their times, and their words.
    TimedWords,
    /// JSON objects.
    Json,
}

/// The form in which a row is printed, with what that form needs.
#[derive(Drop)]
pub enum RowForm {
    /// Its reply, as lines of hexadecimal.
    Reply(ReplyLines),
    /// Its words.
    Words,
    /// Its time, and its words.
    TimedWords,
    /// A JSON object.
    Json(RowReader),
}

impl RowForm {
    /// Returns a form of this kind, before the first row of a history of this site.
    pub fn open(alloc: Global, kind: FormKind, config: &SiteConfig) -> Result<RowForm, NoMemory> {
        match kind {
            FormKind::Reply { changes } => Ok(RowForm::Reply(ReplyLines::new(alloc, changes))),
            FormKind::Words => Ok(RowForm::Words),
            FormKind::TimedWords => Ok(RowForm::TimedWords),
            FormKind::Json => Ok(RowForm::Json(RowReader::open(alloc, config)?)),
        }
    }

    /// Takes the next row of the history, with its number and time. If it is asked for, appends the
    /// text of the row. After `NoMemory` a part of that text may have been appended.
    pub fn put(
        &mut self,
        alloc: Global,
        number: u64,
        time: Option<Stamp>,
        row: &Row,
        is_asked: bool,
        text: &mut Vec<u8>,
    ) -> Result<(), NoMemory>
        requires { IsSent row.now }
        ensures { is_asked ≡ false → text.new.items ≡ text.old.items }
    {
        // A reader has to see each row.
        if let RowForm::Json(reader) = self {
            reader.pass(row)?;
            if is_asked {
                let line = reader.line(alloc, number, time, row)?;
                text.extend_from_slice(line.as_bytes())?;
            }
            return Ok(());
        }
        if !is_asked {
            return Ok(());
        }
        match self {
            RowForm::Reply(lines) => lines.put(row, text),
            RowForm::TimedWords => put_timed_words(alloc, time, row, text),
            _ => put_words(alloc, row, text),
        }
    }
}
