//! Answers messages over a book.

ghost use Rattle.std.specs.Prelude.{◌≡◌, ◌++◌, OnOk};
ghost use Rattle.hex_lines.specs.Lines.{line_of};
ghost use Rattle.device_map.specs.Changes.{change_of};
ghost use Rattle.device_map.specs.Replies.{number_message};
ghost use Rattle.forecourt_engines.specs.Answers.{after_message, after_messages, answers_to};
ghost use Rattle.forecourt_engines.specs.Answers.{change_line, lines_for};

use app_message::{Message, SpelledMessage};
use conversation::{NoReply, hear_anyone};
use device_map::change_of;
use hex_lines::put_line;
use peer_talk::ReplyWriter;
use site_base::{NoMemory, NoRow, Row};
use site_book::SiteBook;
use std::alloc::Global;
use std::marker::Model;

/// What answers messages: a book, and whether it also writes the changes of its rows. Besides these
/// it has what writes the answers.
#[derive(Drop)]
pub struct Answerer {
    alloc: Global,
    book: SiteBook,
    changes: bool,
    writer: ReplyWriter,
}

impl Model for Answerer {
    ghost use Rattle.forecourt_engines.specs.Answers.{Answerer};

    ghost Value = { Answerer };

    ghost view = { λ a. record { book = a.book; changes = a.changes } };
}

impl Answerer {
    /// Returns an answerer over this book; with `changes` it writes changes too. It takes no
    /// memory.
    pub fn new(alloc: Global, book: SiteBook, changes: bool) -> Answerer
        ensures { result ≡ record { book = book; changes = changes } }
    {
        Answerer {
            alloc,
            book,
            changes,
            writer: ReplyWriter::new(alloc),
        }
    }

    /// Returns the book.
    pub fn into_book(self) -> SiteBook
        ensures { result ≡ self.book }
    {
        self.book
    }

    /// Appends the lines for messages, in order.
    pub fn answer_all(&mut self, messages: &[Message], out: &mut Vec<u8>) -> Result<(), NoMemory>
        ensures text { OnOk result (out.new.items ≡ out.old.items
            ++ answers_to self.old messages.now) }
        ensures state { OnOk result (self.new ≡ after_messages self.old messages.now) }
    {
        for message in messages {
            self.answer(&message.as_spelled(), out)?;
        }
        Ok(())
    }

    /// Appends the lines for a message: its answer, and, with `changes`, the change of its row.
    #[inline(always)]
    pub fn answer(
        &mut self,
        message: &SpelledMessage<'_>,
        out: &mut Vec<u8>,
    ) -> Result<(), NoMemory>
        ensures text { OnOk result (out.new.items ≡ out.old.items
            ++ lines_for self.old message.now) }
        ensures state { OnOk result (self.new ≡ after_message self.old message.now) }
    {
        let row = match hear_anyone(&mut self.book, message) {
            Ok(row) => row,
            Err(NoReply::Fault(fault)) => return self.tell_number(message, fault.number(), out),
            Err(NoReply::NoRow(NoRow::NoMemory)) => return Err(NoMemory),
            Err(NoReply::NoRow(NoRow::BookFull)) => {
                return self.tell_number(message, NoRow::BookFull.number(), out);
            }
        };
        let answer = self.writer.write_reply(message, &row.reply)?;
        self.tell(answer, out)?;
        if self.changes {
            return put_change(self.alloc, &row, out);
        }
        Ok(())
    }

    /// Appends the message that tells a number in place of a reply as a line.
    fn tell_number(
        &mut self,
        message: &SpelledMessage<'_>,
        number: u8,
        out: &mut Vec<u8>,
    ) -> Result<(), NoMemory>
        ensures same { self.new ≡ self.old }
        ensures text { OnOk result (out.new.items ≡ out.old.items
            ++ line_of (number_message message.now number)) }
    {
        let answer = self.writer.write_number(message, number)?;
        self.tell(answer, out)
    }

    /// Appends an answer as a line, and gives its buffer back.
    #[inline(always)]
    fn tell(&mut self, answer: Message, out: &mut Vec<u8>) -> Result<(), NoMemory>
        ensures same { self.new ≡ self.old }
        ensures text { OnOk result (out.new.items ≡ out.old.items ++ line_of answer) }
    {
        put_line(out, &answer)?;
        self.writer.give_back(answer);
        Ok(())
    }
}

/// Appends the change that a row stands for as a line, if it stands for one.
fn put_change(alloc: Global, row: &Row, out: &mut Vec<u8>) -> Result<(), NoMemory>
    ensures { OnOk result (out.new.items ≡ out.old.items ++ change_line (change_of row.now)) }
{
    match change_of(alloc, row)? {
        None => Ok(()),
        Some(change) => put_line(out, &change),
    }
}
