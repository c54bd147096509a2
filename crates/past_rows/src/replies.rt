//! The replies to rows, as lines.

ghost use Rattle.std.specs.Prelude.{◌≡◌, ◌++◌, IfOk, OnOk};
ghost use Rattle.device_map.specs.Changes.{change_of};
ghost use Rattle.chapters.specs.RowText.{IsSent, row_request};
ghost use Rattle.past_rows.specs.ReplyLines.{change_line, reply_lines};

use app_message::{Message, Token};
use device_map::{change_of, encode_request};
use hex_lines::put_line;
use peer_talk::ReplyWriter;
use site_base::{NoMemory, Row};
use std::alloc::Global;

/// Writes the replies to rows as lines of hexadecimal.
#[derive(Drop)]
pub struct ReplyLines {
    alloc: Global,
    changes: bool,
    writer: ReplyWriter,
}

impl ReplyLines {
    /// Returns a writer; with `changes` it writes changes too. It takes no memory.
    pub fn new(alloc: Global, changes: bool) -> ReplyLines
        ensures { result.changes ≡ changes }
    {
        ReplyLines {
            alloc,
            changes,
            writer: ReplyWriter::new(alloc),
        }
    }

    /// Appends the reply to a row's request with token 0, and, with `changes`, the change of the
    /// row. This is what a replay answers to the row's line in a chapter.
    pub fn put(&mut self, row: &Row, text: &mut Vec<u8>) -> Result<(), NoMemory>
        requires { IsSent row.now }
        ensures lines { OnOk result (text.new.items
            ≡ text.old.items ++ reply_lines self.old.changes row.now) }
        ensures same { self.new.changes ≡ self.old.changes }
    {
        let request = make_request(self.alloc, row)?;
        let reply = self.writer.write_reply(&request.as_spelled(), &row.reply)?;
        put_line(text, &reply)?;
        self.writer.give_back(reply);
        if self.changes {
            return put_change(self.alloc, row, text);
        }
        Ok(())
    }
}

/// The request of a row's actor and event, with token 0.
fn make_request(alloc: Global, row: &Row) -> Result<Message, NoMemory>
    requires { IsSent row.now }
    ensures { IfOk result (λ message. message ≡ row_request row.now) }
{
    let token = Token::new(0).unwrap();
    match encode_request(alloc, token, row.actor, row.event)? {
        Some(request) => Ok(request),
        None => unreachable!(),
    }
}

/// Appends the change that a row stands for as a line, if it stands for one.
fn put_change(alloc: Global, row: &Row, text: &mut Vec<u8>) -> Result<(), NoMemory>
    ensures { OnOk result (text.new.items ≡ text.old.items ++ change_line (change_of row.now)) }
{
    match change_of(alloc, row)? {
        None => Ok(()),
        Some(change) => put_line(text, &change),
    }
}
