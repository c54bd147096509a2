//! The engine of a replay: octets in, text out.

ghost use Rattle.std.specs.Prelude.{◌≡◌, [], ◌∷◌, ◌++◌, None, IfOk, OnOk};
ghost use Rattle.forecourt_engines.specs.Text.{start, after, text_from, end_input, last_text};
ghost use Rattle.forecourt_engines.specs.Text.{last_fault};
ghost use Rattle.hex_lines.specs.Lines.{kept_of};
ghost use Rattle.forecourt_engines.specs.Text.{effect, effect_in};
ghost use Rattle.forecourt_engines.specs.Text.{line_effect, next_line, with_effect};
ghost use Rattle.hex_lines.specs.Lines.{IsLine};

use crate::fault::TextFault;
use crate::stream::AnsweredStream;
use hex_lines::{LINE_OCTETS, LineText, read_octets, text_of};
use memchr::memchr;
use site_base::NoMemory;
use site_book::SiteBook;
use std::alloc::Global;
use std::marker::Model;
use std::mem;

/// A replay between two octets of its input. Besides what its text depends on it has buffers that
/// stay: for a line without its spaces, and for the line's octets. So a line that isn't longer than
/// the one before it should allocate nothing of its own. Line numbers stop at the greatest `u64`.
#[derive(Drop)]
pub struct Engine {
    alloc: Global,
    line: Vec<u8>,
    number: u64,
    stream: AnsweredStream,
    stop: Option<TextFault>,
    kept: Vec<u8>,
    octets: Vec<u8>,
}

impl Model for Engine {
    ghost use Rattle.std.specs.Prelude.{◌≤◌, length};
    ghost use Rattle.hex_lines.specs.declared.line_reading.TheConstants.{LINE_OCTETS};
    ghost use Rattle.forecourt_engines.specs.Text.{State};

    ghost Value = { State };

    ghost view = { λ e. record {
      line = e.line.items;
      number = e.number;
      stream = e.stream.stream;
      answerer = e.stream.answerer;
      stop = e.stop;
    } };

    ghost invariant = { λ e. length e.line.items ≤ LINE_OCTETS };
}

impl Engine {
    /// Returns the engine before the first octet, over this book; with `changes` it writes the
    /// changes of its rows too. It takes no memory.
    pub fn new(alloc: Global, book: SiteBook, changes: bool) -> Engine
        ensures { result ≡ start (record { book = book; changes = changes }) }
    {
        Engine {
            alloc,
            line: Vec::new(alloc),
            number: 1,
            stream: AnsweredStream::new(alloc, book, changes),
            stop: None,
            kept: Vec::new(alloc),
            octets: Vec::new(alloc),
        }
    }

    /// Returns why the text has ended, if it has.
    pub fn stop(&self) -> Option<TextFault>
        ensures { result ≡ self.now.stop }
    {
        self.stop
    }

    /// Returns the book.
    pub fn into_book(self) -> SiteBook
        ensures { result ≡ self.answerer.book }
    {
        self.stream.into_book()
    }

    /// Takes a piece of the input, and appends its text. After `NoMemory` the engine can't be used
    /// any more.
    pub fn feed(&mut self, piece: &[u8], out: &mut Vec<u8>) -> Result<(), NoMemory>
        ensures state { OnOk result (self.new ≡ after self.old piece.now) }
        ensures text { OnOk result (out.new.items ≡ out.old.items ++ text_from self.old piece.now) }
    {
        let mut rest = piece;
        while let Some(end) = memchr(b'\n', rest) {
            let (line, others) = rest.split_at(end);
            self.end_line(line, out)?;
            rest = &others[1..];
        }
        self.begin_line(rest)
    }

    /// Ends the input, and so its last line. Appends the text of that, and returns why the text
    /// ends.
    pub fn finish(&mut self, out: &mut Vec<u8>) -> Result<Option<TextFault>, NoMemory>
        ensures fault { IfOk result (λ fault. fault ≡ last_fault self.old) }
        ensures state { OnOk result (self.new ≡ end_input self.old) }
        ensures text { OnOk result (out.new.items ≡ out.old.items ++ last_text self.old) }
    {
        if self.stop.is_none() {
            self.tell_held(out)?;
        }
        if self.stop.is_none() && self.stream.is_inside() {
            return Ok(Some(TextFault::Truncated));
        }
        Ok(self.stop)
    }

    /// Octets that go on with a line, and its line feed.
    fn end_line(&mut self, line: &[u8], out: &mut Vec<u8>) -> Result<(), NoMemory>
        requires { IsLine line.now }
        ensures state { OnOk result (self.new ≡ after self.old (line.now ++ 10 ∷ [])) }
        ensures text { OnOk result (out.new.items ≡ out.old.items
            ++ text_from self.old (line.now ++ 10 ∷ [])) }
    {
        if self.stop.is_none() && self.line.is_empty() && line.len() <= LINE_OCTETS {
            return self.tell(line, out);
        }
        self.begin_line(line)?;
        if self.stop.is_none() {
            self.tell_held(out)?;
        }
        Ok(())
    }

    /// Octets that go on with a line: they are held, as many as a line may have.
    fn begin_line(&mut self, more: &[u8]) -> Result<(), NoMemory>
        requires { IsLine more.now }
        ensures state { OnOk result (self.new ≡ after self.old more.now) }
        ensures silent { OnOk result (text_from self.old more.now ≡ []) }
    {
        if self.stop.is_some() {
            return Ok(());
        }
        let room = LINE_OCTETS - self.line.len();
        if more.len() > room {
            self.line.extend_from_slice(&more[..room])?;
            self.stop = Some(TextFault::TooLong(self.number));
        } else {
            self.line.extend_from_slice(more)?;
        }
        Ok(())
    }

    /// Tells the line that is held.
    fn tell_held(&mut self, out: &mut Vec<u8>) -> Result<(), NoMemory>
        ensures state { OnOk result (self.new ≡ next_line self.old (line_effect self.old)) }
        ensures text { OnOk result (out.new.items ≡ out.old.items ++ (line_effect self.old).text) }
    {
        let mut held = mem::replace(&mut self.line, Vec::new(self.alloc));
        self.tell(&held, out)?;
        held.clear();
        self.line = held;
        Ok(())
    }

    /// What a line says: the next one begins, and its text is appended.
    fn tell(&mut self, line: &[u8], out: &mut Vec<u8>) -> Result<(), NoMemory>
        ensures state { OnOk result (self.new
            ≡ next_line self.old (effect self.old.number self.old.stream self.old.answerer
            (kept_of line.now))) }
        ensures text { OnOk result (out.new.items ≡ out.old.items
            ++ (effect self.old.number self.old.stream self.old.answerer (kept_of line.now)).text) }
    {
        self.stop = self.judge(text_of(line), out)?;
        self.line.clear();
        self.number = self.number.saturating_add(1);
        Ok(())
    }

    /// What the text of a line says: its octets go to the stream, and what that says is appended.
    /// The answer is why the text ends with this line, if it does.
    fn judge(&mut self, text: &[u8], out: &mut Vec<u8>) -> Result<Option<TextFault>, NoMemory>
        ensures stop { IfOk result (λ stop. stop ≡ (effect_in self.old text.now).stop) }
        ensures state { OnOk result
            (self.new ≡ with_effect self.old (effect_in self.old text.now)) }
        ensures text { OnOk result (out.new.items ≡ out.old.items
            ++ (effect_in self.old text.now).text) }
    {
        match read_octets(text, &mut self.kept, &mut self.octets)? {
            LineText::Skipped => Ok(None),
            LineText::Octets => self.stream.answer(&self.octets, out),
            LineText::NotHexadecimal => Ok(Some(TextFault::NotHexadecimal(self.number))),
        }
    }
}
