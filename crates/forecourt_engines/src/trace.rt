//! A trace: lines of messages to be explained.

ghost use Rattle.std.specs.Prelude.{◌≡◌, ◌≤◌, ◌<◌, [], length, Some, None, IfOk, OnOk};
ghost use Rattle.app_message.specs.Stream.{fed_by, held_part, held_after};
ghost use Rattle.forecourt_engines.specs.Answers.{Answerer};
ghost use Rattle.forecourt_engines.specs.Meanings.{messages_in};
ghost use Rattle.hex_lines.specs.Lines.{kept_of};
ghost use Rattle.forecourt_engines.specs.Text.{effect, left_over, next_number, stop_of};
ghost use Rattle.hex_lines.specs.declared.line_reading.TheConstants.{LINE_OCTETS};
ghost use Rattle.forecourt_engines.specs.declared.fault.TextFault.TheVariants.{TooLong};

use crate::fault::TextFault;
use app_message::{Decoder, Fed, Messages};
use hex_lines::{LINE_OCTETS, LineText, read_octets, text_of};
use site_base::NoMemory;
use std::alloc::Global;
use std::marker::Model;

/// A trace between two of its lines. It is read as a replay reads its input.
#[derive(Drop)]
pub struct Trace {
    alloc: Global,
    number: u64,
    decoder: Decoder,
}

impl Model for Trace {
    ghost use Rattle.forecourt_engines.specs.Meanings.{TraceState};

    ghost Value = { TraceState };

    ghost view = { λ t. record { number = t.number; stream = t.decoder } };
}

/// What a line of a trace brings.
#[derive(Drop)]
pub struct Explained {
    /// The messages that end in the line.
    pub messages: Messages,
    /// Why the trace ends with the line, if it does.
    pub stop: Option<TextFault>,
}

impl Trace {
    /// Returns a trace before its first line. It takes no memory.
    pub fn new(alloc: Global) -> Trace
        ensures { result ≡ record { number = 1; stream = held_after [] } }
    {
        Trace {
            alloc,
            number: 1,
            decoder: Decoder::new(alloc),
        }
    }

    /// Takes a line without its line feed, and returns the messages that end in it. The line ends
    /// the trace if it ends a replay, with the same fault, whatever the replay's book is. After
    /// `NoMemory` the trace can't be used any more.
    pub fn line(&mut self, line: &[u8]) -> Result<Explained, NoMemory>
        ensures number { OnOk result (self.new.number ≡ next_number self.old.number) }
        ensures messages { IfOk result (λ told. length line.now ≤ LINE_OCTETS
            → told.messages ≡ messages_in self.old.stream (kept_of line.now)) }
        ensures stop { IfOk result (λ told. (a : Answerer) → length line.now ≤ LINE_OCTETS
            → told.stop ≡ (effect self.old.number self.old.stream a (kept_of line.now)).stop) }
        ensures stream { OnOk result ((a : Answerer) → length line.now ≤ LINE_OCTETS
            → self.new.stream
            ≡ (effect self.old.number self.old.stream a (kept_of line.now)).stream) }
        ensures long { IfOk result (λ told. LINE_OCTETS < length line.now
            → told.stop ≡ Some (TooLong self.old.number)) }
    {
        let number = self.number;
        self.number = number.saturating_add(1);
        if line.len() > LINE_OCTETS {
            return Ok(self.end_with(Some(TextFault::TooLong(number))));
        }
        let (mut kept, mut octets) = (Vec::new(self.alloc), Vec::new(self.alloc));
        match read_octets(text_of(line), &mut kept, &mut octets)? {
            LineText::Skipped => Ok(self.end_with(None)),
            LineText::Octets => self.take(&octets),
            LineText::NotHexadecimal => Ok(self.end_with(Some(TextFault::NotHexadecimal(number)))),
        }
    }

    /// Takes octets, and gives the messages that they end.
    fn take(&mut self, octets: &[u8]) -> Result<Explained, NoMemory>
        ensures number { self.new.number ≡ self.old.number }
        ensures messages { IfOk result (λ told. told.messages
            ≡ (fed_by self.old.stream octets.now).messages) }
        ensures stop { IfOk result (λ told. told.stop
            ≡ stop_of (fed_by self.old.stream octets.now).fault) }
        ensures stream { OnOk result (self.new.stream
            ≡ held_part (fed_by self.old.stream octets.now)) }
    {
        let Fed { messages, fault } = self.decoder.feed(octets)?;
        match fault {
            None => Ok(Explained {
                messages,
                stop: None,
            }),
            Some(fault) => Ok(Explained {
                messages,
                stop: Some(TextFault::Stream(fault.fault)),
            }),
        }
    }

    /// Ends the trace. Octets of a message that isn't complete are a fault.
    pub fn end(&self) -> Option<TextFault>
        ensures { result ≡ left_over self.now.stream.rest }
    {
        if self.decoder.held() > 0 {
            return Some(TextFault::Truncated);
        }
        None
    }

    /// A line without a message.
    fn end_with(&self, stop: Option<TextFault>) -> Explained
        ensures messages { result.messages ≡ [] }
        ensures stop { result.stop ≡ stop }
    {
        Explained {
            messages: Messages::new(self.alloc),
            stop,
        }
    }
}
