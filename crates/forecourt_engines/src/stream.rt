//! The stream of messages in the octets of a replay's lines.

ghost use Rattle.std.specs.Prelude.{◌≡◌, ◌++◌, [], length, nat_lt, IfOk, OnOk};
ghost use Rattle.app_message.specs.Stream.{fed_by, held_after};
ghost use Rattle.forecourt_engines.specs.Answers.{answers_to};
ghost use Rattle.forecourt_engines.specs.Streams.{stream_after, stream_state};
ghost use Rattle.forecourt_engines.specs.Text.{fault_text, stop_of, stream_effect};

use crate::answers::Answerer;
use crate::fault::TextFault;
use app_message::{Decoder, Messages};
use device_map::stream_refusal;
use hex_lines::put_line;
use site_base::NoMemory;
use site_book::SiteBook;
use std::alloc::Global;
use std::marker::Model;

/// A stream between two octets, and what answers its messages.
#[derive(Drop)]
pub struct AnsweredStream {
    alloc: Global,
    decoder: Decoder,
    answerer: Answerer,
    // The messages of a piece that ends one which an earlier piece began.
    messages: Messages,
}

impl Model for AnsweredStream {
    ghost use Rattle.forecourt_engines.specs.Streams.{StreamState};

    ghost Value = { StreamState };

    ghost view = { λ s. record { stream = s.decoder; answerer = s.answerer } };
}

impl AnsweredStream {
    /// Returns a stream before its first octet. It takes no memory.
    pub fn new(alloc: Global, book: SiteBook, changes: bool) -> AnsweredStream
        ensures { result
            ≡ stream_state (held_after []) (record { book = book; changes = changes }) }
    {
        AnsweredStream {
            alloc,
            decoder: Decoder::new(alloc),
            answerer: Answerer::new(alloc, book, changes),
            messages: Messages::new(alloc),
        }
    }

    /// Returns the book.
    pub fn into_book(self) -> SiteBook
        ensures { result ≡ self.answerer.book }
    {
        self.answerer.into_book()
    }

    /// Has a message begun that hasn't ended?
    pub fn is_inside(&self) -> bool
        ensures { result ≡ nat_lt 0 (length self.now.stream.rest) }
    {
        self.decoder.held() > 0
    }

    /// Takes octets. Answers each message that they end over the book, by a line. The refusal of a
    /// fault of the stream follows. Returns why the text ends with these octets, if it does.
    #[inline(always)]
    pub fn answer(
        &mut self,
        octets: &[u8],
        out: &mut Vec<u8>,
    ) -> Result<Option<TextFault>, NoMemory>
        ensures stop { IfOk result (λ stop. stop
            ≡ (stream_effect self.old.answerer (fed_by self.old.stream octets.now)).stop) }
        ensures state { OnOk result (self.new ≡ stream_after self.old octets.now) }
        ensures text { OnOk result (out.new.items ≡ out.old.items
            ++ (stream_effect self.old.answerer (fed_by self.old.stream octets.now)).text) }
    {
        self.answer_messages(octets, out)?;
        let end = self.tell_fault(out)?;
        Ok(end)
    }

    /// Answers the messages that the octets end.
    #[inline(always)]
    fn answer_messages(&mut self, octets: &[u8], out: &mut Vec<u8>) -> Result<(), NoMemory>
        ensures state { OnOk result (self.new ≡ stream_after self.old octets.now) }
        ensures text { OnOk result (out.new.items ≡ out.old.items
            ++ answers_to self.old.answerer (fed_by self.old.stream octets.now).messages) }
    {
        if self.decoder.is_between() {
            return self.answer_in_place(octets, out);
        }
        self.decoder.feed_into(octets, &mut self.messages)?;
        self.answerer.answer_all(self.messages.as_slice(), out)
    }

    /// The same where a message begins: each is answered where it lies.
    #[inline(always)]
    fn answer_in_place(&mut self, octets: &[u8], out: &mut Vec<u8>) -> Result<(), NoMemory>
        requires { self.old.stream ≡ held_after [] }
        ensures state { OnOk result (self.new ≡ stream_after self.old octets.now) }
        ensures text { OnOk result (out.new.items ≡ out.old.items
            ++ answers_to self.old.answerer (fed_by self.old.stream octets.now).messages) }
    {
        let mut rest = octets;
        while !rest.is_empty() {
            let Some((message, after)) = self.decoder.take_front(rest)? else {
                return Ok(());
            };
            self.answerer.answer(&message, out)?;
            rest = after;
        }
        Ok(())
    }

    /// Appends the refusal of the stream's fault, if it has one. The answer is why the text ends.
    fn tell_fault(&self, out: &mut Vec<u8>) -> Result<Option<TextFault>, NoMemory>
        ensures stop { IfOk result (λ stop. stop ≡ stop_of self.now.stream.fault) }
        ensures text { OnOk result (out.new.items ≡ out.old.items
            ++ fault_text self.now.stream.fault) }
    {
        match self.decoder.fault() {
            None => Ok(None),
            Some(fault) => {
                put_line(out, &stream_refusal(self.alloc, &fault)?)?;
                Ok(Some(TextFault::Stream(fault.fault)))
            }
        }
    }
}
