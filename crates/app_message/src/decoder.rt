//! A stream of octets that comes in pieces.

ghost use Rattle.std.specs.Prelude.{◌≡◌, ◌≢◌, ◌≤◌, ◌<◌, ◌+◌, [], length, IfOk, OnOk, OnErr, IfSome};
ghost use Rattle.std.specs.Prelude.{IsSome};
ghost use Rattle.std.specs.Prelude.{IsOk, IsOkAnd, Err, Some, None, true};
ghost use Rattle.app_message.specs.declared.sizes.TheConstants.{HEADER, LONGEST_BODY};
ghost use Rattle.app_message.specs.Numbers.{as_message_fault};
ghost use Rattle.app_message.specs.Stream.{IsHeld, fault_of, stream_of, fed_by, held_part};
ghost use Rattle.app_message.specs.Stream.{held_after};
ghost use Rattle.app_message.specs.Fronts.{IsFront};

use crate::fault::{GrammarFault, MessageFault, StreamFault};
use crate::messages::Messages;
use crate::reading::{self, Stop};
use crate::spelled_message::SpelledMessage;
use crate::token::Token;
use site_base::NoMemory;
use std::alloc::Global;
use std::marker::Model;

/// What a piece of a stream brings.
#[derive(Debug, Drop)]
pub struct Fed {
    /// The messages that end in the piece, in their order.
    pub messages: Messages,
    /// The fault that ends the stream, in this piece or an earlier one.
    pub fault: Option<StreamFault>,
}

/// A stream of octets, read piece after piece. Messages follow each other without a further frame,
/// and the first fault ends the stream. A decoder keeps the octets of an unfinished message, at
/// most 1,031, or the fault, and nothing else.
#[derive(Drop)]
pub struct Decoder {
    alloc: Global,
    rest: Vec<u8>,
    fault: Option<StreamFault>,
}

impl Model for Decoder {
    ghost use Rattle.app_message.specs.Stream.{Held, IsHeld};

    ghost Value = { Held };

    ghost view = { λ d. record { rest = d.rest.items; fault = d.fault } };

    ghost invariant = { λ d. IsHeld (record { rest = d.rest.items; fault = d.fault }) };
}

impl Decoder {
    /// Returns a decoder at the start of a stream. It takes no memory.
    pub fn new(alloc: Global) -> Decoder
        ensures { result ≡ held_after [] }
    {
        Decoder {
            alloc,
            rest: Vec::new(alloc),
            fault: None,
        }
    }

    /// Takes a piece of the stream. Returns the messages that end in it, and the fault of the
    /// stream, if it has one by now. After a fault there are no messages, and the fault stays the
    /// same. After `NoMemory` the piece isn't taken: the decoder is as before.
    pub fn feed(&mut self, piece: &[u8]) -> Result<Fed, NoMemory>
        // What the piece brings is the stream of what was kept and the piece.
        ensures messages { IfOk result
            (λ fed. fed.messages ≡ (fed_by self.old piece.now).messages) }
        ensures fault { IfOk result (λ fed. fed.fault ≡ (fed_by self.old piece.now).fault) }
        ensures held { OnOk result (self.new ≡ held_part (fed_by self.old piece.now)) }
        ensures err { OnErr result (self.new ≡ self.old) }

        // After a fault no memory is taken, and the answer is that fault for good.
        ensures after_fault { IfSome self.old.fault
            (λ f. IsOkAnd result (λ fed. (fed.messages ≡ []) × (fed.fault ≡ Some f))) }
    {
        let mut messages = Messages::new(self.alloc);
        let fault = self.feed_into(piece, &mut messages)?;
        Ok(Fed { messages, fault })
    }

    /// Takes a piece of the stream as `feed` does, and returns the fault of the stream, if it has
    /// one by now. The messages that end in the piece replace those in the list, whose memory is
    /// used again. After `NoMemory` the piece isn't taken, and what the list has means nothing.
    #[inline(always)]
    pub fn feed_into(
        &mut self,
        piece: &[u8],
        messages: &mut Messages,
    ) -> Result<Option<StreamFault>, NoMemory>
        ensures messages { OnOk result (messages.new ≡ (fed_by self.old piece.now).messages) }
        ensures fault { IfOk result (λ fault. fault ≡ (fed_by self.old piece.now).fault) }
        ensures held { OnOk result (self.new ≡ held_part (fed_by self.old piece.now)) }
        ensures err { OnErr result (self.new ≡ self.old) }

        // After a fault no memory is taken, and the answer is that fault for good.
        ensures after_fault { IfSome self.old.fault
            (λ f. (messages.new ≡ []) × IsOkAnd result (λ fault. fault ≡ Some f)) }
    {
        messages.clear();
        if self.fault.is_some() {
            return Ok(self.fault);
        }
        if self.rest.is_empty() {
            return self.take(piece, messages);
        }
        let mut octets = Vec::with_capacity(
            self.alloc,
            self.rest.len().saturating_add(piece.len()),
        )?;
        octets.extend_from_slice(&self.rest)?;
        octets.extend_from_slice(piece)?;
        self.take(&octets, messages)
    }

    /// Does the next octet begin a message? Then nothing is held, and the stream has no fault.
    #[inline(always)]
    pub fn is_between(&self) -> bool
        ensures { result ≡ true → self.now ≡ held_after [] }
    {
        self.rest.is_empty() && self.fault.is_none()
    }

    /// Returns the fault of the stream, if it has one by now.
    pub fn fault(&self) -> Option<StreamFault>
        ensures { result ≡ self.now.fault }
    {
        self.fault
    }

    /// Reads the message at the front of the next octets, in place, and returns it with the octets
    /// after it, which come next. Returns None if no message ends in the octets: they are held, or
    /// the stream has ended with its `fault`. After `NoMemory` nothing is taken: the decoder is as
    /// before.
    #[inline(always)]
    pub fn take_front<'a>(
        &mut self,
        octets: &'a [u8],
    ) -> Result<Option<(SpelledMessage<'a>, &'a [u8])>, NoMemory>
        requires { self.old ≡ held_after [] }
        ensures front { IfOk result (λ front. IsFront octets.now self.old self.new front) }
        ensures err { OnErr result (self.new ≡ self.old) }
    {
        self.read_front(octets)
    }

    /// The same, of octets that come in place of those that are held.
    #[inline(always)]
    fn read_front<'a>(
        &mut self,
        octets: &'a [u8],
    ) -> Result<Option<(SpelledMessage<'a>, &'a [u8])>, NoMemory>
        ensures front { IfOk result (λ front. IsFront octets.now self.old self.new front) }
        ensures err { OnErr result (self.new ≡ self.old) }
    {
        match reading::front(octets) {
            Ok(front) => Ok(Some(front)),
            Err(Stop::Short) => {
                self.hold(octets)?;
                Ok(None)
            }
            Err(Stop::Fault(fault)) => {
                self.end(fault_in(fault, octets));
                Ok(None)
            }
        }
    }

    /// Takes these octets in place of those that are held, where they lie, and puts the messages
    /// that end in them into an empty list. The answer is the fault of the stream, if it has one.
    fn take(
        &mut self,
        octets: &[u8],
        messages: &mut Messages,
    ) -> Result<Option<StreamFault>, NoMemory>
        requires { messages.old ≡ [] }
        ensures messages { OnOk result (messages.new ≡ (stream_of octets.now).messages) }
        ensures fault { IfOk result (λ fault. fault ≡ (stream_of octets.now).fault) }
        ensures held { OnOk result (self.new ≡ held_part (stream_of octets.now)) }
        ensures err { OnErr result (self.new ≡ self.old) }
    {
        let mut rest = octets;
        loop {
            let Some((message, after)) = self.read_front(rest)? else {
                return Ok(self.fault);
            };
            messages.push(self.alloc, message)?;
            rest = after;
        }
    }

    /// Holds these octets of a message to come, in place of those that are held.
    fn hold(&mut self, rest: &[u8]) -> Result<(), NoMemory>
        requires { length rest.now < HEADER + LONGEST_BODY }
        ensures held { OnOk result (self.new ≡ record { rest = rest.now; fault = None }) }
        ensures err { OnErr result (self.new ≡ self.old) }
    {
        if rest.is_empty() {
            self.rest.clear();
        } else {
            self.rest = Vec::from_slice(self.alloc, rest)?;
        }
        self.fault = None;
        Ok(())
    }

    /// The stream has ended with this fault: nothing is held.
    fn end(&mut self, fault: StreamFault)
        ensures { self.new ≡ record { rest = []; fault = Some fault } }
    {
        self.rest = Vec::new(self.alloc);
        self.fault = Some(fault);
    }

    /// Checks that the stream may end here. Otherwise returns the stream's fault, if it has one, or
    /// `Truncated` if it ends inside a message. It takes no memory.
    pub fn finish(&self) -> Result<(), MessageFault>
        ensures faulty { IfSome self.now.fault (λ f. result ≡ Err (as_message_fault f.fault)) }
        ensures truncated { self.now.fault ≡ None → self.now.rest ≢ []
            → result ≡ Err MessageFault.Truncated }
        ensures whole { self.now.fault ≡ None → self.now.rest ≡ [] → IsOk result }
    {
        if let Some(fault) = self.fault {
            return Err(MessageFault::from(fault.fault));
        }
        if self.rest.is_empty() {
            Ok(())
        } else {
            Err(MessageFault::Truncated)
        }
    }

    /// Returns the number of octets that are kept of an unfinished message: at most 1,031, and 0
    /// after a fault.
    pub fn held(&self) -> u16
        ensures value { result ≡ length self.now.rest }
        ensures most { result < HEADER + LONGEST_BODY }
        ensures after_fault { IsSome self.now.fault → result ≡ 0 }
    {
        self.rest.len() as u16
    }
}

/// A fault with the originator and the token of the header at the front of these octets.
fn fault_in(fault: GrammarFault, octets: &[u8]) -> StreamFault
    requires { HEADER ≤ length octets.now }
    ensures { result ≡ fault_of fault octets.now }
{
    StreamFault {
        fault,
        originator: [octets[2], octets[3]],
        token: Token::of_status(octets[5]),
    }
}
