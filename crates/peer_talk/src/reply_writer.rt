//! The messages that go back to a peer.

ghost use Rattle.std.specs.Prelude.{◌≡◌, IfOk};
ghost use Rattle.device_map.specs.Replies.{fault_message, number_message, reply_message};

use app_message::{Message, SpelledMessage, StreamFault};
use device_map::{refusal_in, reply_in, stream_refusal};
use site_base::{NoMemory, Reply};
use std::alloc::Global;
use std::mem;

/// Writes the messages that go back, each into the buffer of the last message that was given back.
#[derive(Drop)]
pub struct ReplyWriter {
    alloc: Global,
    buffer: Vec<u8>,
}

impl ReplyWriter {
    /// Returns a writer without a buffer. It takes no memory.
    pub fn new(alloc: Global) -> ReplyWriter {
        ReplyWriter {
            alloc,
            buffer: Vec::new(alloc),
        }
    }

    /// Returns the message that answers a request with a reply.
    #[inline(always)]
    pub fn write_reply(
        &mut self,
        request: &SpelledMessage<'_>,
        reply: &Reply,
    ) -> Result<Message, NoMemory>
        ensures { IfOk result (λ message. message ≡ reply_message request.now reply.now) }
    {
        reply_in(self.take_buffer(), request, reply)
    }

    /// Returns the message that answers a request with a number in place of a reply.
    pub fn write_number(
        &mut self,
        request: &SpelledMessage<'_>,
        number: u8,
    ) -> Result<Message, NoMemory>
        ensures { IfOk result (λ message. message ≡ number_message request.now number) }
    {
        refusal_in(self.take_buffer(), request, number)
    }

    /// Returns the message that says why a stream ended.
    pub fn write_fault(&mut self, fault: &StreamFault) -> Result<Message, NoMemory>
        ensures { IfOk result (λ message. message ≡ fault_message fault.now) }
    {
        stream_refusal(self.alloc, fault)
    }

    /// Takes back a message that was sent: its buffer is used for the next one.
    #[inline(always)]
    pub fn give_back(&mut self, message: Message) {
        self.buffer = message.into_buffer();
    }

    #[inline(always)]
    fn take_buffer(&mut self) -> Vec<u8> {
        mem::replace(&mut self.buffer, Vec::new(self.alloc))
    }
}
