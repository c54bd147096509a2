//! Reads a line of a journal.

ghost use Rattle.std.specs.Prelude.{◌≡◌, IfOk};
ghost use Rattle.device_map.specs.Requests.{request_at};
ghost use Rattle.chapters.specs.Lines.{request_in, request_meant};

use app_message::{Decoder, Message, Messages};
use device_map::request_of;
use hex_lines::decode;
use site_base::{Actor, Event, NoMemory};
use site_book::is_read;
use std::alloc::Global;

/// Reads lines. Beside the allocator it has the room of the last line, which serves the next one.
#[derive(Drop)]
pub(crate) struct LineReader {
    alloc: Global,
    octets: Vec<u8>,
    messages: Messages,
}

impl LineReader {
    /// A reader without room. It takes no memory.
    pub(crate) fn new(alloc: Global) -> LineReader {
        LineReader {
            alloc,
            octets: Vec::new(alloc),
            messages: Messages::new(alloc),
        }
    }

    /// The request that a line is: the hexadecimal of one message. None where it is none, or a
    /// read, whose row isn't kept.
    pub(crate) fn read(&mut self, line: &[u8]) -> Result<Option<(Actor, Event)>, NoMemory>
        ensures { IfOk result (λ request. request ≡ request_in line.now) }
    {
        if !decode(line, &mut self.octets)? {
            return Ok(None);
        }
        let mut decoder = Decoder::new(self.alloc);
        let fault = decoder.feed_into(&self.octets, &mut self.messages)?;
        if fault.is_some() || decoder.held() > 0 {
            return Ok(None);
        }
        match self.messages.as_slice() {
            [message] => Ok(kept_request(message)),
            _ => Ok(None),
        }
    }
}

/// The request that a message is, if its row is kept.
fn kept_request(message: &Message) -> Option<(Actor, Event)>
    ensures { result ≡ request_meant (request_at message.now) }
{
    match request_of(message) {
        Ok((_, event)) if is_read(&event) => None,
        Ok(request) => Some(request),
        Err(_) => None,
    }
}
