//! The answers to a message, and how each is written.

ghost use Rattle.std.specs.Prelude.{◌≡◌, IfOk};
ghost use Rattle.conversation.specs.Saying.{said_message};

use app_message::{Message, SpelledMessage};
use device_map::MapFault;
use peer_talk::{ORIGINATOR_CHANGED, ReplyWriter};
use site_base::{Actor, Event, NoMemory, NoRow, Reply};

/// What is answered to a message.
#[derive(Clone, Copy, Debug, PartialEq, Eq)]
pub enum Said {
    /// The message came from another originator than the first. It is answered with 57, and the
    /// conversation ends.
    Another,
    /// The message means no event. It is answered with its fault's number.
    Fault(MapFault),
    /// The actor asked for the event. It is answered with the reply, or why there is no row.
    Outcome(Actor, Event, Result<Reply, NoRow>),
}

impl Said {
    /// Writes the message that answers a request with this: the reply, or a number in its place.
    #[inline(always)]
    pub fn write(
        &self,
        writer: &mut ReplyWriter,
        request: &SpelledMessage<'_>,
    ) -> Result<Message, NoMemory>
        ensures { IfOk result (λ message. message ≡ said_message request.now self.now) }
    {
        match self {
            Said::Another => writer.write_number(request, ORIGINATOR_CHANGED),
            Said::Fault(fault) => writer.write_number(request, fault.number()),
            Said::Outcome(_, _, Ok(reply)) => writer.write_reply(request, reply),
            Said::Outcome(_, _, Err(no_row)) => writer.write_number(request, no_row.number()),
        }
    }
}
