//! Why a talk ends.

ghost use Rattle.std.specs.Prelude.{◌≡◌};
ghost use Rattle.peer_talk.specs.Text.{talk_number};

use app_message::GrammarFault;
use thiserror::Error;

/// The number that refuses a message of another originator than the session's.
pub const ORIGINATOR_CHANGED: u8 = 57;

/// The fault with which the text of a session ends.
#[derive(Clone, Copy, Debug, PartialEq, Eq, Error)]
pub enum TalkFault {
    /// The octets have a fault. Its refusal was written last.
    #[error("a faulty header or body")]
    Stream(GrammarFault),
    /// A message came from another originator than the first one. Its refusal was written last.
    #[error("another originator")]
    OriginatorChanged,
    /// The octets end inside a message.
    #[error("the octets end inside a message")]
    Truncated,
}

impl TalkFault {
    /// Returns its number: 40 to 44, or 57.
    pub fn number(self) -> u8
        ensures { result ≡ talk_number self }
    {
        match self {
            TalkFault::Stream(fault) => fault.number(),
            TalkFault::OriginatorChanged => ORIGINATOR_CHANGED,
            TalkFault::Truncated => 44,
        }
    }
}
