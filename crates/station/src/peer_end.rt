//! How a session of the station ends.

use crate::sizes::NODE_SESSIONS;
use peer_talk::TalkFault;
use std::fmt;

/// How a session of the station ended.
#[derive(Clone, Copy, Debug, PartialEq, Eq)]
pub enum PeerEnd {
    /// The peer's octets ended, and not inside a message.
    Well,
    /// The text of the session ended with this fault.
    Talk(TalkFault),
    /// An allocation failed.
    NoMemory,
    /// The peer had too much pending output to be sent a notice.
    Behind,
    /// Its first message came from this node, which may not speak there.
    Barred([u8; 2]),
    /// Its first message came from this node, which has as many sessions as it may.
    Crowded([u8; 2]),
}

impl fmt::Display for PeerEnd {
    fn fmt<W: fmt::Write>(&self, f: &mut fmt::Formatter<W>) -> fmt::Result {
        match self {
            PeerEnd::Well => write!(f, "the octets ended"),
            PeerEnd::Talk(fault) => write!(f, "fault {}: {fault}", fault.number()),
            PeerEnd::NoMemory => write!(f, "fault 31: out of memory"),
            PeerEnd::Behind => write!(f, "the peer doesn't read what it is sent"),
            PeerEnd::Barred(_) => write!(
                f,
                "it may not speak there: a node that has a door uses it, any other the port, and \
                 nobody speaks as the house till"
            ),
            PeerEnd::Crowded(_) => write!(f, "it has {NODE_SESSIONS} sessions, as many as it may"),
        }
    }
}
