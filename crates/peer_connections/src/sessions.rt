//! The active sessions, as the page shows them.

ghost use Rattle.std.specs.Prelude.{◌≡◌, IfSome, Some};
ghost use Rattle.station.specs.Reads.{speaker_at};

use crate::connections::Connections;
use crate::peer_stream::PeerSocket;
use journal::Disk;
use stamps::Stamp;
use std::time::Instant;

/// An active session of a peer whose node is known.
#[derive(Clone, Copy, Debug, PartialEq, Eq)]
pub struct Session {
    /// At a door the door's node, otherwise the originator of the peer's first message.
    pub node: [u8; 2],
    /// The time of the round in which the peer came, if the clock gave one.
    pub since: Option<Stamp>,
    /// When its last octets came.
    pub heard_at: Instant,
}

impl<D: Disk, S: PeerSocket> Connections<D, S> {
    /// Returns the session of the peer of this key, if it is active, and came at a door or has
    /// brought a message.
    pub fn session(&self, key: usize) -> Option<Session>
        ensures { IfSome result (λ s. speaker_at self.now.stored.station key ≡ Some s.node) }
    {
        let Some(Some(link)) = self.links.get(key) else {
            return None;
        };
        let node = self.stored.speaker(key)?;
        Some(Session {
            node,
            since: link.since,
            heard_at: link.heard_at,
        })
    }
}
