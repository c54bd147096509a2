//! A peer: its session, and its pending output.

ghost use Rattle.std.specs.Prelude.{◌≡◌, ◌≤◌, None, Some, length, is_none, IfOk};
ghost use Rattle.station.specs.declared.sizes.TheConstants.{NOTICE_OCTETS};
ghost use Rattle.station.specs.Listening.{is_at, listener, speaker};
ghost use Rattle.station.specs.PeerViews.{session_of};
ghost use Rattle.station.specs.Peers.{forget_till, tell_notice};
ghost use Rattle.station.specs.Sessions.{is_read, opening_session};

use crate::outbox::Outbox;
use crate::paper::is_same_node;
use crate::peer_end::PeerEnd;
use crate::sizes::{NOTICE_LIMIT, READ_LIMIT};
use app_message::Decoder;
use peer_talk::Talk;
use site_base::{NoMemory, TillNo};
use std::alloc::Global;

/// A peer of the station.
#[derive(Drop)]
pub struct Peer {
    /// The node at whose door it came, if it came at one.
    pub(crate) door: Option<[u8; 2]>,
    pub(crate) decoder: Decoder,
    pub(crate) talk: Talk,
    pub(crate) outbox: Outbox,
    /// How its session ended, if it did.
    pub(crate) end: Option<PeerEnd>,
}

impl Peer {
    /// A peer that has said nothing.
    pub(crate) fn new(alloc: Global, door: Option<[u8; 2]>) -> Result<Peer, NoMemory>
        ensures { IfOk result (λ peer. session_of peer ≡ opening_session door) }
    {
        Ok(Peer {
            door,
            decoder: Decoder::new(alloc),
            talk: Talk::new(),
            outbox: Outbox::new(alloc)?,
            end: None,
        })
    }

    /// Does its session last?
    pub(crate) fn lasts(&self) -> bool
        ensures { result ≡ is_none self.now.end }
    {
        self.end.is_none()
    }

    /// Is it read from? Its session lasts, and it takes what it is owed.
    pub(crate) fn is_read(&self) -> bool
        ensures { result ≡ is_read (session_of self.now) }
    {
        self.end.is_none() && self.outbox.len() < READ_LIMIT
    }

    /// Does it listen at this node?
    pub(crate) fn listens_at(&self, node: [u8; 2]) -> bool
        ensures { result ≡ is_at (listener self.now.end self.now.talk.peer) node }
    {
        match (self.end, self.talk.peer()) {
            (None, Some(peer)) => is_same_node(peer, node),
            _ => false,
        }
    }

    /// Whom its session is of while it lasts: at a door its node, from the beginning; without a
    /// door the originator of its first message.
    pub(crate) fn speaker(&self) -> Option<[u8; 2]>
        ensures { result ≡ listener self.now.end (speaker self.now.door self.now.talk.peer) }
    {
        match (self.end, self.door) {
            (Some(_), _) => None,
            (None, Some(node)) => Some(node),
            (None, None) => self.talk.peer(),
        }
    }

    /// Somebody else has signed this till off: its session forgets that it had signed it on.
    pub(crate) fn forget_till(&mut self, till: TillNo)
        ensures { session_of self.new ≡ forget_till (Some till) (session_of self.old) }
    {
        if self.lasts() {
            self.talk.forget_till(till);
        }
    }

    /// Tells it a notice; where it is owed too much, its session ends instead.
    pub(crate) fn notice(&mut self, octets: &[u8])
        requires { length octets.now ≤ NOTICE_OCTETS }
        ensures { session_of self.new ≡ tell_notice (Some octets.now) (session_of self.old) }
    {
        if self.outbox.len() > NOTICE_LIMIT {
            self.end = Some(PeerEnd::Behind);
        } else {
            self.outbox.put_notice(octets);
        }
    }
}
