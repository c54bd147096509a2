//! The talk with one peer, between its messages.

ghost use Rattle.std.specs.Prelude.{◌≡◌};
ghost use Rattle.devices.specs.Devices.{one_more};
ghost use Rattle.peer_talk.specs.Exchanges.{signed_by};
ghost use Rattle.peer_talk.specs.Talks.{opening_talk, IsOwn, IsRequestOf, IsSpokenBy, without_on};
ghost use Rattle.peer_talk.specs.Text.{is_another, meaning_at, peer_after};

use app_message::Message;
use device_map::{MapFault, request_of};
use site_base::{Actor, Event, NoRow, Reply, SignChange, TillNo, sign_change};
use std::marker::Model;

/// What a message means to a session.
#[derive(Clone, Copy, Debug, PartialEq, Eq)]
pub enum Meaning {
    /// It comes from another originator than the first message, which ends the session.
    Another,
    /// It means no event.
    Fault(MapFault),
    /// The actor asks for the event.
    Request(Actor, Event),
}

/// What is known of a peer between two messages: whom the talk serves, the till that it signed on
/// and didn't sign off, and how many requests it asked.
///
/// Its user takes the meaning of each message, finds the answer, notes that, and sends it.
#[derive(Drop)]
pub struct Talk {
    peer: Option<[u8; 2]>,
    on: Option<TillNo>,
    asked: u64,
}

impl Model for Talk {
    ghost use Rattle.peer_talk.specs.Talks.{TalkState, IsOwn};

    ghost Value = { TalkState };

    ghost view = { λ t. record { peer = t.peer; on = t.on; asked = t.asked } };

    ghost invariant = { λ t. IsOwn t.on t.peer };
}

impl Talk {
    /// Returns a talk before its first message.
    pub fn new() -> Talk
        ensures { result ≡ opening_talk }
    {
        Talk {
            peer: None,
            on: None,
            asked: 0,
        }
    }

    /// Returns the originator of the first message, whom the session serves.
    pub fn peer(&self) -> Option<[u8; 2]>
        ensures { result ≡ self.now.peer }
    {
        self.peer
    }

    /// Returns the till that was signed on and not signed off: the one that the session serves.
    pub fn till(&self) -> Option<TillNo>
        ensures till { result ≡ self.now.on }
        ensures own { IsOwn self.now.on self.now.peer }
    {
        self.on
    }

    /// Returns the number of requests that were asked.
    pub fn request_count(&self) -> u64
        ensures { result ≡ self.now.asked }
    {
        self.asked
    }

    /// Takes the meaning of a message. The session serves the originator of the first message. The
    /// actor of a request is always that originator.
    pub fn take_meaning(&mut self, message: &Message) -> Meaning
        ensures meaning { result ≡ meaning_at self.old.peer message.now }
        ensures peer { self.new
            ≡ record self.old { peer = peer_after self.old.peer message.now.from } }
        ensures spoken { IsRequestOf self.new.peer result }

        // The type's invariant, for callers' proofs.
        ensures own { IsOwn self.old.on self.old.peer }
    {
        if self.is_another(message.from()) {
            return Meaning::Another;
        }
        self.bind_peer(message.from());
        match request_of(message) {
            Ok((actor, event)) => Meaning::Request(actor, event),
            Err(fault) => Meaning::Fault(fault),
        }
    }

    /// Does it come from another originator than the one that the session serves?
    fn is_another(&self, from: [u8; 2]) -> bool
        ensures another { result ≡ is_another self.now.peer from }

        // The type's invariant, for callers' proofs.
        ensures own { IsOwn self.now.on self.now.peer }
    {
        match self.peer {
            None => false,
            Some(peer) => !(peer[0] == from[0] && peer[1] == from[1]),
        }
    }

    /// The session serves the originator of its first message.
    fn bind_peer(&mut self, from: [u8; 2])
        ensures { self.new ≡ record self.old { peer = peer_after self.old.peer from } }
    {
        if self.peer.is_none() {
            self.peer = Some(from);
        }
    }

    /// Notes that a request was asked and had this outcome.
    pub fn note(&mut self, actor: &Actor, event: &Event, outcome: &Result<Reply, NoRow>)
        requires { IsSpokenBy actor.now self.old.peer }
        ensures peer { self.new.peer ≡ self.old.peer }
        ensures own { IsOwn self.old.on self.old.peer }
        ensures on { self.new.on ≡ signed_by actor.now event.now outcome.now self.old.on }
        ensures counted { self.new.asked ≡ one_more self.old.asked }
    {
        self.asked = self.asked.saturating_add(1);
        let Ok(reply) = outcome else { return };
        match &sign_change(actor, event, reply) {
            Some(SignChange::On(t)) => self.on = Some(*t),
            Some(SignChange::Off(_)) => self.on = None,
            None => {}
        }
    }

    /// Notes that somebody else has signed off this till. If it was signed on here, it isn't any
    /// more.
    pub fn forget_till(&mut self, till: TillNo)
        ensures { self.new ≡ record self.old { on = without_on till self.old.on } }
    {
        if let Some(on) = self.on {
            if on.get() == till.get() {
                self.on = None;
            }
        }
    }
}
