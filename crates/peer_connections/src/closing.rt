//! Connections that close because their sessions have ended.

ghost use Rattle.std.specs.Prelude.{◌≡◌, [], None, Some, false, get_or, true};
ghost use Rattle.station.specs.Moves.{without_peer};
ghost use Rattle.station.specs.Reads.{end_at, owed_at};
ghost use Rattle.journal.specs.Stored.{with_station};
ghost use Rattle.peer_connections.specs.Allowed.{IsClosing, lasts_at};
ghost use Rattle.peer_connections.specs.Links.{OthersStay, has_link};
ghost use Rattle.peer_connections.specs.Reaches.{ReachesBy};
ghost use Rattle.peer_connections.specs.Sending.{IsLetGo, IsSentTo, WorksAt};
ghost use Rattle.peer_connections.specs.Streams.{StaysKnownAt};

use crate::connections::Connections;
use crate::link::Channel;
use crate::naming::EndedSession;
use crate::peer_stream::PeerSocket;
use journal::Disk;
use station::PeerEnd;
use std::time::Instant;

impl<D: Disk, S: PeerSocket> Connections<D, S> {
    /// The session of a peer has ended: its connection is one that closes. That is told once, where
    /// it ended otherwise than with its peer's octets.
    #[tactic(auto, using(crate::proofs::Sent::sent_to, crate::proofs::Known::known))]
    pub(crate) fn begin_to_close<E: Eprint>(&mut self, rt: &E, key: usize, now: Instant)
        requires { lasts_at self.old.stored.station key ≡ false }
        ensures stored { self.new.stored ≡ self.old.stored }
        ensures others { OthersStay key self.old.links.items self.new.links.items }
        ensures sent { IsSentTo key self.old.stored self.old.links.items
            → IsSentTo key self.new.stored self.new.links.items }
        ensures works { WorksAt (get_or self.old.links.items key None)
            → WorksAt (get_or self.new.links.items key None) }
        ensures got { StaysKnownAt S.contents key self.old.links.items self.new.links.items }
        ensures changes { self.new.changes ≡ self.old.changes }
        ensures due { self.new.due ≡ self.old.due }
    {
        if !self.note_closing(key, now) {
            return;
        }
        match self.stored.end(key) {
            None | Some(PeerEnd::Well) => {}
            Some(end) => {
                let node = self.stored.node(key);
                let ended = EndedSession { node, end };
                let _ = eprintln!(rt; "{ended}");
            }
        }
    }

    /// The session of a peer has ended: its connection is one that closes, and nobody hears what it
    /// still brings. False where it was one.
    #[tactic(auto, using(crate::proofs::Sent::sent_to, crate::proofs::Known::known))]
    pub(crate) fn note_closing(&mut self, key: usize, now: Instant) -> bool
        requires { lasts_at self.old.stored.station key ≡ false }
        ensures stored { self.new.stored ≡ self.old.stored }
        ensures others { OthersStay key self.old.links.items self.new.links.items }
        ensures sent { IsSentTo key self.old.stored self.old.links.items
            → IsSentTo key self.new.stored self.new.links.items }
        ensures works { WorksAt (get_or self.old.links.items key None)
            → WorksAt (get_or self.new.links.items key None) }
        ensures unread { StaysKnownAt S.remaining key self.old.links.items self.new.links.items }
        ensures got { StaysKnownAt S.contents key self.old.links.items self.new.links.items }
        ensures changes { self.new.changes ≡ self.old.changes }
        ensures due { self.new.due ≡ self.old.due }
    {
        if let Some(slot) = self.links.get_mut(key) {
            if let Some(link) = slot {
                if link.closing_since.is_none() {
                    link.closing_since = Some(now);
                    self.may_wait = true;
                    return true;
                }
            }
        }
        false
    }

    /// A peer whose session ended so has what it is owed: it is told that nothing more will come,
    /// and once it sends no more its connection is closed. That of one that doesn't take what it is
    /// owed is closed at once.
    #[tactic(auto, using(crate::proofs::Reaching::closed, crate::proofs::Sent::sent_to, crate::proofs::Known::known))]
    pub(crate) fn end_connection(&mut self, key: usize, end: PeerEnd)
        requires ended { lasts_at self.old.stored.station key ≡ false }
        requires so { end_at self.old.stored.station key ≡ Some end }
        ensures moves { ReachesBy (IsClosing key) self.old.stored self.new.stored }
        ensures others { OthersStay key self.old.links.items self.new.links.items }
        ensures sent { IsSentTo key self.old.stored self.old.links.items
            → IsSentTo key self.new.stored self.new.links.items }
        ensures works { WorksAt (get_or self.old.links.items key None)
            → WorksAt (get_or self.new.links.items key None) }
        ensures journal { self.new.stored.journal ≡ self.old.stored.journal }
        ensures let_go { IsLetGo key self.old.stored.station self.old.links.items
            self.new.links.items }
        ensures stays { has_link self.new.links.items key ≡ true
            → self.new.stored ≡ self.old.stored }
        ensures got { StaysKnownAt S.contents key self.old.links.items self.new.links.items }
        ensures changes { self.new.changes ≡ self.old.changes }
        ensures due { self.new.due ≡ self.old.due }
    {
        if end == PeerEnd::Behind {
            self.remove(key);
            return;
        }
        if self.stored.is_owed(key) {
            return;
        }
        if self.shut(key) {
            self.remove(key);
        }
    }

    /// A peer that was sent all is told that nothing more will come. Can it only take, or nothing
    /// at all?
    #[tactic(auto, using(crate::proofs::Sent::sent_to, crate::proofs::Known::known))]
    fn shut(&mut self, key: usize) -> bool
        requires ended { lasts_at self.old.stored.station key ≡ false }
        requires sent { owed_at self.old.stored.station key ≡ [] }
        ensures stored { self.new.stored ≡ self.old.stored }
        ensures others { OthersStay key self.old.links.items self.new.links.items }
        ensures sent { IsSentTo key self.old.stored self.old.links.items
            → IsSentTo key self.new.stored self.new.links.items }
        ensures works { WorksAt (get_or self.old.links.items key None)
            → WorksAt (get_or self.new.links.items key None) }
        ensures got { StaysKnownAt S.contents key self.old.links.items self.new.links.items }
        ensures changes { self.new.changes ≡ self.old.changes }
        ensures due { self.new.due ≡ self.old.due }
    {
        if let Some(slot) = self.links.get_mut(key) {
            if let Some(link) = slot {
                link.shut(&self.stored, key);
                return link.channel != Channel::Open;
            }
        }
        false
    }

    /// The connection of a peer is closed, and the peer leaves.
    #[tactic(auto, using(crate::proofs::Pairing::paired, crate::proofs::Known::known))]
    pub(crate) fn remove(&mut self, key: usize)
        ensures left { self.new.stored
            ≡ with_station (without_peer key self.old.stored.station) self.old.stored }
        ensures gone { has_link self.new.links.items key ≡ false }
        ensures others { OthersStay key self.old.links.items self.new.links.items }
        ensures unread { StaysKnownAt S.remaining key self.old.links.items self.new.links.items }
        ensures got { StaysKnownAt S.contents key self.old.links.items self.new.links.items }
        ensures changes { self.new.changes ≡ self.old.changes }
        ensures due { self.new.due ≡ self.old.due }
    {
        self.stored.leave(key);
        if let Some(slot) = self.links.get_mut(key) {
            *slot = None;
        }
    }
}
