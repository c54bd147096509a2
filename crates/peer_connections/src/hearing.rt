//! What peers send: their connections are read, and the station hears what they sent.

ghost use Rattle.std.specs.Prelude.{◌≡◌, true};
ghost use Rattle.peer_connections.specs.Allowed.{IsHearing, lasts_at};
ghost use Rattle.peer_connections.specs.Links.{OthersStay};
ghost use Rattle.peer_connections.specs.Reaches.{ReachesBy};
ghost use Rattle.peer_connections.specs.Sending.{KeepsChanges};
ghost use Rattle.peer_connections.specs.Streams.{HearsStream, StayKnown, known_at};

use crate::connections::Connections;
use crate::peer_stream::PeerSocket;
use journal::{Disk, DiskFault};
use std::time::Instant;

impl<D: Disk, S: PeerSocket> Connections<D, S> {
    /// Reads from a peer that has sent something, or hung up. With `to_wait` it reads until the
    /// connection waits, as `Link::hear` says. If the station's book can't get room for a read,
    /// nothing more is read, and the error is returned.
    #[tactic(auto, using(crate::proofs::Reaching::moved, crate::proofs::Known::heard, crate::proofs::Seeing::kept))]
    pub fn hear(&mut self, key: usize, to_wait: bool, now: Instant) -> Result<(), DiskFault>
        ensures moves { ReachesBy (IsHearing key) self.old.stored self.new.stored }
        ensures stream { lasts_at self.old.stored.station key ≡ true
            → HearsStream key (known_at S.remaining self.old.links.items key)
            (known_at S.remaining self.new.links.items key) self.old.stored self.new.stored }
        ensures others { OthersStay key self.old.links.items self.new.links.items }
        ensures noted { KeepsChanges self.old.changes self.new.changes
            self.new.stored.station.book }
        ensures due { self.new.due ≡ self.old.due }
    {
        if self.hear_link(key, to_wait, now)? {
            self.note_heard(key);
        }
        Ok(())
    }

    /// The station may have heard a peer: whether it is held back, or isn't read from, and whether
    /// a dispenser is there.
    fn note_heard(&mut self, key: usize)
        ensures stored { self.new.stored ≡ self.old.stored }
        ensures links { self.new.links ≡ self.old.links }
        ensures changes { self.new.changes ≡ self.old.changes }
        ensures due { self.new.due ≡ self.old.due }
    {
        if let Some(until) = self.held_until(key) {
            self.note_hold(until);
        }
        if !self.stored.is_read(key) {
            self.may_wait = true;
        }
        self.note_dispenser(key);
    }

    /// A peer's connection is read, and the station hears it, unless it is held back. Where its
    /// session has ended nobody hears it. Says whether the station may have heard it.
    #[tactic(auto, using(crate::proofs::Streaming::heard, crate::proofs::Pairing::paired, crate::proofs::Known::known, crate::proofs::Seeing::kept))]
    fn hear_link(&mut self, key: usize, to_wait: bool, now: Instant) -> Result<bool, DiskFault>
        ensures moves { ReachesBy (IsHearing key) self.old.stored self.new.stored }
        ensures stream { lasts_at self.old.stored.station key ≡ true
            → HearsStream key (known_at S.remaining self.old.links.items key)
            (known_at S.remaining self.new.links.items key) self.old.stored self.new.stored }
        ensures others { OthersStay key self.old.links.items self.new.links.items }
        ensures noted { KeepsChanges self.old.changes self.new.changes
            self.new.stored.station.book }
        ensures due { self.new.due ≡ self.old.due }
    {
        if let Some(slot) = self.links.get_mut(key) {
            if let Some(link) = slot {
                if self.stored.end(key).is_some() {
                    link.ignore(&self.stored, key, &mut self.piece);
                    return Ok(false);
                }
                if link.held_until.is_some() {
                    return Ok(false);
                }
                let changes = &mut self.changes;
                link.hear(
                    &mut self.stored,
                    changes,
                    key,
                    &mut self.piece,
                    to_wait,
                    now,
                )?;
                return Ok(true);
            }
        }
        Ok(false)
    }

    /// Until when a session is held back, if it is.
    pub(crate) fn held_until(&self, key: usize) -> Option<Instant> {
        match self.links.get(key) {
            Some(Some(link)) => link.held_until,
            _ => None,
        }
    }

    /// Did reading from a peer stop before it was known that the peer has no more?
    pub fn is_unread(&self, key: usize) -> bool {
        match self.links.get(key) {
            Some(Some(link)) => link.is_unread,
            _ => false,
        }
    }

    /// Notes that a peer's connection takes octets again.
    #[tactic(auto, using(crate::proofs::Pairing::paired, crate::proofs::Known::known_as_before))]
    pub fn unblock(&mut self, key: usize)
        ensures stored { self.new.stored ≡ self.old.stored }
        ensures others { OthersStay key self.old.links.items self.new.links.items }
        ensures left { StayKnown S.remaining self.old.links.items self.new.links.items }
        ensures got { StayKnown S.contents self.old.links.items self.new.links.items }
        ensures changes { self.new.changes ≡ self.old.changes }
        ensures due { self.new.due ≡ self.old.due }
    {
        if let Some(slot) = self.links.get_mut(key) {
            if let Some(link) = slot {
                link.is_full = false;
            }
        }
    }
}
