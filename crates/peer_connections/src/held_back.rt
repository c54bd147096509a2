//! Sessions that are held back because no more of them may be read yet.

ghost use Rattle.std.specs.Prelude.{◌≡◌};
ghost use Rattle.peer_connections.specs.Streams.{StayKnown};

use crate::connections::Connections;
use crate::peer_stream::PeerSocket;
use journal::Disk;
use mio::Registry;
use station::PEERS;
use std::time::{Duration, Instant};

impl<D: Disk, S: PeerSocket> Connections<D, S> {
    /// Returns how long it is until a session that is held back is read again, if there is one.
    pub fn hold_left(&self, now: Instant) -> Option<Duration> {
        let at = self.read_on_at?;
        Some(at.duration_since(now))
    }

    /// A session is held back until then.
    pub(crate) fn note_hold(&mut self, until: Instant)
        ensures stored { self.new.stored ≡ self.old.stored }
        ensures links { self.new.links ≡ self.old.links }
        ensures changes { self.new.changes ≡ self.old.changes }
        ensures due { self.new.due ≡ self.old.due }
    {
        let is_first = match self.read_on_at {
            None => true,
            Some(at) => until < at,
        };
        if is_first {
            self.read_on_at = Some(until);
        }
    }

    /// Reads on from a session that was held back for long enough: its connection is reported once
    /// more. A round does this for one session, so that others are served in between.
    #[tactic(auto, using(crate::proofs::Known::known_as_before))]
    pub fn read_on(&mut self, registry: &Registry, now: Instant)
        ensures stored { self.new.stored ≡ self.old.stored }
        ensures left { StayKnown S.remaining self.old.links.items self.new.links.items }
        ensures got { StayKnown S.contents self.old.links.items self.new.links.items }
        ensures changes { self.new.changes ≡ self.old.changes }
        ensures due { self.new.due ≡ self.old.due }
    {
        if !self.is_read_on_due(now) {
            return;
        }
        self.read_on_at = None;
        let from = self.read_on_from;
        for step in 0..PEERS {
            let key = from.saturating_add(step) % PEERS;
            if self.end_hold(registry, key, now) {
                self.read_on_from = key + 1;
                self.read_on_at = Some(now);
                return;
            }
        }
    }

    /// Has a session been held back for long enough?
    fn is_read_on_due(&self, now: Instant) -> bool {
        match self.read_on_at {
            None => false,
            Some(at) => at <= now,
        }
    }

    /// The session of a peer is held back no more, if it was for long enough; else false.
    #[tactic(auto, using(crate::proofs::Pairing::paired, crate::proofs::Known::known_as_before))]
    fn end_hold(&mut self, registry: &Registry, key: usize, now: Instant) -> bool
        ensures stored { self.new.stored ≡ self.old.stored }
        ensures left { StayKnown S.remaining self.old.links.items self.new.links.items }
        ensures got { StayKnown S.contents self.old.links.items self.new.links.items }
        ensures changes { self.new.changes ≡ self.old.changes }
        ensures due { self.new.due ≡ self.old.due }
    {
        let Some(until) = self.held_until(key) else {
            return false;
        };
        if until > now {
            self.note_hold(until);
            return false;
        }
        if let Some(slot) = self.links.get_mut(key) {
            if let Some(link) = slot {
                link.held_until = None;
                link.stream.watch_again(registry, key);
            }
        }
        true
    }
}

/// So many milliseconds later.
pub(crate) fn after(now: Instant, milliseconds: u64) -> Instant {
    match now.checked_add(Duration::from_millis(milliseconds)) {
        Some(later) => later,
        None => now,
    }
}
