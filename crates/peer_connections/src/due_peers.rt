//! The peers whose pending output is sent at the end of a round.

ghost use Rattle.std.specs.Prelude.{◌≡◌, ◌≢◌, ◌<◌, ◌⊎◌, [], false, true};
ghost use Rattle.station.specs.declared.sizes.TheConstants.{PEERS};
ghost use Rattle.station.specs.Reads.{owed_at};
ghost use Rattle.peer_connections.specs.Due.{StayDue, is_due, with_due};
ghost use Rattle.peer_connections.specs.Links.{has_link};
ghost use Rattle.peer_connections.specs.Sending.{FullAreDue, HasChange, OwedAreDue, is_full_at};

use crate::connections::Connections;
use crate::peer_stream::PeerSocket;
use journal::Disk;
use station::PEERS;

impl<D: Disk, S: PeerSocket> Connections<D, S> {
    /// Makes a peer due: its pending output is sent at the end of this round.
    pub fn make_due(&mut self, key: usize)
        ensures stored { self.new.stored ≡ self.old.stored }
        ensures links { self.new.links ≡ self.old.links }
        ensures changes { self.new.changes ≡ self.old.changes }
        ensures due { self.new.due ≡ with_due key self.old.due }
    {
        self.due.add(key);
    }

    /// If a dispenser gets a notice of a row of this round, makes each peer with pending output
    /// due, except those whose connections take none for now. Peers that sent something are due
    /// anyway.
    pub fn make_owed_due(&mut self)
        ensures stored { self.new.stored ≡ self.old.stored }
        ensures links { self.new.links ≡ self.old.links }
        ensures due { StayDue self.old.due self.new.due }
        ensures owed { HasChange self.old.changes self.old.stored.station.book
            → OwedAreDue self.new.stored.station self.new.links.items self.new.due }
    {
        self.changes.look(self.stored.book());
        self.note_releases();
        if self.changes.take() {
            self.make_each_owed_due();
        }
    }

    /// Peers that are owed octets are sent them at the end of this round, but for those whose
    /// connections take none for now.
    #[tactic(auto, using(crate::proofs::Dues::due))]
    fn make_each_owed_due(&mut self)
        ensures stored { self.new.stored ≡ self.old.stored }
        ensures links { self.new.links ≡ self.old.links }
        ensures due { StayDue self.old.due self.new.due }
        ensures owed { OwedAreDue self.new.stored.station self.new.links.items self.new.due }
    {
        // Keys above aren't given.
        let _ = self.stored.book();
        let mut from = 0;
        for _ in 0..PEERS {
            let Some(key) = self.stored.next_owed(from) else {
                return;
            };
            self.make_one_owed_due(key);
            from = key + 1;
        }
    }

    /// A peer that is owed octets is sent them at the end of this round, unless its connection
    /// takes none for now.
    #[tactic(auto, using(crate::proofs::Dues::due))]
    fn make_one_owed_due(&mut self, key: usize)
        requires { key < PEERS }
        ensures stored { self.new.stored ≡ self.old.stored }
        ensures links { self.new.links ≡ self.old.links }
        ensures due { StayDue self.old.due self.new.due }
        ensures owed { owed_at self.new.stored.station key ≢ [] → (is_due self.new.due key ≡ true)
            ⊎ (is_full_at self.new.links.items key ≡ true) }
    {
        if !self.stored.is_read(key) {
            self.may_wait = true;
        }
        if self.takes_octets(key) {
            self.make_due(key);
        }
    }

    /// The releases of this round stand since it began.
    fn note_releases(&mut self)
        ensures stored { self.new.stored ≡ self.old.stored }
        ensures links { self.new.links ≡ self.old.links }
        ensures due { self.new.due ≡ self.old.due }
        ensures changes { self.new.changes.has_changes ≡ self.old.changes.has_changes }
    {
        let released = self.changes.take_released();
        if let Some(now) = self.round_at {
            self.upkeep.note_releases(released, now);
        }
    }

    /// Makes peers due too whose connections took no more. The system reports only after a long
    /// time that a connection takes octets again. So a peer that takes some isn't dropped as one
    /// that takes nothing.
    #[tactic(auto, using(crate::proofs::Dues::due))]
    pub fn make_full_due(&mut self)
        ensures stored { self.new.stored ≡ self.old.stored }
        ensures links { self.new.links ≡ self.old.links }
        ensures due { StayDue self.old.due self.new.due }
        ensures full { FullAreDue self.new.links.items self.new.due }
    {
        // Keys above aren't given.
        let _ = self.stored.book();
        for key in 0..PEERS {
            if self.is_full(key) {
                self.make_due(key);
            }
        }
    }

    /// Did the connection of a peer take no more?
    fn is_full(&self, key: usize) -> bool
        ensures { result ≡ is_full_at self.now.links.items key }
    {
        match self.links.get(key) {
            Some(Some(link)) => link.is_full,
            _ => false,
        }
    }

    /// Does the connection of a peer take octets, or has its session ended just now?
    fn takes_octets(&self, key: usize) -> bool
        ensures { result ≡ false → has_link self.now.links.items key ≡ true
            → is_full_at self.now.links.items key ≡ true }
    {
        match self.links.get(key) {
            Some(Some(link)) => {
                let has_ended = link.closing_since.is_none() && self.stored.end(key).is_some();
                !link.is_full || has_ended
            }
            _ => false,
        }
    }
}
