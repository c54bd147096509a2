//! The end of a day: each session ends, and each connection is closed.

ghost use Rattle.std.specs.Prelude.{◌≡◌, IfSome, OnOk, true};
ghost use Rattle.station.specs.Reads.{HasNoPeer, owed_at};
ghost use Rattle.journal.specs.Stored.{is_all_stored, told_at};
ghost use Rattle.peer_connections.specs.Allowed.{IsEnding, IsFinishing, IsTaking};
ghost use Rattle.peer_connections.specs.Links.{OthersStay};
ghost use Rattle.peer_connections.specs.Reaches.{ReachesBy};
ghost use Rattle.peer_connections.specs.Sending.{AllAreSentTo};
ghost use Rattle.peer_connections.specs.Streams.{AllContinue};

use crate::connections::Connections;
use crate::peer_stream::PeerSocket;
use journal::{Disk, DiskFault};
use station::PEERS;
use std::time::Instant;

impl<D: Disk, S: PeerSocket> Connections<D, S> {
    /// Ends the day. Each session ends, and its pending output is sent as far as its connection
    /// takes it, if each row is stored. Then each connection is closed, and no peer is left. The
    /// history's chapter ends if it is over, and the last row is sealed.
    #[tactic(auto, using(crate::proofs::Reaching::ended, crate::proofs::Pairing::paired))]
    pub fn end_all<E: Eprint>(&mut self, rt: &E, now: Instant) -> Result<(), DiskFault>
        ensures moves { ReachesBy IsEnding self.old.stored self.new.stored }
        ensures left { HasNoPeer self.new.stored.station }
        ensures stored { OnOk result (is_all_stored self.new.stored ≡ true) }
        ensures sealed { OnOk result
            (IfSome self.new.stored.journal (λ j. j.end.sealed ≡ true)) }
    {
        self.finish_all();
        let stored = self.store_and_send_last(now);
        self.shut_all();
        self.remove_all();
        stored?;
        self.store_and_end(rt)?;
        self.stored.seal()
    }

    /// Each session ends.
    #[tactic(auto, using(crate::proofs::Reaching::ended, crate::proofs::Pairing::paired))]
    fn finish_all(&mut self)
        ensures moves { ReachesBy IsFinishing self.old.stored self.new.stored }
        ensures links { self.new.links ≡ self.old.links }
    {
        for key in 0..PEERS {
            self.stored.finish(key);
        }
    }

    /// Each row is stored. Then each peer is sent what it is owed, as far as its connection takes
    /// it. Where the rows can't be stored nothing is sent.
    #[tactic(auto, using(crate::proofs::Reaching::ended))]
    fn store_and_send_last(&mut self, now: Instant) -> Result<(), DiskFault>
        ensures moves { ReachesBy IsTaking self.old.stored self.new.stored }
        ensures streams { OnOk result (AllContinue S.contents self.old.links.items
            self.new.links.items (λ k. owed_at self.old.stored.station k) self.new.stored) }
        ensures sent { OnOk result (AllAreSentTo PEERS self.new.stored self.new.links.items) }
    {
        self.store()?;
        self.send_last_to_all(now);
        Ok(())
    }

    /// Each peer is sent what it may be told: each row is stored.
    #[tactic(auto, using(crate::proofs::Reaching::ended))]
    fn send_last_to_all(&mut self, now: Instant)
        requires { is_all_stored self.old.stored ≡ true }
        ensures moves { ReachesBy IsTaking self.old.stored self.new.stored }
        ensures streams { AllContinue S.contents self.old.links.items self.new.links.items
            (λ k. told_at self.old.stored k) self.new.stored }
        ensures journal { self.new.stored.journal ≡ self.old.stored.journal }
        ensures sent { AllAreSentTo PEERS self.new.stored self.new.links.items }
    {
        for key in 0..PEERS {
            let _ = self.send_link(key, now);
        }
    }

    /// Each peer whose session has ended, and that was sent all, is told that nothing more will
    /// come.
    fn shut_all(&mut self)
        ensures { self.new.stored ≡ self.old.stored }
    {
        for key in 0..PEERS {
            self.shut_ended(key);
        }
    }

    /// Each connection is closed, and its peer leaves.
    #[tactic(auto, using(crate::proofs::Reaching::ended))]
    fn remove_all(&mut self)
        ensures moves { ReachesBy IsEnding self.old.stored self.new.stored }
        ensures left { HasNoPeer self.new.stored.station }
    {
        for key in 0..PEERS {
            self.remove(key);
        }
        // Keys above aren't given.
        let _ = self.stored.book();
    }

    /// A peer whose session has ended, and that was sent all, is told that nothing more will come.
    /// What it has sent is read, and nobody hears it: a connection that is closed before that loses
    /// what was sent last.
    #[tactic(auto, using(crate::proofs::Pairing::paired, crate::proofs::Known::known))]
    fn shut_ended(&mut self, key: usize)
        ensures stored { self.new.stored ≡ self.old.stored }
        ensures others { OthersStay key self.old.links.items self.new.links.items }
    {
        if self.stored.end(key).is_none() {
            return;
        }
        let is_owed = self.stored.is_owed(key);
        if let Some(slot) = self.links.get_mut(key) {
            if let Some(link) = slot {
                if !is_owed {
                    link.shut(&self.stored, key);
                }
                link.ignore(&self.stored, key, &mut self.piece);
            }
        }
    }
}
