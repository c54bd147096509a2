//! The end of a round: its rows are stored, and the peers that are due are sent their output.

ghost use Rattle.std.specs.Prelude.{◌≡◌, ◌<◌, ◌≤◌, ◌+◌, ℕ, [], length, List, None, OnOk, Option};
ghost use Rattle.std.specs.Prelude.{false, get_or, take, true};
ghost use Rattle.peer_connections.specs.declared.link.Link.{Link};
ghost use Rattle.station.specs.Reads.{owed_at};
ghost use Rattle.journal.specs.Stored.{is_all_stored, told_at};
ghost use Rattle.peer_connections.specs.Allowed.{IsClosing, IsFollowing, IsSending};
ghost use Rattle.peer_connections.specs.Links.{OthersStay, has_link};
ghost use Rattle.peer_connections.specs.Reaches.{ReachesBy};
ghost use Rattle.peer_connections.specs.Sending.{AreSentTo, FailsAt, IsLetGo, IsSentTo};
ghost use Rattle.peer_connections.specs.Sending.{KeepsChanges, WorksAt};
ghost use Rattle.peer_connections.specs.Streams.{AllContinue, AllGetMore, SendsAndFollows};
ghost use Rattle.peer_connections.specs.Streams.{SendsStream, StaysKnownAt, known_at};

use crate::connections::Connections;
use crate::peer_stream::PeerSocket;
use journal::{Disk, DiskFault};
use mio::Registry;
use std::time::Instant;

impl<D: Disk, S: PeerSocket> Connections<D, S> {
    /// Stores each row. Then sends the pending output of the peers that are due, and closes
    /// sessions that have ended. If the rows can't be stored, nothing is sent. Last, ends the
    /// history's chapter if it is over. No due peer is passed over: afterwards it has no pending
    /// output, except of rows that were added meanwhile, or its connection has stopped.
    #[tactic(auto, using(crate::proofs::Reaching::followed))]
    pub fn send_due<E: Eprint>(
        &mut self,
        registry: &Registry,
        rt: &E,
        now: Instant,
    ) -> Result<(), DiskFault>
        ensures moves { ReachesBy IsFollowing self.old.stored self.new.stored }
        ensures stored { OnOk result (is_all_stored self.new.stored ≡ true) }
        ensures due { OnOk result (self.new.due ≡ []) }
        ensures got { AllGetMore S.contents self.old.links.items self.new.links.items
            self.old.stored.station self.new.stored.station }
        ensures noted { KeepsChanges self.old.changes self.new.changes
            self.new.stored.station.book }
        ensures sent { OnOk result (length self.new.stored.station.book.rows
            ≡ length self.old.stored.station.book.rows
            → AreSentTo self.old.due self.new.stored self.new.links.items) }
        ensures streams { OnOk result (length self.new.stored.station.book.rows
            ≡ length self.old.stored.station.book.rows
            → AllContinue S.contents self.old.links.items self.new.links.items
            (λ k. owed_at self.old.stored.station k) self.new.stored) }
    {
        self.store()?;
        self.send_each(registry, rt, now);
        // The sign-offs of sessions whose connections failed while they were sent to.
        self.store_and_end(rt)
    }

    /// Each row is stored. Whoever is due is sent what it may be told, and a session that has ended
    /// is closed.
    #[tactic(auto, using(crate::proofs::Reaching::followed))]
    fn send_each<E: Eprint>(&mut self, registry: &Registry, rt: &E, now: Instant)
        ensures moves { ReachesBy IsFollowing self.old.stored self.new.stored }
        ensures journal { self.new.stored.journal ≡ self.old.stored.journal }
        ensures rows { length self.old.stored.station.book.rows
            ≤ length self.new.stored.station.book.rows }
        ensures changes { self.new.changes ≡ self.old.changes }
        ensures due { self.new.due ≡ [] }
        ensures got { AllGetMore S.contents self.old.links.items self.new.links.items
            self.old.stored.station self.new.stored.station }
        ensures sent { length self.new.stored.station.book.rows
            ≡ length self.old.stored.station.book.rows
            → AreSentTo self.old.due self.new.stored self.new.links.items }
        ensures streams { length self.new.stored.station.book.rows
            ≡ length self.old.stored.station.book.rows
            → AllContinue S.contents self.old.links.items self.new.links.items
            (λ k. told_at self.old.stored k) self.new.stored }
    {
        for at in 0..self.due.len() {
            self.send_at(registry, rt, at, now);
        }
        self.due.clear();
    }

    /// The one that is due at this place is sent what it may be told, as those before it were.
    #[tactic(auto, using(crate::proofs::Reaching::followed))]
    fn send_at<E: Eprint>(&mut self, registry: &Registry, rt: &E, at: usize, now: Instant)
        requires { at < length self.old.due }
        ensures moves { ReachesBy IsFollowing self.old.stored self.new.stored }
        ensures journal { self.new.stored.journal ≡ self.old.stored.journal }
        ensures rows { length self.old.stored.station.book.rows
            ≤ length self.new.stored.station.book.rows }
        ensures changes { self.new.changes ≡ self.old.changes }
        ensures due { self.new.due ≡ self.old.due }
        ensures got { AllGetMore S.contents self.old.links.items self.new.links.items
            self.old.stored.station self.new.stored.station }
        ensures sent { length self.new.stored.station.book.rows
            ≡ length self.old.stored.station.book.rows
            → AreSentTo (take at self.old.due) self.old.stored self.old.links.items
            → AreSentTo (take (at + 1) self.new.due) self.new.stored self.new.links.items }
        ensures streams { length self.new.stored.station.book.rows
            ≡ length self.old.stored.station.book.rows
            → (links : List (Option (Link S))) (might : ℕ → List ℕ)
            → AllContinue S.contents links self.old.links.items might self.old.stored
            → AllContinue S.contents links self.new.links.items might self.new.stored }
    {
        match self.due.get(at) {
            Some(key) => self.send_owed(registry, rt, key, now),
            None => {}
        }
    }

    /// A peer is sent what it is owed, and its connection follows its session.
    #[tactic(auto, using(crate::proofs::Reaching::moved, crate::proofs::Sent::sent_to, crate::proofs::Known::known))]
    fn send_owed<E: Eprint>(&mut self, registry: &Registry, rt: &E, key: usize, now: Instant)
        ensures moves { ReachesBy (IsClosing key) self.old.stored self.new.stored }
        ensures stream { SendsAndFollows S.contents key self.old.links.items self.new.links.items
            self.old.stored self.new.stored }
        ensures others { OthersStay key self.old.links.items self.new.links.items }
        ensures sent { IsSentTo key self.new.stored self.new.links.items }
        ensures journal { self.new.stored.journal ≡ self.old.stored.journal }
        ensures changes { self.new.changes ≡ self.old.changes }
        ensures due { self.new.due ≡ self.old.due }
    {
        if self.send_link(key, now) {
            self.stored.finish(key);
            self.begin_to_close(rt, key, now);
            self.remove(key);
        } else {
            self.follow_session(rt, key, now);
            self.report_again(registry, key);
        }
    }

    /// A peer is sent what it may be told. Has its connection failed?
    #[tactic(auto, using(crate::proofs::Streaming::sent, crate::proofs::Sent::sent_to, crate::proofs::Known::known))]
    pub(crate) fn send_link(&mut self, key: usize, now: Instant) -> bool
        ensures moves { ReachesBy (IsSending key) self.old.stored self.new.stored }
        ensures stream { SendsStream key (known_at S.contents self.old.links.items key)
            (known_at S.contents self.new.links.items key) self.old.stored self.new.stored }
        ensures others { OthersStay key self.old.links.items self.new.links.items }
        ensures sent { IsSentTo key self.new.stored self.new.links.items }
        ensures journal { self.new.stored.journal ≡ self.old.stored.journal }
        ensures failed { result ≡ true → FailsAt (get_or self.new.links.items key None) }
        ensures works { result ≡ false → WorksAt (get_or self.new.links.items key None) }
        ensures changes { self.new.changes ≡ self.old.changes }
        ensures due { self.new.due ≡ self.old.due }
    {
        if let Some(slot) = self.links.get_mut(key) {
            if let Some(link) = slot {
                link.send(&mut self.stored, key, now);
                return link.has_failed();
            }
        }
        false
    }

    /// A peer's connection closes, if its session has ended.
    #[tactic(auto, using(crate::proofs::Reaching::closed, crate::proofs::Sent::sent_to, crate::proofs::Known::known))]
    fn follow_session<E: Eprint>(&mut self, rt: &E, key: usize, now: Instant)
        ensures moves { ReachesBy (IsClosing key) self.old.stored self.new.stored }
        ensures others { OthersStay key self.old.links.items self.new.links.items }
        ensures sent { IsSentTo key self.old.stored self.old.links.items
            → IsSentTo key self.new.stored self.new.links.items }
        ensures works { WorksAt (get_or self.old.links.items key None)
            → WorksAt (get_or self.new.links.items key None) }
        ensures journal { self.new.stored.journal ≡ self.old.stored.journal }
        ensures let_go { IsLetGo key self.old.stored.station self.old.links.items
            self.new.links.items }
        ensures stays { has_link self.new.links.items key ≡ true
            → self.new.stored ≡ self.old.stored }
        ensures got { StaysKnownAt S.contents key self.old.links.items self.new.links.items }
        ensures changes { self.new.changes ≡ self.old.changes }
        ensures due { self.new.due ≡ self.old.due }
    {
        if let Some(end) = self.stored.end(key) {
            self.begin_to_close(rt, key, now);
            self.end_connection(key, end);
        }
    }

    /// Where a peer's turn was over before all was read or sent that could be, its connection is
    /// reported once more.
    #[tactic(auto, using(crate::proofs::Sent::sent_to, crate::proofs::Known::known))]
    fn report_again(&mut self, registry: &Registry, key: usize)
        ensures stored { self.new.stored ≡ self.old.stored }
        ensures others { OthersStay key self.old.links.items self.new.links.items }
        ensures sent { IsSentTo key self.old.stored self.old.links.items
            → IsSentTo key self.new.stored self.new.links.items }
        ensures works { WorksAt (get_or self.old.links.items key None)
            → WorksAt (get_or self.new.links.items key None) }
        ensures got { StaysKnownAt S.contents key self.old.links.items self.new.links.items }
        ensures changes { self.new.changes ≡ self.old.changes }
        ensures due { self.new.due ≡ self.old.due }
    {
        let is_read = self.stored.is_read(key);
        let is_owed = self.stored.is_owed(key);
        if let Some(slot) = self.links.get_mut(key) {
            if let Some(link) = slot {
                let is_heard = is_read && link.held_until.is_none();
                let is_left = link.is_unread && (is_heard || link.closing_since.is_some());
                if is_left || is_owed && (link.is_unsent || !link.is_full) {
                    link.stream.watch_again(registry, key);
                }
            }
        }
    }
}
