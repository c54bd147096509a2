//! Peers that have taken too long.

ghost use Rattle.std.specs.Prelude.{◌≡◌};
ghost use Rattle.peer_connections.specs.Allowed.{IsLate, IsPassing};
ghost use Rattle.peer_connections.specs.Due.{StayDue, with_due};
ghost use Rattle.peer_connections.specs.Links.{OthersStay};
ghost use Rattle.peer_connections.specs.Reaches.{ReachesBy};
ghost use Rattle.peer_connections.specs.Sending.{KeepsChanges};
ghost use Rattle.peer_connections.specs.Streams.{AllStayKnown, StaysKnownAt};

use crate::connections::Connections;
use crate::naming::PeerName;
use crate::peer_stream::PeerSocket;
use crate::sizes::{CLOSING_SECONDS, FIRST_MESSAGE_SECONDS, TAKING_SECONDS};
use journal::{Disk, DiskFault};
use std::time::{Duration, Instant};

impl<D: Disk, S: PeerSocket> Connections<D, S> {
    /// Ends the sessions that sent nothing for `idle` seconds, and those that are no longer read
    /// because their peers take nothing. Closes connections that don't close by themselves, and
    /// those that have brought no whole message in time. Loses dispensers that are gone for too
    /// long, and ends releases that are too old. It reads from no connection and sends nothing:
    /// `send_due` sends what peers get of these rows.
    #[tactic(auto, using(crate::proofs::Reaching::passed))]
    pub fn sweep<E: Eprint>(
        &mut self,
        rt: &E,
        idle: Option<u64>,
        now: Instant,
    ) -> Result<(), DiskFault>
        ensures moves { ReachesBy IsPassing self.old.stored self.new.stored }
        ensures unread { AllStayKnown S.remaining self.old.links.items self.new.links.items }
        ensures got { AllStayKnown S.contents self.old.links.items self.new.links.items }
        ensures noted { KeepsChanges self.old.changes self.new.changes
            self.new.stored.station.book }
        ensures due { StayDue self.old.due self.new.due }
    {
        self.may_wait = false;
        for key in 0..self.links.len() {
            self.end_if_late(rt, key, idle, now);
        }
        self.keep_up(now)
    }

    /// The session of a peer ends, or its connection is closed, if it was waited for too long.
    #[tactic(auto, using(crate::proofs::Reaching::left_late, crate::proofs::Linking::kept, crate::proofs::Known::known, crate::proofs::Dues::due))]
    pub(crate) fn end_if_late<E: Eprint>(
        &mut self,
        rt: &E,
        key: usize,
        idle: Option<u64>,
        now: Instant,
    )
        ensures moves { ReachesBy (IsLate key) self.old.stored self.new.stored }
        ensures others { OthersStay key self.old.links.items self.new.links.items }
        ensures unread { StaysKnownAt S.remaining key self.old.links.items self.new.links.items }
        ensures got { StaysKnownAt S.contents key self.old.links.items self.new.links.items }
        ensures changes { self.new.changes ≡ self.old.changes }
        ensures due { StayDue self.old.due self.new.due }
    {
        match self.find_timeout(key, idle, now) {
            Timeout::NotYet => {}
            Timeout::Idle(seconds) => self.end_late(rt, key, "came", seconds, now),
            Timeout::Stuck(seconds) => self.end_late(rt, key, "was taken", seconds, now),
            Timeout::Soon => self.may_wait = true,
            Timeout::Over => self.leave_late(key),
        }
    }

    /// The peer of a key leaves, which was waited for too long, unless it is served.
    #[tactic(auto, using(crate::proofs::Reaching::left_late, crate::proofs::Linking::kept, crate::proofs::Known::known, crate::proofs::Dues::due))]
    fn leave_late(&mut self, key: usize)
        ensures moves { ReachesBy (IsLate key) self.old.stored self.new.stored }
        ensures others { OthersStay key self.old.links.items self.new.links.items }
        ensures unread { StaysKnownAt S.remaining key self.old.links.items self.new.links.items }
        ensures got { StaysKnownAt S.contents key self.old.links.items self.new.links.items }
        ensures changes { self.new.changes ≡ self.old.changes }
        ensures due { self.new.due ≡ self.old.due }
    {
        if self.look_for_message(key).is_some() {
            self.remove(key);
        }
    }

    /// The session of a peer ends, of which nothing came for so many seconds, or that took nothing.
    #[tactic(auto, using(crate::proofs::Reaching::left_late, crate::proofs::Pairing::paired, crate::proofs::Known::known))]
    fn end_late<E: Eprint>(&mut self, rt: &E, key: usize, what: &str, seconds: u64, now: Instant)
        ensures moves { ReachesBy (IsLate key) self.old.stored self.new.stored }
        ensures others { OthersStay key self.old.links.items self.new.links.items }
        ensures unread { StaysKnownAt S.remaining key self.old.links.items self.new.links.items }
        ensures got { StaysKnownAt S.contents key self.old.links.items self.new.links.items }
        ensures changes { self.new.changes ≡ self.old.changes }
        ensures due { self.new.due ≡ with_due key self.old.due }
    {
        let name = PeerName {
            node: self.stored.node(key),
        };
        let _ = eprintln!(rt; "session of {name}: nothing {what} for {seconds} seconds");
        self.stored.finish(key);
        let _ = self.note_closing(key, now);
        self.make_due(key);
    }

    /// Whether a peer was waited for too long.
    fn find_timeout(&self, key: usize, idle: Option<u64>, now: Instant) -> Timeout {
        let Some(Some(link)) = self.links.get(key) else {
            return Timeout::NotYet;
        };
        if let Some(since) = link.closing_since {
            return Timeout::over_if(is_over(since, CLOSING_SECONDS, now));
        }
        if !self.stored.is_read(key) {
            let seconds = idle.unwrap_or(TAKING_SECONDS);
            if is_over(link.still_since(), seconds, now) {
                return Timeout::Stuck(seconds);
            }
            return Timeout::Soon;
        }
        match idle {
            Some(seconds) if !link.is_unread && is_over(link.heard_at, seconds, now) => {
                return Timeout::Idle(seconds);
            }
            _ => {}
        }
        if self.stored.node(key).is_some() {
            return Timeout::NotYet;
        }
        // What it sent and isn't read yet, since it is held back, may be the rest of a message.
        let is_late = is_over(link.came_at, FIRST_MESSAGE_SECONDS, now);
        Timeout::over_if(is_late && !link.is_unread)
    }
}

/// Whether a peer was waited for too long.
#[derive(Clone, Copy, Debug, PartialEq, Eq)]
enum Timeout {
    /// It wasn't.
    NotYet,
    /// Nothing came of it for so many seconds.
    Idle(u64),
    /// It took nothing for so many seconds, and isn't read from for that.
    Stuck(u64),
    /// Its session has ended, and its connection doesn't, or it has brought no whole message.
    Over,
    /// It wasn't yet, and will be if it does nothing.
    Soon,
}

impl Timeout {
    /// Over if it is so, else soon.
    fn over_if(is_so: bool) -> Timeout {
        if is_so { Timeout::Over } else { Timeout::Soon }
    }
}

/// Have more than so many seconds passed since then? One more than a second's rounds: a peer that
/// is heard in a round may be heard again before it is left, however long a round takes.
fn is_over(since: Instant, seconds: u64, now: Instant) -> bool {
    now.duration_since(since) > Duration::from_secs(seconds)
}
