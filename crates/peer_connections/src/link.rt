//! A peer's connection.

ghost use Rattle.std.specs.Prelude.{◌≡◌, ◌≢◌, ◌⊎◌, [], false, length, true};
ghost use Rattle.station.specs.declared.sizes.TheConstants.{HEARD_OCTETS};
ghost use Rattle.station.specs.Reads.{owed_at};
ghost use Rattle.peer_connections.specs.declared.link.Channel.{Channel};
ghost use Rattle.peer_connections.specs.Allowed.{lasts_at};
ghost use Rattle.journal.specs.Stored.{told_at};
ghost use Rattle.peer_connections.specs.Sending.{HasSeen, HasStopped, KeepsChanges};
ghost use Rattle.peer_connections.specs.Streams.{HearsStream, SendsStream};

use crate::allowance::Allowance;
use crate::calls::{read_ignored, read_with_room, write_once};
use crate::change_watch::ChangeWatch;
use crate::held_back::after;
use crate::peer_stream::PeerSocket;
use crate::session_over::{AllSent, SessionOver};
use crate::sizes::{FIRST_HOLD_MILLISECONDS, HOLD_MILLISECONDS};
use connection_calls::{CALLS_A_TURN, Call};
use journal::{Disk, DiskFault, StoredStation};
use stamps::Stamp;
use std::io::{Read, Write};
use std::time::Instant;

/// A connection over this stream, and how far its session has come.
#[derive(Drop)]
pub(crate) struct Link<S> {
    pub(crate) stream: S,
    /// The time of the round in which the peer came, where the clock told it.
    pub(crate) since: Option<Stamp>,
    /// When the peer came.
    pub(crate) came_at: Instant,
    /// When octets came last.
    pub(crate) heard_at: Instant,
    /// When the peer last took octets.
    pub(crate) taken_at: Instant,
    /// Since its session has ended: when the peer last took octets.
    pub(crate) closing_since: Option<Instant>,
    /// Reading stopped before the peer had no more.
    pub(crate) is_unread: bool,
    /// How much of the session may be read.
    allowance: Allowance,
    /// It isn't read from until then, since no more of the session may be read yet.
    pub(crate) held_until: Option<Instant>,
    /// It takes no octets for now.
    pub(crate) is_full: bool,
    /// Its turn was over before it was sent all that its peer may be told.
    pub(crate) is_unsent: bool,
    /// The peer was told that nothing more will come.
    is_shut: bool,
    /// What the peer may still do.
    pub(crate) channel: Channel,
}

/// What a peer can still do.
#[derive(Clone, Copy, Debug, PartialEq, Eq)]
pub(crate) enum Channel {
    /// Send and take.
    Open,
    /// Take alone: it sends no more.
    HalfClosed,
    /// Nothing: the connection failed.
    Failed,
}

impl<S> Link<S> {
    /// The connection of a peer that has just come, in a round of this time, and makes so many rows
    /// a second at most.
    pub(crate) fn new(stream: S, rows_a_second: u64, since: Option<Stamp>, now: Instant) -> Link<S>
        ensures { result.stream ≡ stream }
    {
        Link {
            stream,
            since,
            came_at: now,
            heard_at: now,
            taken_at: now,
            closing_since: None,
            is_unread: false,
            allowance: Allowance::new(rows_a_second, now),
            held_until: None,
            is_full: false,
            is_unsent: false,
            is_shut: false,
            channel: Channel::Open,
        }
    }

    /// The peer has taken octets.
    fn note_taken(&mut self, now: Instant)
        ensures { self.new.stream ≡ self.old.stream }
    {
        self.taken_at = now;
        if self.closing_since.is_some() {
            self.closing_since = Some(now);
        }
    }

    /// Has the connection failed?
    pub(crate) fn has_failed(&self) -> bool
        ensures failed { result ≡ true → self.now.channel ≡ Channel.Failed }
        ensures works { result ≡ false → self.now.channel ≢ Channel.Failed }
    {
        match self.channel {
            Channel::Failed => true,
            Channel::Open | Channel::HalfClosed => false,
        }
    }

    /// Since when nothing has come from the peer, and it has taken nothing.
    pub(crate) fn still_since(&self) -> Instant {
        if self.taken_at > self.heard_at {
            self.taken_at
        } else {
            self.heard_at
        }
    }
}

impl<S: Read> Link<S> {
    /// Reads from the peer, and has the station hear it: until there is no more for now, the peer
    /// isn't read from, or its turn is over. With `to_wait` it reads on behind a short read, too,
    /// until the connection waits: the peer sends no more, or has sent urgent data, ahead of which
    /// a read ends.
    /// Where no more of the session may be read yet, it is held back. Where the station's book
    /// can't be given room for a read, nothing more is read.
    #[tactic(auto, using(crate::proofs::Streaming::heard_none))]
    pub(crate) fn hear<D: Disk>(
        &mut self,
        stored: &mut StoredStation<D>,
        changes: &mut ChangeWatch,
        key: usize,
        piece: &mut [u8],
        to_wait: bool,
        now: Instant,
    ) -> Result<(), DiskFault>
        requires size { length piece.old ≡ HEARD_OCTETS }
        requires seen { HasSeen changes.old.rows_seen stored.old.station.book }
        requires fed { HasSeen changes.old.rows_fed stored.old.station.book }
        ensures stream { HearsStream key (S.remaining self.old.stream)
            (S.remaining self.new.stream) stored.old stored.new }
        ensures seen { HasSeen changes.new.rows_seen stored.new.station.book }
        ensures fed { HasSeen changes.new.rows_fed stored.new.station.book }
        ensures noted { KeepsChanges changes.old changes.new stored.new.station.book }
    {
        self.is_unread = true;
        for _ in 0..CALLS_A_TURN {
            if !stored.is_read(key) {
                return Ok(());
            }
            let size = self.allowance.grant(piece.len(), now);
            if size == 0 {
                self.held_until = Some(end_of_hold(stored.node(key).is_some(), now));
                return Ok(());
            }
            let part = &mut piece[..size];
            match read_with_room(&mut self.stream, stored, changes, key, part)? {
                Call::Passed(n) => {
                    self.heard_at = now;
                    self.allowance.spend(n);
                    if n < size && !to_wait {
                        self.is_unread = false;
                        return Ok(());
                    }
                }
                Call::Interrupted => {}
                Call::Waits => {
                    self.is_unread = false;
                    return Ok(());
                }
                Call::Ended => {
                    self.channel = Channel::HalfClosed;
                    return Ok(());
                }
                Call::Failed => {
                    self.channel = Channel::Failed;
                    return Ok(());
                }
            }
        }
        Ok(())
    }

    /// Reads what a peer sends whose session has ended, and has nobody hear it: until there is no
    /// more for now, or its turn is over.
    pub(crate) fn ignore<D: Disk>(
        &mut self,
        stored: &StoredStation<D>,
        key: usize,
        piece: &mut [u8],
    )
        requires ended { lasts_at stored.now.station key ≡ false }
    {
        let over = SessionOver::of(stored, key);
        self.is_unread = true;
        for _ in 0..CALLS_A_TURN {
            match read_ignored(&mut self.stream, piece, over) {
                Call::Passed(_) | Call::Interrupted => {}
                Call::Waits => {
                    self.is_unread = false;
                    return;
                }
                Call::Ended => {
                    self.is_unread = false;
                    self.channel = Channel::HalfClosed;
                    return;
                }
                Call::Failed => {
                    self.channel = Channel::Failed;
                    return;
                }
            }
        }
    }
}

impl<S: Write> Link<S> {
    /// Sends what the peer may be told, as far as its connection takes it for now: until nothing
    /// more may be told, it takes none, it failed, or its turn is over.
    #[tactic(auto, using(crate::proofs::Streaming::sent_none))]
    pub(crate) fn send<D: Disk>(&mut self, stored: &mut StoredStation<D>, key: usize, now: Instant)
        ensures stream { SendsStream key (S.contents self.old.stream) (S.contents self.new.stream)
            stored.old stored.new }
        ensures rest { (told_at stored.new key ≡ []) ⊎ HasStopped self.new }
        ensures journal { stored.new.journal ≡ stored.old.journal }
    {
        self.is_unsent = false;
        for _ in 0..CALLS_A_TURN {
            if stored.told_octets(key).is_empty() {
                return;
            }
            match write_once(&mut self.stream, stored, key) {
                Call::Passed(_) => self.note_taken(now),
                Call::Interrupted => {}
                Call::Waits => {
                    self.is_full = true;
                    return;
                }
                Call::Ended | Call::Failed => {
                    self.channel = Channel::Failed;
                    return;
                }
            }
        }
        self.is_unsent = true;
    }
}

impl<S: PeerSocket> Link<S> {
    /// Tells the peer, once, that nothing more will come: its session has ended, and it was sent
    /// all.
    pub(crate) fn shut<D: Disk>(&mut self, stored: &StoredStation<D>, key: usize)
        requires ended { lasts_at stored.now.station key ≡ false }
        requires sent { owed_at stored.now.station key ≡ [] }
        ensures stream { self.new.stream ≡ self.old.stream }
        ensures full { self.new.is_full ≡ self.old.is_full }
        ensures unsent { self.new.is_unsent ≡ self.old.is_unsent }
        ensures channel { self.new.channel ≡ self.old.channel }
    {
        let sent = AllSent::of(stored, key);
        if !self.is_shut {
            self.is_shut = true;
            self.stream.shut(sent);
        }
    }
}

/// When a session is read on that is held back now, and has brought a message, or none.
fn end_of_hold(has_spoken: bool, now: Instant) -> Instant {
    let milliseconds = if has_spoken {
        HOLD_MILLISECONDS
    } else {
        FIRST_HOLD_MILLISECONDS
    };
    after(now, milliseconds)
}
