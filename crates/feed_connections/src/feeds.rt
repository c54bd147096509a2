//! The feed's listeners, and the links of its peers.

ghost use Rattle.std.specs.Prelude.{◌≡◌};
ghost use Rattle.feed_connections.specs.Served.{AreServed, HaveCome};

use crate::feed_link::FeedLink;
use crate::feed_place::{FeedPlace, note_rows, pass_time, take_turn};
use crate::feed_stream::{FeedListener, FeedStream};
use crate::sizes::{FEED_MILLISECONDS, FEED_SWEEP_SECONDS, FEEDS};
use connection_calls::{ACCEPTS_A_TURN, Caller};
use mio::Registry;
use mio::net::{TcpListener, UnixListener};
use row_feed::ChapterStarts;
use row_json::LastRows;
use site_base::NoMemory;
use std::alloc::Global;
use std::time::{Duration, Instant};

/// A listener, and whether connections may wait there to be accepted.
#[derive(Drop)]
struct Entrance {
    listener: FeedListener,
    has_callers: bool,
}

/// The feed's listeners, over TCP and at its door, and the links of its peers by their places.
#[derive(Drop)]
pub struct Feeds {
    alloc: Global,
    entrances: Vec<Entrance>,
    places: Vec<Option<FeedPlace>>,
    /// The key of the link at place 0; the others' follow.
    first_key: usize,
    /// A link has a turn in this round.
    is_due: bool,
    /// This row was the next one when those that are fed were last told of rows.
    told: u64,
    /// Before then they are told of no others.
    waits_until: Instant,
    /// No further round comes: rows don't wait for others.
    is_last: bool,
    /// When it was last looked who is late, and who is to hear that the feed is alive.
    swept_at: Instant,
}

impl Feeds {
    /// Returns a feed without links and listeners. The keys of its links begin with this one.
    pub fn new(alloc: Global, first_key: usize, now: Instant) -> Result<Feeds, NoMemory> {
        let mut places = Vec::with_capacity(alloc, FEEDS)?;
        for _ in 0..FEEDS {
            places.push(None)?;
        }
        Ok(Feeds {
            alloc,
            entrances: Vec::new(alloc),
            places,
            first_key,
            is_due: false,
            told: 0,
            waits_until: now,
            is_last: false,
            swept_at: now,
        })
    }

    /// Closes the listeners, and each link that is left.
    pub fn close(self) {}

    /// Accepts peers over TCP too.
    pub fn listen(&mut self, listener: TcpListener) -> Result<(), NoMemory> {
        self.add_entrance(FeedListener::Tcp(listener))
    }

    /// Accepts peers at the feed's door too.
    pub fn listen_at_door(&mut self, listener: UnixListener) -> Result<(), NoMemory> {
        self.add_entrance(FeedListener::Unix(listener))
    }

    fn add_entrance(&mut self, listener: FeedListener) -> Result<(), NoMemory> {
        self.entrances.push(Entrance {
            listener,
            has_callers: true,
        })?;
        Ok(())
    }

    /// Is there a peer that may be late, or one that waits to be accepted?
    pub fn is_busy(&self) -> bool {
        self.have_callers() || self.places.iter().any(|place| place.is_some())
    }

    /// Returns the number of peers.
    pub fn count(&self) -> usize {
        self.places.iter().filter(|place| place.is_some()).count()
    }

    /// Returns how long it is until new rows are fed, if there are new rows and a peer.
    pub fn time_left(&self, rows: &LastRows, now: Instant) -> Option<Duration> {
        if self.told == rows.next() || self.places.iter().all(|place| place.is_none()) {
            return None;
        }
        Some(self.waits_until.duration_since(now))
    }

    /// Notes that no further round comes: the next call of `serve` feeds rows at once.
    pub fn note_last_round(&mut self) {
        self.is_last = true;
    }

    /// May connections wait to be accepted?
    fn have_callers(&self) -> bool {
        self.entrances.iter().any(|entrance| entrance.has_callers)
    }

    /// Notes that connections may wait to be accepted.
    pub fn note_callers(&mut self) {
        for entrance in &mut self.entrances {
            entrance.has_callers = true;
        }
    }

    /// Notes that the link of this key, if it is one, is ready.
    pub fn make_due(&mut self, key: usize) {
        let Some(number) = key.checked_sub(self.first_key) else {
            return;
        };
        if let Some(Some(place)) = self.places.get_mut(number) {
            place.make_due();
            self.is_due = true;
        }
    }

    /// Drops the peer of this key, if there is one, because it takes no more.
    pub fn leave(&mut self, key: usize) {
        let Some(number) = key.checked_sub(self.first_key) else {
            return;
        };
        if let Some(slot) = self.places.get_mut(number) {
            *slot = None;
        }
    }

    /// Gives a turn with these last rows to each link that is ready, or that waits for rows when
    /// there are new ones: for new rows at most every 50 milliseconds, whatever their number. Then
    /// accepts the connections that wait. Once a second it closes peers that are late, and tells
    /// each peer that has waited ten seconds for a row which row is next.
    #[tactic(auto, using(crate::proofs::Serving::serving))]
    pub fn serve(
        &mut self,
        registry: &Registry,
        rows: &LastRows,
        starts: &ChapterStarts,
        now: Instant,
    )
        ensures { AreServed rows.now self.old.places.items self.new.places.items }
    {
        self.sweep_if_due(rows, now);
        self.note_rows(rows, now);
        self.serve_due(registry, rows, starts, now);
        self.accept_waiting(registry, now);
        self.serve_due(registry, rows, starts, now);
    }

    /// If there are new rows, and they have waited long enough for others, whoever waits for them
    /// is due: so a peer has a turn for many rows, and not for each one.
    #[tactic(auto, using(crate::proofs::Serving::serving))]
    fn note_rows(&mut self, rows: &LastRows, now: Instant)
        ensures { AreServed rows.now self.old.places.items self.new.places.items }
    {
        if self.told == rows.next() || now < self.waits_until && !self.is_last {
            return;
        }
        self.told = rows.next();
        self.waits_until = now
            .checked_add(Duration::from_millis(FEED_MILLISECONDS))
            .unwrap_or(now);
        for number in 0..self.places.len() {
            self.note_rows_at(rows, number);
        }
    }

    /// There are new rows for whoever is at this place.
    #[tactic(auto, using(crate::proofs::Serving::serving))]
    fn note_rows_at(&mut self, rows: &LastRows, number: usize)
        ensures { AreServed rows.now self.old.places.items self.new.places.items }
    {
        let _ = rows;
        if let Some(slot) = self.places.get_mut(number) {
            if note_rows(slot) {
                self.is_due = true;
            }
        }
    }

    /// Each link that is due has its turn.
    #[tactic(auto, using(crate::proofs::Serving::serving))]
    fn serve_due(
        &mut self,
        registry: &Registry,
        rows: &LastRows,
        starts: &ChapterStarts,
        now: Instant,
    )
        ensures { AreServed rows.now self.old.places.items self.new.places.items }
    {
        if !self.is_due {
            return;
        }
        self.is_due = false;
        for number in 0..self.places.len() {
            self.serve_at(registry, rows, starts, number, now);
        }
    }

    /// Whoever is at this place has a turn, if it is due.
    #[tactic(auto, using(crate::proofs::Serving::serving))]
    fn serve_at(
        &mut self,
        registry: &Registry,
        rows: &LastRows,
        starts: &ChapterStarts,
        number: usize,
        now: Instant,
    )
        ensures { AreServed rows.now self.old.places.items self.new.places.items }
    {
        let key = self.key_of(number);
        if let Some(slot) = self.places.get_mut(number) {
            take_turn(slot, registry, key, rows, starts, now);
        }
    }

    /// Once a second time passes for each link.
    #[tactic(auto, using(crate::proofs::Serving::serving))]
    fn sweep_if_due(&mut self, rows: &LastRows, now: Instant)
        ensures { AreServed rows.now self.old.places.items self.new.places.items }
    {
        if now.duration_since(self.swept_at).as_secs() < FEED_SWEEP_SECONDS {
            return;
        }
        self.swept_at = now;
        for number in 0..self.places.len() {
            self.sweep_at(rows, number, now);
        }
    }

    /// Time has passed for whoever is at this place.
    #[tactic(auto, using(crate::proofs::Serving::serving))]
    fn sweep_at(&mut self, rows: &LastRows, number: usize, now: Instant)
        ensures { AreServed rows.now self.old.places.items self.new.places.items }
    {
        if let Some(slot) = self.places.get_mut(number) {
            if pass_time(slot, rows, now) {
                self.is_due = true;
            }
        }
    }

    /// What the link at this place is reported under.
    fn key_of(&self, number: usize) -> usize {
        self.first_key.saturating_add(number)
    }

    /// Accepts the connections that wait; where that fails it is tried again.
    #[tactic(auto, using(crate::proofs::Serving::serving))]
    fn accept_waiting(&mut self, registry: &Registry, now: Instant)
        ensures { HaveCome self.old.places.items self.new.places.items }
    {
        for entrance in 0..self.entrances.len() {
            self.accept_at(registry, entrance, now);
        }
    }

    /// Accepts the connections that wait at this entrance.
    #[tactic(auto, using(crate::proofs::Serving::serving))]
    fn accept_at(&mut self, registry: &Registry, entrance: usize, now: Instant)
        ensures { HaveCome self.old.places.items self.new.places.items }
    {
        for _ in 0..ACCEPTS_A_TURN {
            match self.accept_one(entrance) {
                Caller::Came(stream) => self.welcome(registry, stream, now),
                Caller::Gone => {}
                Caller::None | Caller::Failed(_) => return,
            }
        }
    }

    /// Accepts one connection that waits at this entrance. Where none does, none is looked for
    /// until one is reported.
    fn accept_one(&mut self, entrance: usize) -> Caller<FeedStream>
        ensures { self.new.places ≡ self.old.places }
    {
        let Some(entrance) = self.entrances.get_mut(entrance) else {
            return Caller::None;
        };
        if !entrance.has_callers {
            return Caller::None;
        }
        let caller = entrance.listener.accept();
        match &caller {
            Caller::None => entrance.has_callers = false,
            _ => {}
        }
        caller
    }

    /// A peer has come. Where 64 are there its connection is closed.
    #[tactic(auto, using(crate::proofs::Serving::serving))]
    fn welcome(&mut self, registry: &Registry, stream: FeedStream, now: Instant)
        ensures { HaveCome self.old.places.items self.new.places.items }
    {
        let Some(number) = self.places.iter().position(|place| place.is_none()) else {
            return;
        };
        let mut link = FeedLink::new(self.alloc, stream, now);
        if !link.watch(registry, self.key_of(number)) {
            return;
        }
        if let Some(slot) = self.places.get_mut(number) {
            *slot = Some(FeedPlace::new(link));
            self.is_due = true;
        }
    }
}
