//! The connection of a feed's peer.

ghost use Rattle.std.specs.Prelude.{◌≡◌, OnOk};
ghost use Rattle.row_feed.specs.Feeds.{new_feed};
ghost use Rattle.feed_connections.specs.Turns.{Turns};

use crate::calls::{hear_once, send_once};
use crate::feed_stream::FeedStream;
use crate::progress::Progress;
use crate::sizes::{ALIVE_SECONDS, ASKING_SECONDS, HEARD_OCTETS, TAKING_SECONDS};
use connection_calls::{CALLS_A_TURN, Call};
use mio::Registry;
use row_feed::{ChapterStarts, Feed, Stage};
use row_json::LastRows;
use site_base::NoMemory;
use std::alloc::Global;
use std::io::{Read, Write};
use std::marker::Model;
use std::time::Instant;

/// The connection of a peer that is fed rows. Contracts see its feed. Close it after `NoMemory`.
#[derive(Drop)]
pub struct FeedLink<S: Read + Write + Drop> {
    stream: S,
    feed: Feed,
    /// When the peer took something last, or came.
    taken_at: Instant,
    /// When something was made for it last, or it came.
    made_at: Instant,
    /// What the peer has sent so far was read.
    is_quiet: bool,
}

impl<S: Read + Write + Drop> Model for FeedLink<S> {
    ghost use Rattle.row_feed.specs.Feeds.{FeedState};

    ghost Value = { FeedState };

    ghost view = { λ l. l.feed };
}

impl<S: Read + Write + Drop> FeedLink<S> {
    /// Returns the connection of a peer that has just come. It takes no memory.
    pub fn new(alloc: Global, stream: S, now: Instant) -> FeedLink<S>
        ensures { result ≡ new_feed }
    {
        FeedLink {
            stream,
            feed: Feed::new(alloc),
            taken_at: now,
            made_at: now,
            is_quiet: false,
        }
    }

    /// Notes that the peer may have sent something.
    pub fn note_ready(&mut self)
        ensures { self.new ≡ self.old }
    {
        self.is_quiet = false;
    }

    /// Is the peer fed, and has it taken all that was made for it? Then it gets the next row.
    pub fn waits_for_rows(&self) -> bool {
        match self.feed.stage() {
            Stage::Follows(_) => self.feed.pending().is_empty(),
            _ => false,
        }
    }

    /// Has the peer taken too long: to send its first line, to take pending output, or to hang up
    /// after its feed ended?
    pub fn is_late(&self, now: Instant) -> bool {
        let waited = now.duration_since(self.taken_at).as_secs();
        match self.feed.stage() {
            Stage::Asks => waited >= ASKING_SECONDS,
            Stage::Follows(_) => !self.feed.pending().is_empty() && waited >= TAKING_SECONDS,
            Stage::Over => waited >= TAKING_SECONDS,
        }
    }

    /// Tells a peer for which nothing was made for ten seconds which row is next, as soon as the
    /// peer can take that.
    #[tactic(auto, using(crate::proofs::Turning::turning))]
    pub fn keep_alive(&mut self, rows: &LastRows, now: Instant) -> Result<(), NoMemory>
        ensures { OnOk result (Turns rows.now self.old self.new) }
    {
        let _ = rows;
        if now.duration_since(self.made_at).as_secs() < ALIVE_SECONDS {
            return Ok(());
        }
        self.made_at = now;
        if self.waits_for_rows() {
            self.taken_at = now;
        }
        self.feed.say_alive()
    }

    /// Takes a turn: hears what the peer sends, and sends what is made for it, from these last rows
    /// and beginnings of chapters.
    pub fn take_turn(
        &mut self,
        rows: &LastRows,
        starts: &ChapterStarts,
        now: Instant,
    ) -> Result<Progress, NoMemory>
        ensures { OnOk result (Turns rows.now self.old self.new) }
    {
        for _ in 0..CALLS_A_TURN {
            match self.go_on(rows, starts, now)? {
                Progress::GoesOn => {}
                end => return Ok(end),
            }
        }
        Ok(Progress::GoesOn)
    }

    /// Takes one step.
    fn go_on(
        &mut self,
        rows: &LastRows,
        starts: &ChapterStarts,
        now: Instant,
    ) -> Result<Progress, NoMemory>
        ensures { OnOk result (Turns rows.now self.old self.new) }
    {
        if !self.feed.pending().is_empty() {
            return Ok(self.send(rows, now));
        }
        match self.feed.stage() {
            Stage::Asks => self.hear(rows),
            Stage::Follows(_) => self.make(rows, starts, now),
            Stage::Over => self.leave(rows),
        }
    }

    /// Sends once of what is pending.
    #[tactic(auto, using(crate::proofs::Turning::turning))]
    fn send(&mut self, rows: &LastRows, now: Instant) -> Progress
        ensures { Turns rows.now self.old self.new }
    {
        let _ = rows;
        let call = send_once(&mut self.stream, &mut self.feed);
        if let Call::Passed(_) = call {
            self.taken_at = now;
        }
        progress_after(call)
    }

    /// Hears once what the peer sends.
    fn hear(&mut self, rows: &LastRows) -> Result<Progress, NoMemory>
        ensures { OnOk result (Turns rows.now self.old self.new) }
    {
        Ok(progress_after(self.hear_call(rows)?))
    }

    /// .. and says what became of the call.
    #[tactic(auto, using(crate::proofs::Turning::turning))]
    fn hear_call(&mut self, rows: &LastRows) -> Result<Call, NoMemory>
        ensures { OnOk result (Turns rows.now self.old self.new) }
    {
        let mut piece = [0; HEARD_OCTETS];
        hear_once(&mut self.stream, &mut self.feed, rows.next(), &mut piece)
    }

    /// Makes lines for the peer. Where there is no row for it, what it still says is passed over.
    #[tactic(auto, using(crate::proofs::Turning::turning))]
    fn make(
        &mut self,
        rows: &LastRows,
        starts: &ChapterStarts,
        now: Instant,
    ) -> Result<Progress, NoMemory>
        ensures { OnOk result (Turns rows.now self.old self.new) }
    {
        self.feed.make(rows, starts)?;
        if !self.feed.pending().is_empty() {
            self.made_at = now;
            self.taken_at = now;
            return Ok(Progress::GoesOn);
        }
        if self.is_quiet {
            return Ok(Progress::Waits);
        }
        self.look(rows)
    }

    /// Hears once what the peer says behind its line, which is passed over. Where it sends no more
    /// it is fed on.
    #[tactic(auto, using(crate::proofs::Turning::turning))]
    fn look(&mut self, rows: &LastRows) -> Result<Progress, NoMemory>
        ensures { OnOk result (Turns rows.now self.old self.new) }
    {
        match self.hear_call(rows)? {
            Call::Waits | Call::Ended => {
                self.is_quiet = true;
                Ok(Progress::Waits)
            }
            call => Ok(progress_after(call)),
        }
    }

    /// Hears once what the peer of a feed that is over still says, which is passed over: a
    /// connection that is closed before that loses what was sent last.
    #[tactic(auto, using(crate::proofs::Turning::turning))]
    fn leave(&mut self, rows: &LastRows) -> Result<Progress, NoMemory>
        ensures { OnOk result (Turns rows.now self.old self.new) }
    {
        match self.hear(rows)? {
            Progress::GoesOn => Ok(Progress::GoesOn),
            _ => Ok(Progress::Over),
        }
    }
}

impl FeedLink<FeedStream> {
    /// It is reported under this key when it is ready. Says whether that can be.
    pub(crate) fn watch(&mut self, registry: &Registry, key: usize) -> bool
        ensures { self.new ≡ self.old }
    {
        self.stream.watch(registry, key).is_ok()
    }

    /// It is reported once more, if it is ready.
    pub(crate) fn watch_again(&mut self, registry: &Registry, key: usize)
        ensures { self.new ≡ self.old }
    {
        self.stream.watch_again(registry, key);
    }
}

/// How a connection goes on after a call.
fn progress_after(call: Call) -> Progress {
    match call {
        Call::Passed(_) | Call::Interrupted => Progress::GoesOn,
        Call::Waits => Progress::Waits,
        Call::Ended | Call::Failed => Progress::Over,
    }
}
