//! A place of the feed: a peer's link, or nothing.

ghost use Rattle.std.specs.Prelude.{◌≡◌, true};
ghost use Rattle.feed_connections.specs.Served.{IsServed, feed_of};
ghost use Rattle.feed_connections.specs.Turns.{Turns};

use crate::feed_link::FeedLink;
use crate::feed_stream::FeedStream;
use crate::progress::Progress;
use mio::Registry;
use row_feed::ChapterStarts;
use row_json::LastRows;
use site_base::NoMemory;
use std::time::Instant;

/// A peer's link, and whether it has a turn in this round.
#[derive(Drop)]
pub struct FeedPlace {
    link: FeedLink<FeedStream>,
    is_due: bool,
}

impl FeedPlace {
    /// The place of a peer that has just come with this link.
    pub(crate) fn new(link: FeedLink<FeedStream>) -> FeedPlace
        ensures { result.link ≡ link }
    {
        FeedPlace { link, is_due: true }
    }

    /// Its peer may have sent something, or may take something.
    pub(crate) fn make_due(&mut self)
        ensures { self.new.link ≡ self.old.link }
    {
        self.link.note_ready();
        self.is_due = true;
    }

    /// There are new rows. If its peer waits for rows it has a turn; it says whether it has one.
    fn note_rows(&mut self) -> bool
        ensures { self.new.link ≡ self.old.link }
    {
        if self.link.waits_for_rows() {
            self.is_due = true;
        }
        self.is_due
    }

    /// Has its turn, if it is due. Where that is over before it waits for its peer, it is reported
    /// once more. It says whether it stays.
    fn take_turn(
        &mut self,
        registry: &Registry,
        key: usize,
        rows: &LastRows,
        starts: &ChapterStarts,
        now: Instant,
    ) -> bool
        ensures { result ≡ true → Turns rows.now self.old.link self.new.link }
    {
        if !self.is_due {
            return true;
        }
        self.is_due = false;
        match self.link.take_turn(rows, starts, now) {
            Ok(Progress::Waits) => true,
            Ok(Progress::GoesOn) => {
                self.link.watch_again(registry, key);
                true
            }
            Ok(Progress::Over) | Err(NoMemory) => false,
        }
    }

    /// Time has passed: it is told which row is next, if it has waited for rows for too long, and
    /// has a turn then. It says whether it stays: a peer that was waited for too long doesn't.
    fn pass_time(&mut self, rows: &LastRows, now: Instant) -> bool
        ensures { result ≡ true → Turns rows.now self.old.link self.new.link }
    {
        let has_waited = self.link.waits_for_rows();
        if self.link.is_late(now) || self.link.keep_alive(rows, now).is_err() {
            return false;
        }
        if has_waited && !self.link.waits_for_rows() {
            self.is_due = true;
        }
        true
    }
}

/// The peer at a place has its turn, if there is one that is due, and leaves where it is to be
/// closed.
pub(crate) fn take_turn(
    slot: &mut Option<FeedPlace>,
    registry: &Registry,
    key: usize,
    rows: &LastRows,
    starts: &ChapterStarts,
    now: Instant,
)
    ensures { IsServed rows.now (feed_of slot.old) (feed_of slot.new) }
{
    if let Some(place) = slot {
        if !place.take_turn(registry, key, rows, starts, now) {
            *slot = None;
        }
    }
}

/// Time has passed for the peer at a place, if there is one: it leaves where it was waited for too
/// long. It says whether it has a turn.
pub(crate) fn pass_time(slot: &mut Option<FeedPlace>, rows: &LastRows, now: Instant) -> bool
    ensures { IsServed rows.now (feed_of slot.old) (feed_of slot.new) }
{
    if let Some(place) = slot {
        if place.pass_time(rows, now) {
            return place.is_due;
        }
        *slot = None;
    }
    false
}

/// There are new rows for the peer at a place, if there is one. It says whether it has a turn.
pub(crate) fn note_rows(slot: &mut Option<FeedPlace>) -> bool
    ensures { feed_of slot.new ≡ feed_of slot.old }
{
    match slot {
        None => false,
        Some(place) => place.note_rows(),
    }
}
