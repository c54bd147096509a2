//! The connections of the page and of the feed, which are served after the round.

ghost use Rattle.std.specs.Prelude.{◌≡◌, IfSome, true};
ghost use Rattle.feed_connections.specs.Served.{AreServed};
ghost use Rattle.journal.specs.Stored.{is_all_stored};

use crate::listeners::{FEED_DOOR, FEED_LISTENER, PAGE_LISTENER};
use crate::round_clock::sooner;
use crate::server::StationServer;
use crate::sessions::{count_all, list_sessions};
use feed_connections::Feeds;
use journal::Disk;
use mio::Token;
use mio::event::Event;
use page_connections::Pages;
use peer_connections::{Connections, PeerStream};
use std::time::{Clock, Duration};

impl StationServer {
    /// The connections of the page that are ready have their turn. Each row is stored: so it tells
    /// of no other.
    pub(crate) fn serve_page<R: Clock, D: Disk>(
        &mut self,
        rt: &R,
        connections: &mut Connections<D, PeerStream>,
    )
        requires { is_all_stored connections.old.stored ≡ true }
        ensures station { connections.new.stored.station ≡ connections.old.stored.station }
        ensures journal { connections.new.stored.journal ≡ connections.old.stored.journal }
    {
        let Some(pages) = &mut self.pages else {
            return;
        };
        let registry = self.poll.registry();
        if pages.accept_waiting(registry, self.rounds.waited()) {
            let sessions = list_sessions(self.alloc, connections, self.rounds.waited());
            let unpaid = connections.read_unpaid();
            match (unpaid, sessions, connections.stored_book()) {
                (Ok(()), Ok(sessions), Some(book)) => pages.answer_due(
                    registry,
                    book,
                    connections.unpaid(),
                    count_all(connections, &self.feeds, &self.rounds, self.stores),
                    &sessions,
                    self.clock.read(self.alloc, rt),
                    connections.open_since(),
                    connections.last_seal(),
                    connections.tally(),
                    name_text(&self.page_name),
                    self.rounds.waited(),
                ),
                _ => pages.close_due(),
            }
        }
        pages.close_late(self.rounds.waited());
    }

    /// The connections of the feed that are ready, or wait for rows that are new, have their turn.
    /// Each row is stored: they are sent those that were read then, and no others. Where memory was
    /// wanting for these there is no feed any more, which is said.
    pub(crate) fn serve_feed<R: Eprint, D: Disk>(
        &mut self,
        rt: &R,
        connections: &Connections<D, PeerStream>,
    )
        requires { is_all_stored connections.now.stored ≡ true }
        ensures { IfSome self.old.feeds (λ old. IfSome self.new.feeds
            (λ new. IfSome connections.now.changes.fed
            (λ fed. AreServed fed.rows old.places.items new.places.items))) }
    {
        let Some(feeds) = &mut self.feeds else {
            return;
        };
        let now = self.rounds.waited();
        match connections.fed_rows() {
            Some(fed) => feeds.serve(self.poll.registry(), fed.rows(), fed.starts(), now),
            None => {
                self.feeds = None;
                let _ = eprintln!(rt;
                    "the feed has ended: out of memory; the next start begins it again"
                );
            }
        }
    }

    /// No further round comes: the feed's peers are fed what is left.
    pub(crate) fn note_last_round(&mut self) {
        if let Some(feeds) = &mut self.feeds {
            feeds.note_last_round();
        }
    }

    /// How long it is until the connections of the page that are ready have their turn, or the
    /// feed's peers are fed, if there are some.
    pub(crate) fn onlookers_left<D: Disk>(
        &self,
        connections: &Connections<D, PeerStream>,
    ) -> Option<Duration> {
        let now = self.rounds.waited();
        let page_left = self.pages.as_ref().and_then(|pages| pages.time_left(now));
        sooner(page_left, self.feed_left(connections))
    }

    /// How long new rows wait still until the feed's peers are fed them, if there are some.
    fn feed_left<D: Disk>(&self, connections: &Connections<D, PeerStream>) -> Option<Duration> {
        let feeds = self.feeds.as_ref()?;
        let fed = connections.fed_rows()?;
        feeds.time_left(fed.rows(), self.rounds.waited())
    }
}

/// Who looks at the page is ready, or waits to be accepted.
pub(crate) fn note_page(pages: &mut Option<Pages>, token: Token) {
    match (pages, token) {
        (None, _) => {}
        (Some(pages), PAGE_LISTENER) => pages.note_callers(),
        (Some(pages), Token(key)) => pages.make_due(key),
    }
}

/// A peer of the feed is ready, waits to be accepted, or takes no more.
pub(crate) fn note_feed(feeds: &mut Option<Feeds>, event: &Event) {
    match (feeds, event.token()) {
        (None, _) => {}
        (Some(feeds), FEED_LISTENER) => feeds.note_callers(),
        (Some(feeds), FEED_DOOR) => feeds.note_callers(),
        (Some(feeds), Token(key)) if event.is_write_closed() => feeds.leave(key),
        (Some(feeds), Token(key)) => feeds.make_due(key),
    }
}

/// A name's text, if there is one.
fn name_text(name: &Option<String>) -> Option<&str> {
    match name {
        Some(name) => Some(name.as_str()),
        None => None,
    }
}
