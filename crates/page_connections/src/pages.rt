//! The page's listener, and its connections.

ghost use Rattle.std.specs.Prelude.{◌≡◌, option_copied};
ghost use Rattle.site_book.specs.Unpaid.{unpaid_sales};
ghost use Rattle.page_connections.specs.Pages.{shown_of};

use crate::page_link::{PageLink, Progress};
use crate::sizes::{LINKS_A_TURN, PAGE_CONNECTIONS, TURN_MILLISECONDS};
use connection_calls::{ACCEPTS_A_TURN, Caller, accept, both_ways};
use mio::net::{TcpListener, TcpStream};
use mio::{Registry, Token};
use row_tally::RowTally;
use site_base::NoMemory;
use site_book::{NamedSale, SiteBook};
use site_json::PeerSession;
use site_metrics::StationCounts;
use site_page::Page;
use stamps::Stamp;
use std::alloc::Global;
use std::hash::RandomState;
use std::time::{Duration, Instant};

/// The page's listener, and its connections by their places. They are lent the book, and can't
/// change it.
#[derive(Drop)]
pub struct Pages {
    alloc: Global,
    keys: RandomState,
    listener: TcpListener,
    links: Vec<Option<PageLink>>,
    /// The key of the connection at place 0; the others' follow.
    first_key: usize,
    /// Connections may wait to be accepted.
    has_callers: bool,
    /// A connection is ready, and waits for its turn.
    is_due: bool,
    /// When connections had their turns last.
    turned_at: Option<Instant>,
    /// The place whose turn is the first one the next time.
    next_place: usize,
}

impl Pages {
    /// Returns a page without connections. Their keys begin with this one.
    pub fn new(
        alloc: Global,
        keys: RandomState,
        listener: TcpListener,
        first_key: usize,
    ) -> Result<Pages, NoMemory> {
        let mut links = Vec::with_capacity(alloc, PAGE_CONNECTIONS)?;
        for _ in 0..PAGE_CONNECTIONS {
            links.push(None)?;
        }
        Ok(Pages {
            alloc,
            keys,
            listener,
            links,
            first_key,
            has_callers: false,
            is_due: false,
            turned_at: None,
            next_place: 0,
        })
    }

    /// Closes the listener, and each connection that is left.
    pub fn close(self) {}

    /// What the connection at this place is reported under.
    fn token_of(&self, place: usize) -> Token {
        Token(self.first_key.saturating_add(place))
    }

    /// Is there a connection that may be late, or one that waits to be accepted?
    pub fn is_busy(&self) -> bool {
        self.has_callers || self.links.iter().any(|link| link.is_some())
    }

    /// Notes that connections may wait to be accepted.
    pub fn note_callers(&mut self) {
        self.has_callers = true;
    }

    /// Notes that the connection of this key is ready.
    pub fn make_due(&mut self, key: usize) {
        if let Some(place) = key.checked_sub(self.first_key) {
            if let Some(Some(link)) = self.links.get_mut(place) {
                link.is_due = true;
                self.is_due = true;
            }
        }
    }

    /// Accepts the connections that wait. Returns whether connections have turns in this round.
    pub fn accept_waiting(&mut self, registry: &Registry, now: Instant) -> bool {
        if self.has_callers {
            self.accept_all(registry, now);
        }
        self.time_left(now) == Some(Duration::from_secs(0))
    }

    /// Returns how long it is until connections have turns, if one is ready.
    pub fn time_left(&self, now: Instant) -> Option<Duration> {
        if !self.is_due {
            return None;
        }
        let pause = Duration::from_millis(TURN_MILLISECONDS);
        match self.turned_at {
            Some(turned_at) => Some(pause.saturating_sub(now.duration_since(turned_at))),
            None => Some(Duration::from_secs(0)),
        }
    }

    /// Gives a turn to up to 8 of the connections that are ready, with the page of the book.
    /// `unpaid` are the unpaid transactions of the book, `counts` is what the station counts,
    /// `sessions` are the sessions of its peers, `at` is the current time. Of the history, `opened`
    /// is the time of the open shift's first row, `seal` the last seal, `tally` the tally of its
    /// rows. `name` is the name of the site, if it has one.
    pub fn answer_due(
        &mut self,
        registry: &Registry,
        book: &SiteBook,
        unpaid: &[NamedSale],
        counts: StationCounts,
        sessions: &[PeerSession],
        at: Option<Stamp>,
        opened: Option<Stamp>,
        seal: Option<&str>,
        tally: Option<&RowTally>,
        name: Option<&str>,
        now: Instant,
    )
        requires { unpaid.now ≡ unpaid_sales book.now }
    {
        self.is_due = false;
        self.turned_at = Some(now);
        let page = page_of(
            self.alloc, book, unpaid, counts, sessions, at, opened, seal, tally, name,
        );
        self.take_turns(registry, &page, now);
    }

    /// The connections that are ready have their turns with this page, one after another from where
    /// the last ones ended: as many as may have one at once.
    fn take_turns(&mut self, registry: &Registry, page: &Page<'_>, now: Instant) {
        let mut left = LINKS_A_TURN;
        for place in (self.next_place..self.links.len()).chain(0..self.next_place) {
            if !self.is_due_at(place) {
                continue;
            }
            if left == 0 {
                self.is_due = true;
                self.next_place = place;
                return;
            }
            left -= 1;
            self.take_turn(registry, page, place, now);
        }
    }

    /// Does the connection at this place wait for its turn?
    fn is_due_at(&self, place: usize) -> bool {
        match self.links.get(place) {
            Some(Some(link)) => link.is_due,
            _ => false,
        }
    }

    /// The connection at this place has its turn. Where that is over before it waits for its peer,
    /// it is reported once more.
    fn take_turn(&mut self, registry: &Registry, page: &Page<'_>, place: usize, now: Instant) {
        let token = self.token_of(place);
        let Some(Some(link)) = self.links.get_mut(place) else {
            return;
        };
        link.is_due = false;
        match link.take_turn(page, now) {
            Ok(Progress::Waits) => {}
            Ok(Progress::GoesOn | Progress::Answered) => {
                let _ = registry.reregister(&mut link.stream, token, both_ways());
            }
            Ok(Progress::Over) | Err(NoMemory) => self.close_at(place),
        }
    }

    /// Closes the connections that are ready, because memory has run out.
    pub fn close_due(&mut self) {
        self.is_due = false;
        for slot in &mut self.links {
            if slot.as_ref().is_some_and(|link| link.is_due) {
                close(slot);
            }
        }
    }

    /// Closes the connection at this place.
    fn close_at(&mut self, place: usize) {
        if let Some(slot) = self.links.get_mut(place) {
            close(slot);
        }
    }

    /// Closes the connections whose peers have taken too long.
    pub fn close_late(&mut self, now: Instant) {
        for slot in &mut self.links {
            if slot.as_ref().is_some_and(|link| link.is_late(now)) {
                close(slot);
            }
        }
    }

    /// Accepts the connections that wait; where that fails it is tried again.
    fn accept_all(&mut self, registry: &Registry, now: Instant) {
        for _ in 0..ACCEPTS_A_TURN {
            match accept(&self.listener) {
                Caller::Came(stream) => self.welcome(registry, stream, now),
                Caller::Gone => {}
                Caller::None => {
                    self.has_callers = false;
                    return;
                }
                Caller::Failed(_) => {
                    self.has_callers = true;
                    return;
                }
            }
        }
    }

    /// A peer has come. Where 64 are there, or memory is wanting, its connection is closed.
    fn welcome(&mut self, registry: &Registry, mut stream: TcpStream, now: Instant) {
        let Some(place) = self.links.iter().position(|link| link.is_none()) else {
            return;
        };
        let _ = stream.set_nodelay(true);
        let is_watched = registry
            .register(&mut stream, self.token_of(place), both_ways())
            .is_ok();
        if !is_watched || place >= self.links.len() {
            return;
        }
        if let Ok(link) = PageLink::new(self.alloc, self.keys, stream, now) {
            self.links[place] = Some(link);
            self.is_due = true;
        }
    }
}

/// The page of a book at this time, with these unpaid transactions, what the station counts, these
/// sessions, this time of the open shift's first row, this last seal, this tally of its rows and
/// this name of the site.
fn page_of<'a>(
    alloc: Global,
    book: &'a SiteBook,
    unpaid: &'a [NamedSale],
    counts: StationCounts,
    sessions: &'a [PeerSession],
    at: Option<Stamp>,
    opened: Option<Stamp>,
    seal: Option<&'a str>,
    tally: Option<&'a RowTally>,
    name: Option<&'a str>,
) -> Page<'a>
    requires { unpaid.now ≡ unpaid_sales book.now }
    ensures { result ≡ shown_of book.now counts sessions.now at opened
        (option_copied seal.entry) (option_copied tally.entry) (option_copied name.entry) }
{
    Page::new(
        alloc, book, unpaid, counts, sessions, at, opened, seal, tally, name,
    )
}

/// Closes a connection, if there is one.
fn close(slot: &mut Option<PageLink>) {
    let _ = slot.take();
}
