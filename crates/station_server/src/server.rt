//! The server, which waits until connections are ready, round after round.

ghost use Rattle.std.specs.Prelude.{◌≡◌, ◌<◌, OnOk, length, true};
ghost use Rattle.station.specs.declared.sizes.TheConstants.{PEERS};
ghost use Rattle.station.specs.Reads.{HasNoPeer};
ghost use Rattle.journal.specs.Stored.{JournalGoesOn, is_all_stored};
ghost use Rattle.peer_connections.specs.Allowed.{IsFollowing, IsHeard, IsHearing};
ghost use Rattle.peer_connections.specs.Due.{StayDue, is_due};
ghost use Rattle.peer_connections.specs.Reaches.{Reaches, ReachesBy};
ghost use Rattle.peer_connections.specs.Sending.{AreSentTo, FullAreDue, HasChange, KeepsChanges};
ghost use Rattle.peer_connections.specs.Sending.{OwedAreDue, OwedAreSentTo};

use crate::doors::Doors;
use crate::fault::ServerFault;
use crate::listeners::{
    LISTENER, WAKER, add_feed_door, add_feed_port, listen_for_page, listen_for_peers,
};
use crate::onlookers::{note_feed, note_page};
use crate::round_clock::{RoundClock, sooner};
use crate::sizes::{EVENTS_A_ROUND, ROUNDS_BEFORE_A_SWEEP, SWEEP_SECONDS};
use feed_connections::Feeds;
use journal::{Disk, DiskFault};
use mio::event::Event;
use mio::net::TcpListener;
use mio::{Events, Poll, Token, Waker};
use page_connections::Pages;
use peer_connections::{Connections, PeerStream};
use site_base::NoMemory;
use site_metrics::StoreTimes;
use stamps::StampClock;
use station::PEERS;
use std::alloc::Global;
use std::net::Net;
use std::random::RandomSource;
use std::sync::Wait;
use std::time::{Clock, Duration, Instant};

/// The key of the feed's first connection. Those of the page are below.
const FIRST_FEED: usize = PEERS + 1_024;

/// The listeners on 127.0.0.1, of the doors, of the page and of the feed, as far as there are any,
/// and what waits for their connections.
#[derive(Drop)]
pub struct StationServer {
    pub(crate) alloc: Global,
    pub(crate) poll: Poll,
    pub(crate) events: Events,
    pub(crate) listener: Option<TcpListener>,
    pub(crate) port: Option<u16>,
    pub(crate) doors: Doors,
    pub(crate) pages: Option<Pages>,
    pub(crate) page_port: Option<u16>,
    /// The name of the site that the page shows, if it has one.
    pub(crate) page_name: Option<String>,
    pub(crate) feeds: Option<Feeds>,
    pub(crate) feed_port: Option<u16>,
    /// Connections may wait over TCP to be accepted.
    pub(crate) has_callers: bool,
    /// The last round accepted as many over TCP as it may, so others may wait.
    pub(crate) has_more_callers: bool,
    /// Accepting failed: it is tried again at the next sweep.
    pub(crate) is_refused: bool,
    /// A connection was accepted since others were heard: it is heard before a peer leaves for
    /// another one.
    pub(crate) has_accepted: bool,
    /// Others may wait behind those that were accepted: the next round reports them.
    pub(crate) may_have_more: bool,
    /// It was told that accepting failed, and since then not all that waited were accepted.
    pub(crate) has_told: bool,
    /// The day's end has come.
    pub(crate) has_ended: bool,
    pub(crate) swept_at: Instant,
    /// It is time to sweep since so many rounds.
    pub(crate) due_rounds: usize,
    /// In this round it is swept.
    pub(crate) is_sweep_due: bool,
    /// How long rows took to be stored.
    pub(crate) stores: StoreTimes,
    pub(crate) rounds: RoundClock,
    pub(crate) clock: StampClock,
}

impl StationServer {
    /// Listens at these doors, and on this port of 127.0.0.1, if one is given. Port 0 means a free
    /// one. `Deaf` if it can't listen on that port.
    pub fn bind<N: Net, C: Clock>(
        net: &N,
        clock: &C,
        alloc: Global,
        port: Option<u16>,
        doors: Doors,
    ) -> Result<StationServer, ServerFault> {
        let events = match Events::with_capacity(alloc, EVENTS_A_ROUND) {
            Ok(events) => events,
            Err(_) => return Err(ServerFault::NoMemory),
        };
        listen(net, clock, alloc, events, port, doors)
    }

    /// Listens for browsers too, on this port of 127.0.0.1. Port 0 means a free one. The page shows
    /// this name of the site, if one is given. `Deaf` if it can't listen there.
    pub fn bind_page<N: Net, R: RandomSource>(
        &mut self,
        net: &N,
        rt: &R,
        port: u16,
        name: Option<&str>,
    ) -> Result<(), ServerFault> {
        self.page_name = copy_name(self.alloc, name)?;
        let (listener, port, keys) = listen_for_page(net, rt, &self.poll, port)?;
        let pages = Pages::new(self.alloc, keys, listener, PEERS)?;
        if let Some(earlier) = self.pages.replace(pages) {
            earlier.close();
        }
        self.page_port = Some(port);
        Ok(())
    }

    /// Listens for peers of the feed too: on this port of 127.0.0.1, if one is given, and at the
    /// feed's door, if there is one. Port 0 means a free one. `Deaf` if it can't listen on that
    /// port, `NoConnection` if it can't at the door.
    pub fn bind_feed<N: Net>(&mut self, net: &N, port: Option<u16>) -> Result<(), ServerFault> {
        let mut feeds = Feeds::new(self.alloc, FIRST_FEED, self.swept_at)?;
        let port = add_feed_port(net, &self.poll, port, &mut feeds)?;
        add_feed_door(&self.poll, self.doors.take_feed(), &mut feeds)?;
        if let Some(earlier) = self.feeds.replace(feeds) {
            earlier.close();
        }
        self.feed_port = port;
        Ok(())
    }

    /// Stops listening.
    pub fn close(self) {}

    /// Returns the port on which it listens, if it has one.
    pub fn port(&self) -> Option<u16>
        ensures { result ≡ self.now.port }
    {
        self.port
    }

    /// Returns the port of the page, if there is one.
    pub fn page_port(&self) -> Option<u16>
        ensures { result ≡ self.now.page_port }
    {
        self.page_port
    }

    /// Returns the port of the feed, if it has one.
    pub fn feed_port(&self) -> Option<u16>
        ensures { result ≡ self.now.feed_port }
    {
        self.feed_port
    }

    /// Returns what ends the day from another thread.
    pub fn waker(&self) -> Result<Waker, ServerFault> {
        Waker::new(self.poll.registry(), WAKER).map_err(|_| ServerFault::NoConnection)
    }

    /// Serves connections until the day's end. A session that sends nothing for `idle` seconds is
    /// ended. At the day's end each session ends, and its pending output is sent as far as its
    /// connection takes it. No peer is left.
    ///
    /// If waiting for connections fails, it ends in the same way, with `NoConnection`. If the
    /// journal takes no more, it ends with `NotStored`: the sessions end too, but nothing more is
    /// sent.
    #[tactic(auto, using(crate::proofs::Rounds::moved))]
    pub fn serve<T: Wait, R: Clock + Eprint, D: Disk>(
        &mut self,
        threads: &T,
        rt: &R,
        connections: &mut Connections<D, PeerStream>,
        idle: Option<u64>,
    ) -> Result<(), ServerFault>
        ensures moves { Reaches connections.old.stored connections.new.stored }
        ensures left { HasNoPeer connections.new.stored.station }
        ensures stored { OnOk result (is_all_stored connections.new.stored ≡ true) }
    {
        let served = self.serve_rounds(threads, rt, connections, idle);
        let ended = connections.end_all(rt, self.rounds.waited());
        if ended.is_ok() {
            self.note_last_round();
            self.serve_feed(rt, connections);
        }
        served?;
        ended?;
        Ok(())
    }

    /// Serves connections until the day's end. No release of the day before stands then, if there
    /// is a house till.
    #[tactic(auto, using(crate::proofs::Rounds::moved))]
    fn serve_rounds<T: Wait, R: Clock + Eprint, D: Disk>(
        &mut self,
        threads: &T,
        rt: &R,
        connections: &mut Connections<D, PeerStream>,
        idle: Option<u64>,
    ) -> Result<(), ServerFault>
        ensures { Reaches connections.old.stored connections.new.stored }
    {
        connections.end_releases()?;
        for _ in threads.forever() {
            let timeout = self.poll_timeout(connections, idle);
            self.hear_round(rt, connections, timeout)?;
            self.note_round();
            if self.has_ended {
                return Ok(());
            }
            self.send_all(rt, connections, idle)?;
            self.serve_page(rt, connections);
            self.serve_feed(rt, connections);
            self.accept_waiting(rt, connections);
        }
        Ok(())
    }

    /// Waits until connections are ready, but no longer than this, and each of them has its turn. A
    /// row that a dispenser is told of is noted, or still looked at.
    #[tactic(auto, using(crate::proofs::Rounds::moved, crate::proofs::Rounds::heard))]
    fn hear_round<R: Clock + Eprint, D: Disk>(
        &mut self,
        rt: &R,
        connections: &mut Connections<D, PeerStream>,
        timeout: Option<Duration>,
    ) -> Result<(), ServerFault>
        ensures moves { ReachesBy IsHeard connections.old.stored connections.new.stored }
        ensures due { StayDue connections.old.due connections.new.due }
        ensures noted { KeepsChanges connections.old.changes connections.new.changes
            connections.new.stored.station.book }
    {
        match self.poll.poll(&mut self.events, timeout) {
            Ok(()) => {
                self.has_accepted = false;
                self.may_have_more = false;
                self.rounds.begin_round(rt);
                let clock = self.clock.read(self.alloc, rt);
                connections.begin_round(rt, clock, self.rounds.now());
                self.take_turns(connections)
            }
            Err(_) => Err(ServerFault::NoConnection),
        }
    }

    /// A round was heard. Once it is time to sweep, those who are ready are asked for without a
    /// wait, round after round, and answered: peers are left that were waited for too long, so first
    /// of all whoever is ready has its turn. It is swept where nobody is ready, or when everybody
    /// has had a turn.
    fn note_round(&mut self) {
        let passed = self.rounds.waited().duration_since(self.swept_at);
        let is_time = passed.as_secs() >= SWEEP_SECONDS;
        let is_last = self.events.is_empty() || self.due_rounds >= ROUNDS_BEFORE_A_SWEEP;
        self.is_sweep_due = is_time && self.due_rounds > 0 && is_last;
        self.due_rounds = if is_time && !self.is_sweep_due {
            self.due_rounds.saturating_add(1)
        } else {
            0
        };
    }

    /// How long it waits for the next round: as long as it takes, until the next sweep, or until
    /// sessions that were held back are read on, or those who look on have a turn. While it is time
    /// to sweep it doesn't wait.
    fn poll_timeout<D: Disk>(
        &self,
        connections: &Connections<D, PeerStream>,
        idle: Option<u64>,
    ) -> Option<Duration> {
        if self.due_rounds > 0 {
            return Some(Duration::from_secs(0));
        }
        let hold_left = connections.hold_left(self.rounds.waited());
        if let Some(left) = sooner(hold_left, self.onlookers_left(connections)) {
            return Some(left);
        }
        let is_page_busy = self.pages.as_ref().is_some_and(|pages| pages.is_busy());
        let is_feed_busy = self.feeds.as_ref().is_some_and(|feeds| feeds.is_busy());
        if self.is_refused
            || connections.may_wait()
            || connections.keeps_up()
            || idle.is_some()
            || is_page_busy
            || is_feed_busy
        {
            return Some(Duration::from_secs(SWEEP_SECONDS));
        }
        None
    }

    /// Each connection that is ready has its turn. One of the page has it behind those.
    #[tactic(auto, using(crate::proofs::Rounds::moved, crate::proofs::Rounds::heard))]
    fn take_turns<D: Disk>(
        &mut self,
        connections: &mut Connections<D, PeerStream>,
    ) -> Result<(), ServerFault>
        ensures moves { ReachesBy IsHeard connections.old.stored connections.new.stored }
        ensures due { StayDue connections.old.due connections.new.due }
        ensures noted { KeepsChanges connections.old.changes connections.new.changes
            connections.new.stored.station.book }
    {
        for event in &self.events {
            match event.token() {
                WAKER => self.has_ended = true,
                LISTENER => self.has_callers = true,
                Token(key) if key < PEERS => take_turn(
                    connections,
                    event,
                    key,
                    self.rounds.waited(),
                )?,
                token => {
                    if !self.doors.note_callers(token) {
                        note_page(&mut self.pages, token);
                        note_feed(&mut self.feeds, event);
                    }
                }
            }
        }
        Ok(())
    }

    /// Stores the round's rows and sends what is owed, and each second does what waits for time to
    /// pass. Then each row is stored.
    #[tactic(auto, using(crate::proofs::Rounds::moved))]
    fn send_all<R: Clock + Eprint, D: Disk>(
        &mut self,
        rt: &R,
        connections: &mut Connections<D, PeerStream>,
        idle: Option<u64>,
    ) -> Result<(), ServerFault>
        ensures moves { Reaches connections.old.stored connections.new.stored }
        ensures stored { OnOk result (is_all_stored connections.new.stored ≡ true) }
    {
        self.store_rows(rt, connections)?;
        self.send_noted(rt, connections)?;
        self.sweep_if_due(rt, connections, idle)?;
        connections.read_on(self.poll.registry(), self.rounds.waited());
        Ok(())
    }

    /// Stores the round's rows, if there are some, and notes how long that takes.
    #[tactic(auto, using(crate::proofs::Rounds::moved, crate::proofs::Rounds::heard))]
    fn store_rows<R: Clock, D: Disk>(
        &mut self,
        rt: &R,
        connections: &mut Connections<D, PeerStream>,
    ) -> Result<(), ServerFault>
        ensures station { connections.new.stored.station ≡ connections.old.stored.station }
        ensures journal { JournalGoesOn connections.old.stored.journal
            connections.new.stored.journal }
        ensures links { connections.new.links ≡ connections.old.links }
        ensures due { connections.new.due ≡ connections.old.due }
        ensures noted { KeepsChanges connections.old.changes connections.new.changes
            connections.new.stored.station.book }
    {
        if connections.stored_book().is_some() {
            return Ok(());
        }
        let began = Instant::now(rt);
        connections.store()?;
        if let (Ok(began), Ok(ended)) = (began, Instant::now(rt)) {
            self.stores
                .note(count_microseconds(ended.duration_since(began)));
        }
        Ok(())
    }

    /// Stores the round's rows, and sends those that are due what they are owed. Where a dispenser
    /// is told of a row of this round, each peer that is owed octets is sent them.
    #[tactic(auto, using(crate::proofs::Rounds::moved, crate::proofs::Rounds::heard))]
    fn send_noted<R: Eprint, D: Disk>(
        &mut self,
        rt: &R,
        connections: &mut Connections<D, PeerStream>,
    ) -> Result<(), ServerFault>
        ensures moves { ReachesBy IsFollowing connections.old.stored connections.new.stored }
        ensures stored { OnOk result (is_all_stored connections.new.stored ≡ true) }
        ensures due { OnOk result (length connections.new.stored.station.book.rows
            ≡ length connections.old.stored.station.book.rows
            → AreSentTo connections.old.due connections.new.stored connections.new.links.items) }
        ensures owed { OnOk result (length connections.new.stored.station.book.rows
            ≡ length connections.old.stored.station.book.rows
            → HasChange connections.old.changes connections.old.stored.station.book
            → OwedAreSentTo connections.old.stored.station connections.old.links.items
            connections.new.stored connections.new.links.items) }
    {
        self.note_due(connections);
        connections.send_due(self.poll.registry(), rt, self.rounds.waited())?;
        Ok(())
    }

    /// Where a dispenser is told of a row of this round, whoever is owed octets is due, but for
    /// those whose connections take none for now; before a sweep those are, too.
    #[tactic(auto, using(crate::proofs::Rounds::moved, crate::proofs::Rounds::heard))]
    fn note_due<D: Disk>(&self, connections: &mut Connections<D, PeerStream>)
        ensures stored { connections.new.stored ≡ connections.old.stored }
        ensures links { connections.new.links ≡ connections.old.links }
        ensures due { StayDue connections.old.due connections.new.due }
        ensures owed { HasChange connections.old.changes connections.old.stored.station.book
            → OwedAreDue connections.new.stored.station connections.new.links.items
            connections.new.due }
        ensures full { self.now.is_sweep_due ≡ true
            → FullAreDue connections.new.links.items connections.new.due }
    {
        connections.make_owed_due();
        if self.is_sweep_due {
            connections.make_full_due();
        }
    }

    /// Sweeps, where it is time to.
    #[tactic(auto, using(crate::proofs::Rounds::moved))]
    fn sweep_if_due<R: Clock + Eprint, D: Disk>(
        &mut self,
        rt: &R,
        connections: &mut Connections<D, PeerStream>,
        idle: Option<u64>,
    ) -> Result<(), ServerFault>
        requires { is_all_stored connections.old.stored ≡ true }
        ensures moves { Reaches connections.old.stored connections.new.stored }
        ensures stored { OnOk result (is_all_stored connections.new.stored ≡ true) }
    {
        if !self.is_sweep_due {
            return Ok(());
        }
        self.is_sweep_due = false;
        self.swept_at = self.rounds.waited();
        self.accept_again(rt, connections);
        connections.sweep(rt, idle, self.rounds.waited())?;
        self.store_rows(rt, connections)?;
        self.send_noted(rt, connections)
    }
}

/// A connection that is ready has its turn, and is due then. Where the station's book can't be
/// given room for what it sent, that ends the day.
#[tactic(auto, using(crate::proofs::Rounds::moved, crate::proofs::Rounds::heard))]
fn take_turn<D: Disk>(
    connections: &mut Connections<D, PeerStream>,
    event: &Event,
    key: usize,
    now: Instant,
) -> Result<(), DiskFault>
    requires { key < PEERS }
    ensures moves { ReachesBy (IsHearing key) connections.old.stored connections.new.stored }
    ensures due { StayDue connections.old.due connections.new.due }
    ensures noted { KeepsChanges connections.old.changes connections.new.changes
        connections.new.stored.station.book }
    ensures now { OnOk result (is_due connections.new.due key ≡ true) }
{
    if event.is_writable() {
        connections.unblock(key);
    }
    let to_wait = event.is_read_closed() || event.is_priority();
    if event.is_readable() || event.is_error() || to_wait || connections.is_unread(key) {
        connections.hear(key, to_wait, now)?;
    }
    connections.make_due(key);
    Ok(())
}

/// A server whose listeners are watched.
fn listen<N: Net, C: Clock>(
    net: &N,
    clock: &C,
    alloc: Global,
    events: Events,
    port: Option<u16>,
    doors: Doors,
) -> Result<StationServer, ServerFault> {
    let mut doors = doors;
    let poll = Poll::new(net)?;
    let (listener, port) = listen_for_peers(net, &poll, port)?;
    doors.watch(&poll)?;
    let now = Instant::now(clock)?;
    Ok(StationServer {
        alloc,
        poll,
        events,
        listener,
        port,
        doors,
        pages: None,
        page_port: None,
        page_name: None,
        feeds: None,
        feed_port: None,
        has_callers: false,
        has_more_callers: false,
        is_refused: false,
        has_accepted: false,
        may_have_more: false,
        has_told: false,
        has_ended: false,
        swept_at: now,
        due_rounds: 0,
        is_sweep_due: false,
        stores: StoreTimes::new(),
        rounds: RoundClock::new(now),
        clock: StampClock::new(),
    })
}

/// A name of its own, if there is one.
fn copy_name(alloc: Global, name: Option<&str>) -> Result<Option<String>, NoMemory> {
    match name {
        Some(name) => Ok(Some(String::from_str(alloc, name)?)),
        None => Ok(None),
    }
}

/// So many microseconds, as far as 64 bits count them.
fn count_microseconds(time: Duration) -> u64 {
    time.as_secs()
        .saturating_mul(1_000_000)
        .saturating_add(u64::from(time.subsec_micros()))
}
