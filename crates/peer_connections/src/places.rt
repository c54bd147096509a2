//! The places of peers. A new peer gets a place. If all places are taken, a peer that waits without
//! a whole message is dropped for it.

ghost use Rattle.std.specs.Prelude.{◌≡◌, ◌<◌, ◌≤◌, ◌⊎◌, IfOk, IfSome, None, OnErr, Some, false, ℕ};
ghost use Rattle.std.specs.Prelude.{is_some, true};
ghost use Rattle.peer_connections.specs.Allowed.{IsArrival, IsSameOrLeft, is_place_of};
ghost use Rattle.peer_connections.specs.Allowed.{is_served_at};
ghost use Rattle.peer_connections.specs.Coming.{Dismisses, IsOver, IsTurnedAway, Welcomes};
ghost use Rattle.peer_connections.specs.Links.{ArePaired, AwaitsLink, ComesTo, OthersStay};
ghost use Rattle.peer_connections.specs.Links.{StaysOrGoes};
ghost use Rattle.peer_connections.specs.Reaches.{ReachesBy};

use crate::connections::Connections;
use crate::link::Link;
use crate::nodes::is_of_a_site;
use crate::peer_stream::PeerSocket;
use journal::{Disk, StoredStation};
use mio::Registry;
use site_base::NoMemory;
use station::{FREE_PLACES, NODE_SESSIONS};
use std::time::Instant;

impl<D: Disk, S: PeerSocket> Connections<D, S> {
    /// Gives a place to a peer that has come over TCP. If there is no place, or memory runs out,
    /// its connection is closed.
    #[tactic(auto, using(crate::proofs::Reaching::welcomed, crate::proofs::Coming::coming))]
    pub fn welcome<E: Eprint>(&mut self, registry: &Registry, rt: &E, stream: S, now: Instant)
        ensures comes { Welcomes S.remaining S.contents None stream self.old.links.items
            self.new.links.items self.old.stored self.new.stored }
        ensures changes { self.new.changes ≡ self.old.changes }
    {
        self.settle_or_say(registry, rt, None, stream, now);
    }

    /// Does the same as `welcome` for a peer that has come at the door of this place among the
    /// doors.
    #[tactic(auto, using(crate::proofs::Reaching::welcomed, crate::proofs::Coming::coming))]
    pub fn welcome_at<E: Eprint>(
        &mut self,
        registry: &Registry,
        rt: &E,
        door: usize,
        stream: S,
        now: Instant,
    )
        ensures comes { Welcomes S.remaining S.contents (Some door) stream self.old.links.items
            self.new.links.items self.old.stored self.new.stored }
        ensures changes { self.new.changes ≡ self.old.changes }
    {
        self.settle_or_say(registry, rt, Some(door), stream, now);
    }

    /// A peer that has come at this door, or over TCP, gets a place. That there is none is said.
    #[tactic(auto, using(crate::proofs::Reaching::welcomed, crate::proofs::Coming::coming))]
    fn settle_or_say<E: Eprint>(
        &mut self,
        registry: &Registry,
        rt: &E,
        door: Option<usize>,
        stream: S,
        now: Instant,
    )
        ensures comes { Welcomes S.remaining S.contents door stream self.old.links.items
            self.new.links.items self.old.stored self.new.stored }
        ensures changes { self.new.changes ≡ self.old.changes }
    {
        match self.settle(registry, door, stream, now) {
            Arrival::Done => {}
            Arrival::NoPlace(_) => {
                let _ = eprintln!(rt;
                    "a connection was closed: all places are taken; ss -tnp, at a door ss -xnp, \
                     lists who has them"
                );
            }
            Arrival::NoMemory(_) => {
                let _ = eprintln!(rt; "a connection was closed: fault 31: out of memory");
            }
        }
    }

    /// A peer that has come at this door, or over TCP, gets a place. Where all of these are taken,
    /// the peer of one leaves that has waited longest without a whole message: so those that say
    /// nothing keep nobody out. Where memory is wanting at a door, such a peer over TCP leaves: so
    /// those keep nobody from a door.
    #[tactic(auto, using(crate::proofs::Reaching::welcomed, crate::proofs::Coming::coming))]
    fn settle(
        &mut self,
        registry: &Registry,
        door: Option<usize>,
        stream: S,
        now: Instant,
    ) -> Arrival<S>
        ensures comes { Welcomes S.remaining S.contents door stream self.old.links.items
            self.new.links.items self.old.stored self.new.stored }
        ensures changes { self.new.changes ≡ self.old.changes }
    {
        match self.arrive(registry, door, stream, now) {
            Arrival::NoPlace(stream) => {
                if self.dismiss_longest_waiting(door) {
                    self.arrive(registry, door, stream, now)
                } else {
                    Arrival::NoPlace(stream)
                }
            }
            Arrival::NoMemory(stream) if door.is_some() => {
                if self.make_way() {
                    self.arrive(registry, door, stream, now)
                } else {
                    Arrival::NoMemory(stream)
                }
            }
            arrival => arrival,
        }
    }

    /// A peer arrives at this door, or over TCP, and has this connection from then on.
    #[tactic(auto, using(crate::proofs::Reaching::welcomed, crate::proofs::Pairing::paired, crate::proofs::Coming::coming))]
    fn arrive(
        &mut self,
        registry: &Registry,
        door: Option<usize>,
        stream: S,
        now: Instant,
    ) -> Arrival<S>
        ensures comes { Welcomes S.remaining S.contents door stream self.old.links.items
            self.new.links.items self.old.stored self.new.stored }
        ensures changes { self.new.changes ≡ self.old.changes }
        ensures away { IsTurnedAway stream result self.old.links.items self.new.links.items }
    {
        match arrive_in(&mut self.stored, door) {
            Ok(None) => Arrival::NoPlace(stream),
            Err(NoMemory) => Arrival::NoMemory(stream),
            Ok(Some(key)) => {
                let link = Link::new(stream, self.rows_a_second, self.round_time, now);
                if set_link(&mut self.stored, &mut self.links, registry, key, link) {
                    self.may_wait = true;
                }
                Arrival::Done
            }
        }
    }

    /// Drops the TCP peer that has waited longest without a whole message. For when a connection
    /// can't be accepted, for example because no descriptor is left. Returns false if no peer waits
    /// so.
    #[tactic(auto, using(crate::proofs::Reaching::welcomed, crate::proofs::Coming::coming))]
    pub fn make_way(&mut self) -> bool
        ensures gone { Dismisses None self.old.links.items self.new.links.items self.old.stored
            self.new.stored }
        ensures changes { self.new.changes ≡ self.old.changes }
    {
        self.dismiss_longest_waiting(None)
    }

    /// The peer leaves that has waited longest without a whole message, of those of this door, or
    /// of TCP. False where none waits so.
    #[tactic(auto, using(crate::proofs::Reaching::welcomed, crate::proofs::Coming::coming))]
    fn dismiss_longest_waiting(&mut self, door: Option<usize>) -> bool
        ensures gone { Dismisses door self.old.links.items self.new.links.items self.old.stored
            self.new.stored }
        ensures changes { self.new.changes ≡ self.old.changes }
    {
        match self.find_longest_waiting(door) {
            Some(key) => {
                self.remove(key);
                true
            }
            None => false,
        }
    }

    /// The peer that has waited longest without a whole message, of those of this door, or of TCP.
    fn find_longest_waiting(&self, door: Option<usize>) -> Option<usize>
        ensures place { IfSome result (λ key. is_place_of door key ≡ true) }
        ensures unserved { IfSome result (λ key.
            is_served_at self.now.stored.station key ≡ false) }
    {
        let (first, last) = place_keys(door);
        let mut longest: Option<(usize, Waiting)> = None;
        for key in first..last {
            if let Some(waiting) = self.look_for_message(key) {
                let is_longer = match &longest {
                    None => true,
                    Some((_, other)) => waiting.leaves_before(other),
                };
                if is_longer {
                    longest = Some((key, waiting));
                }
            }
        }
        let (key, _) = longest?;
        Some(key)
    }

    /// Since when a peer waits without a whole message, if it does: since it came, and one whose
    /// session has ended since then, or since it last took octets. A message of a node that no site
    /// has counts for nothing, and what such a peer sends behind it keeps it no place.
    pub(crate) fn look_for_message(&self, key: usize) -> Option<Waiting>
        ensures { is_some result ≡ true → is_served_at self.now.stored.station key ≡ false }
    {
        let Some(Some(link)) = self.links.get(key) else {
            return None;
        };
        if self.stored.end(key).is_some() {
            return Some(Waiting {
                since: link.closing_since.unwrap_or(link.came_at),
                is_unread: false,
            });
        }
        match self.stored.node(key) {
            Some(node) if is_of_a_site(node) => None,
            heard => Some(Waiting {
                since: link.came_at,
                is_unread: link.is_unread && heard.is_none(),
            }),
        }
    }
}

/// What became of a peer that has come.
#[derive(Drop)]
enum Arrival<S> {
    /// It has a place; or it has left it, since the system doesn't report its connection.
    Done,
    /// It has none, since all are taken: its connection.
    NoPlace(S),
    /// It has none, since memory is wanting: its connection.
    NoMemory(S),
}

/// A peer arrives in the station at this door, or over TCP. The key of its place, if it gets one:
/// it has no connection yet.
#[tactic(auto, using(crate::proofs::Reaching::welcomed, crate::proofs::Pairing::arrived))]
fn arrive_in<D: Disk>(
    stored: &mut StoredStation<D>,
    door: Option<usize>,
) -> Result<Option<usize>, NoMemory>
    ensures moves { ReachesBy (IsArrival door) stored.old stored.new }
    ensures unserved { IfOk result (λ found. IfSome found (λ key.
        is_served_at stored.new.station key ≡ false)) }
    ensures place { IfOk result (λ found. IfSome found (λ key. is_place_of door key ≡ true)) }
    ensures came { IfOk result (λ found.
        ComesTo found stored.old.station.peers stored.new.station.peers) }
    ensures book { stored.new.station.book ≡ stored.old.station.book }
    ensures err { OnErr result (stored.new.station ≡ stored.old.station) }
{
    match door {
        None => arrive_over_tcp(stored),
        Some(place) => arrive_at(stored, place),
    }
}

/// A peer arrives in the station over TCP.
#[tactic(auto, using(crate::proofs::Reaching::welcomed, crate::proofs::Pairing::arrived))]
fn arrive_over_tcp<D: Disk>(stored: &mut StoredStation<D>) -> Result<Option<usize>, NoMemory>
    ensures moves { ReachesBy (IsArrival None) stored.old stored.new }
    ensures unserved { IfOk result (λ found. IfSome found (λ key.
        is_served_at stored.new.station key ≡ false)) }
    ensures place { IfOk result (λ found. IfSome found (λ key. is_place_of None key ≡ true)) }
    ensures came { IfOk result (λ found.
        ComesTo found stored.old.station.peers stored.new.station.peers) }
    ensures book { stored.new.station.book ≡ stored.old.station.book }
    ensures err { OnErr result (stored.new.station ≡ stored.old.station) }
{
    match stored.arrive() {
        Ok(key) => Ok(key),
        Err(NoMemory) => Err(NoMemory),
    }
}

/// A peer arrives in the station at the door of this place among the doors.
#[tactic(auto, using(crate::proofs::Reaching::welcomed, crate::proofs::Pairing::arrived))]
fn arrive_at<D: Disk>(
    stored: &mut StoredStation<D>,
    place: usize,
) -> Result<Option<usize>, NoMemory>
    ensures moves { ReachesBy (IsArrival (Some place)) stored.old stored.new }
    ensures unserved { IfOk result (λ found. IfSome found (λ key.
        is_served_at stored.new.station key ≡ false)) }
    ensures place { IfOk result (λ found. IfSome found (λ key.
        is_place_of (Some place) key ≡ true)) }
    ensures came { IfOk result (λ found.
        ComesTo found stored.old.station.peers stored.new.station.peers) }
    ensures book { stored.new.station.book ≡ stored.old.station.book }
    ensures err { OnErr result (stored.new.station ≡ stored.old.station) }
{
    match stored.arrive_at(place) {
        Ok(key) => Ok(key),
        Err(NoMemory) => Err(NoMemory),
    }
}

/// The peer that has come to this place has this connection. Where the system doesn't report it,
/// the peer leaves: then false.
#[tactic(auto, using(crate::proofs::Pairing::linked, crate::proofs::Coming::coming))]
fn set_link<D: Disk, S: PeerSocket>(
    stored: &mut StoredStation<D>,
    links: &mut Vec<Option<Link<S>>>,
    registry: &Registry,
    key: usize,
    link: Link<S>,
) -> bool
    requires awaits { AwaitsLink key links.old.items stored.old.station.peers }
    ensures left { IsSameOrLeft key stored.old stored.new }
    ensures others { OthersStay key links.old.items links.new.items }
    ensures came { (StaysOrGoes links.old.items links.new.items key)
        ⊎ (IsOver S.remaining S.contents link.stream links.new.items key) }
    ensures paired { ArePaired links.new.items stored.new.station.peers }
{
    let mut link = link;
    link.stream.send_at_once();
    let is_watched = link.stream.watch(registry, key).is_ok();
    if is_watched && key < links.len() {
        links[key] = Some(link);
        return true;
    }
    stored.leave(key);
    false
}

/// How long a peer has waited without a whole message.
#[derive(Clone, Copy, Debug, PartialEq, Eq)]
pub(crate) struct Waiting {
    since: Instant,
    /// The station hasn't read yet all that the peer sent, and a first message may be in it.
    is_unread: bool,
}

impl Waiting {
    /// Does this peer leave before the other one? The one does that has waited longer, but first
    /// those of which all was read that they sent.
    fn leaves_before(&self, other: &Waiting) -> bool {
        if self.is_unread == other.is_unread {
            self.since < other.since
        } else {
            other.is_unread
        }
    }
}

/// The keys of the places of this door, or over TCP: the first, and the first that isn't one.
fn place_keys(door: Option<usize>) -> (usize, usize)
    ensures { (k : ℕ) → result.0 ≤ k → k < result.1 → is_place_of door k ≡ true }
{
    match door {
        None => (0, FREE_PLACES),
        Some(place) => {
            let first = place
                .saturating_mul(NODE_SESSIONS)
                .saturating_add(FREE_PLACES);
            (first, first.saturating_add(NODE_SESSIONS))
        }
    }
}
