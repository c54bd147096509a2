//! The station: a book and its peers.

ghost use Rattle.std.specs.Prelude.{◌≡◌, ◌<◌, ℕ, [], length, IfNone, IfOk, IfSome, OnErr, OnOk};
ghost use Rattle.std.specs.Prelude.{◌≤◌, Bool, None, Some};
ghost use Rattle.site_book.specs.Unpaid.{GoesBy};
ghost use Rattle.station.specs.Gates.{count_at};
ghost use Rattle.station.specs.Moves.{end_release, is_released_at, lose, with_end, with_octets};
ghost use Rattle.station.specs.Moves.{with_book, with_own_row, with_release_ended, with_taken};
ghost use Rattle.station.specs.Moves.{without_old_rows, without_peer};
ghost use Rattle.station.specs.Peers.{peer_at};
ghost use Rattle.station.specs.Reads.{Arrives, ArrivesAmong, ArrivesAt, IsNextOwed, NoneIsOwed};
ghost use Rattle.station.specs.Reads.{end_at, is_read_at};
ghost use Rattle.station.specs.Reads.{node_at, owed_at, speaker_at};
ghost use Rattle.station.specs.Runs.{opening_station};
ghost use Rattle.station.specs.Sessions.{Grants, without_till};

use crate::asking::ask_among;
use crate::gates::{Gates, count_sessions};
use crate::hearing::{finish, hear, sign_off};
use crate::paper::Paper;
use crate::peer::Peer;
use crate::peer_end::PeerEnd;
use crate::sizes::{FREE_PLACES, NODE_SESSIONS, PEERS};
use crate::slots::Slots;
use app_message::Messages;
use site_base::{Actor, Event, FpNo, NoMemory, PointState, TillNo};
use site_book::{SiteBook, UnpaidSales};
use std::alloc::Global;
use std::marker::Model;

/// A book, and the sessions of all peers at it. A peer has a key from its arrival until it leaves.
///
/// The owner of the connections makes the moves: a peer arrives, its octets are heard, however they
/// are cut, its pending output is taken, its octets end, it leaves. The station itself acts too:
/// the house till ends a release, or a dispenser is lost. Each move is exact. If memory runs out at
/// a message, its request makes no row, or this one session ends, and no other.
#[derive(Drop)]
pub struct Station {
    alloc: Global,
    gates: Gates,
    book: SiteBook,
    slots: Slots,
    paper: Paper,
    messages: Messages,
}

impl Model for Station {
    ghost use Rattle.std.specs.Prelude.{◌≤◌, length};
    ghost use Rattle.station.specs.declared.sizes.TheConstants.{PEERS};
    ghost use Rattle.station.specs.Moves.{StationState};

    ghost Value = { StationState };

    ghost view = { λ s. record {
      gates = s.gates;
      book = s.book;
      peers = s.slots;
    } };

    ghost invariant = { λ s. length s.slots ≤ PEERS };
}

impl Station {
    /// Returns a station with these gates at this book, without peers. It takes no memory.
    pub fn new(alloc: Global, gates: Gates, book: SiteBook) -> Station
        ensures { result ≡ opening_station gates book }
    {
        Station {
            alloc,
            gates,
            book,
            slots: Slots::new(alloc),
            paper: Paper::new(alloc),
            messages: Messages::new(alloc),
        }
    }

    /// Sets who may speak where. Call it before the first peer arrives: sessions that have begun go
    /// on.
    pub fn set_gates(&mut self, gates: Gates)
        ensures { self.new ≡ record self.old { gates = gates } }
    {
        self.gates = gates;
    }

    /// Returns the doors and the house till.
    pub fn gates(&self) -> &Gates
        ensures { result.now ≡ self.now.gates }
    {
        &self.gates
    }

    /// Returns the book. By the station's type no peer has a key above 1,407.
    pub fn book(&self) -> &SiteBook
        ensures book { result.now ≡ self.now.book }
        ensures keys { (k : ℕ) → PEERS ≤ k → peer_at self.now.peers k ≡ None }
    {
        &self.book
    }

    /// Forgets the rows in memory, after `unpaid` has read what is unpaid among them. The book
    /// isn't full any more, and its site stays. After `NoMemory` none is forgotten.
    pub fn forget_rows(&mut self, unpaid: &mut UnpaidSales) -> Result<(), NoMemory>
        ensures forgets { OnOk result (self.new ≡ without_old_rows self.old) }
        ensures err { OnErr result (self.new ≡ self.old) }
        ensures unpaid { GoesBy unpaid.old self.old.book → GoesBy unpaid.new self.new.book }
    {
        unpaid.forget_rows(self.alloc, &mut self.book)
    }

    /// Adds a peer that came without a door. Returns its key, which is below 1,024 and which no
    /// other peer has; None if all of these are taken. Nothing changes then, or if memory runs out.
    pub fn arrive(&mut self) -> Result<Option<usize>, NoMemory>
        ensures ok { IfOk result (λ key. Arrives key self.old self.new) }
        ensures err { OnErr result (self.new ≡ self.old) }
    {
        self.arrive_among(0, FREE_PLACES, None)
    }

    /// Adds a peer at the door of this place among the doors. Returns one of the door's four keys;
    /// None if each has a peer, or there is no such door. Nothing changes then, or if memory runs
    /// out.
    pub fn arrive_at(&mut self, door: usize) -> Result<Option<usize>, NoMemory>
        ensures ok { IfOk result (λ key. ArrivesAt door key self.old self.new) }
        ensures err { OnErr result (self.new ≡ self.old) }
    {
        match self.gates.door(door) {
            None => Ok(None),
            Some(node) => {
                let first = FREE_PLACES + NODE_SESSIONS * door;
                self.arrive_among(first, first + NODE_SESSIONS, Some(node))
            }
        }
    }

    /// A peer arrives at this door, or at none, and gets one of these keys, if one is free.
    fn arrive_among(
        &mut self,
        first: usize,
        last: usize,
        door: Option<[u8; 2]>,
    ) -> Result<Option<usize>, NoMemory>
        requires { last ≤ PEERS }
        ensures ok { IfOk result (λ key. ArrivesAmong first last door key self.old self.new) }
        ensures err { OnErr result (self.new ≡ self.old) }
    {
        match self.slots.free_key(first, last) {
            None => Ok(None),
            Some(key) => {
                let peer = Peer::new(self.alloc, door)?;
                self.slots.reach(key)?;
                self.slots.put(key, peer);
                Ok(Some(key))
            }
        }
    }

    /// Is the peer of this key read? It is if its session is active and it has fewer than 65,536
    /// pending octets.
    pub fn is_read(&self, key: usize) -> bool
        ensures { result ≡ is_read_at self.now key }
    {
        match self.slots.find(key) {
            Some(peer) => peer.is_read(),
            None => false,
        }
    }

    /// Hears octets of a peer that is read. Asks its requests, and adds the replies to its pending
    /// output, and the notices of the rows to that of the peers that listen. Of any other peer
    /// nothing is heard.
    pub fn hear(&mut self, key: usize, octets: &[u8])
        ensures { (memory : Grants) × (self.new ≡ with_octets memory key octets.now self.old) }
    {
        if !self.is_read(key) {
            return;
        }
        if let Some(mut peer) = self.slots.take(key) {
            hear(
                &mut peer,
                &mut self.book,
                &mut self.slots,
                &mut self.paper,
                &mut self.messages,
                &self.gates,
                octets,
            );
            self.slots.put(key, peer);
        }
    }

    /// Returns a peer's pending octets.
    pub fn owed_octets(&self, key: usize) -> &[u8]
        ensures { result.now ≡ owed_at self.now key }
    {
        match self.slots.find(key) {
            Some(peer) => peer.outbox.as_slice(),
            None => &[],
        }
    }

    /// Returns the least key, from this one on, whose peer has pending output; None if there is
    /// none. Call this after every move: a move can add notices for peers that have sent nothing.
    pub fn next_owed(&self, from: usize) -> Option<usize>
        ensures found { IfSome result (λ key. IsNextOwed from key self.now) }
        ensures none { IfNone result (NoneIsOwed from self.now) }
    {
        self.slots.next_owed(from)
    }

    /// Notes that a peer has taken this many of its pending octets.
    pub fn take(&mut self, key: usize, n: usize)
        ensures { self.new ≡ with_taken key n self.old }
    {
        if let Some(mut peer) = self.slots.take(key) {
            peer.outbox.take(n);
            self.slots.put(key, peer);
        }
    }

    /// Notes that the octets of a peer have ended. Its session ends, if it is active, and signs off
    /// its till. Its pending output stays.
    pub fn finish(&mut self, key: usize)
        ensures { self.new ≡ with_end key self.old }
    {
        if let Some(mut peer) = self.slots.take(key) {
            finish(&mut peer, &mut self.book, &mut self.slots);
            self.slots.put(key, peer);
        }
    }

    /// Removes a peer. Its session ends, if it is active, and signs off its till. Its key is free.
    pub fn leave(&mut self, key: usize)
        ensures { self.new ≡ without_peer key self.old }
    {
        self.finish(key);
        let _ = self.slots.take(key);
    }

    /// Returns how the session of a peer ended. None while it is active, and if there is no such
    /// peer.
    pub fn end(&self, key: usize) -> Option<PeerEnd>
        ensures { result ≡ end_at self.now key }
    {
        match self.slots.find(key) {
            Some(peer) => peer.end,
            None => None,
        }
    }

    /// Returns the originator of a peer's first message.
    pub fn node(&self, key: usize) -> Option<[u8; 2]>
        ensures { result ≡ node_at self.now key }
    {
        match self.slots.find(key) {
            Some(peer) => peer.talk.peer(),
            None => None,
        }
    }

    /// Returns the node of an active session: at a door the door's, from the beginning; without one
    /// the originator of the first message. None before that, for a session that has ended, and if
    /// there is no such peer.
    pub fn speaker(&self, key: usize) -> Option<[u8; 2]>
        ensures { result ≡ speaker_at self.now key }
    {
        match self.slots.find(key) {
            Some(peer) => peer.speaker(),
            None => None,
        }
    }

    /// Returns the number of active sessions of a node. At its door those count too that haven't
    /// sent anything yet.
    pub fn session_count(&self, node: [u8; 2]) -> usize
        ensures { result ≡ count_at node self.now.peers }
    {
        count_sessions(&self.slots, node)
    }

    /// Ends the release of a point by the house till, with the rows SignOn, Terminate and SignOff,
    /// if there is a house till and the point is released. A fuelling that has started stays. If
    /// memory runs out for a row, that row isn't made.
    pub fn end_release(&mut self, p: FpNo)
        ensures { (on : Bool) × (off : Bool) × (self.new ≡ end_release on off p self.old) }
    {
        if let Some(till) = self.gates.house() {
            if is_released(&self.book, p) {
                self.end_release_by(till, p);
            }
        }
    }

    /// A till ends the release of a point.
    fn end_release_by(&mut self, till: TillNo, p: FpNo)
        ensures { (on : Bool) × (off : Bool)
            × (self.new ≡ with_release_ended on off till p self.old) }
    {
        self.ask(Actor::Till(till), Event::SignOn);
        self.ask(Actor::Till(till), Event::Terminate(p));
        self.sign_off(till);
    }

    /// A till is signed off, where it is signed on.
    fn sign_off(&mut self, till: TillNo)
        ensures { self.new ≡ with_book (without_till (Some till) self.old.book) self.old }
    {
        sign_off(&mut self.book, &mut self.slots, till);
    }

    /// Makes the row Offline of a point's dispenser, if the dispenser has no active session. If
    /// memory runs out, there is no row.
    pub fn lose_dispenser(&mut self, p: FpNo)
        ensures { (memory : Bool) × (self.new ≡ lose memory p self.old) }
    {
        if self.session_count(device_map::dispenser(p)) == 0 {
            self.ask(Actor::Dispenser(p), Event::Offline(p));
        }
    }

    /// The station asks for the event of an actor, and everybody is told of its row.
    fn ask(&mut self, actor: Actor, event: Event)
        ensures { (memory : Bool) × (self.new ≡ with_own_row memory actor event self.old) }
    {
        let _ = ask_among(
            &mut self.book,
            &mut self.slots,
            &mut self.paper,
            actor,
            event,
        );
    }
}

/// Is a point released, and no nozzle of it lifted?
fn is_released(book: &SiteBook, p: FpNo) -> bool
    ensures { result ≡ is_released_at book.now p }
{
    match book.point(p) {
        Some(view) => view.state == PointState::Authorised,
        None => false,
    }
}
