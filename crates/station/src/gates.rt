//! Who may speak where: doors, each for one node, and the house till, for which nobody may speak.

ghost use Rattle.std.specs.Prelude.{◌≡◌, ◌<◌, ◌≤◌, length, Some, IfNone, IfOk, IfSome, OnErr};
ghost use Rattle.std.specs.Prelude.{option_map, slice_get};
ghost use Rattle.station.specs.declared.sizes.TheConstants.{DOORS};
ghost use Rattle.station.specs.Gates.{admission, admission_at, count_at, has_door, is_house};
ghost use Rattle.station.specs.Gates.{is_session_at, open_gates, with_door};
ghost use Rattle.station.specs.Listening.{is_at};
ghost use Rattle.station.specs.PeerViews.{session_of};

use crate::paper::is_same_node;
use crate::peer::Peer;
use crate::sizes::{DOORS, NODE_SESSIONS};
use crate::slots::Slots;
use site_base::{NoMemory, TillNo};
use std::alloc::Global;
use std::marker::Model;

/// The nodes that have doors, and the house till. A node with a door speaks only through it. Nobody
/// may speak for the house till.
#[derive(Drop)]
pub struct Gates {
    doors: Vec<[u8; 2]>,
    house: Option<TillNo>,
}

impl Model for Gates {
    ghost use Rattle.std.specs.Prelude.{◌≤◌, length};
    ghost use Rattle.station.specs.Gates.{GateState};
    ghost use Rattle.station.specs.declared.sizes.TheConstants.{DOORS};

    ghost Value = { GateState };

    ghost view = { λ g. record { doors = g.doors.items; house = g.house } };

    ghost invariant = { λ g. length g.doors.items ≤ DOORS };
}

/// Whether the originator of a session's first message is heard.
#[derive(Clone, Copy, Debug, PartialEq, Eq)]
pub enum Admission {
    /// It is.
    Welcome,
    /// It may not speak there, and it is told so.
    Barred,
    /// Its node has as many sessions as a node may have at once.
    Crowded,
}

impl Gates {
    /// Returns no doors, and no house till. It takes no memory.
    pub fn new(alloc: Global) -> Gates
        ensures { result ≡ open_gates }
    {
        Gates {
            doors: Vec::new(alloc),
            house: None,
        }
    }

    /// Adds a door for this node, and returns its place among the doors. Returns None if there are
    /// 96 doors. Nothing changes then, or if memory runs out.
    pub fn add_door(&mut self, node: [u8; 2]) -> Result<Option<usize>, NoMemory>
        ensures added { IfOk result (λ place. IfSome place (λ at.
            (at ≡ length self.old.doors) × (self.new ≡ with_door node self.old))) }
        ensures full { IfOk result (λ place. IfNone place
            ((length self.old.doors ≡ DOORS) × (self.new ≡ self.old))) }
        ensures err { OnErr result (self.new ≡ self.old) }
    {
        let place = self.doors.len();
        if place >= DOORS {
            return Ok(None);
        }
        self.doors.push(node)?;
        Ok(Some(place))
    }

    /// Sets the house till.
    pub fn set_house(&mut self, till: TillNo)
        ensures { self.new ≡ record self.old { house = Some till } }
    {
        self.house = Some(till);
    }

    /// Returns the house till, if there is one.
    pub fn house(&self) -> Option<TillNo>
        ensures { result ≡ self.now.house }
    {
        self.house
    }

    /// Returns the node of the door at a place among them.
    pub fn door(&self, place: usize) -> Option<[u8; 2]>
        ensures node { result ≡ slice_get self.now.doors place }
        ensures few { IfSome result (λ _. place < DOORS) }
    {
        if place < self.doors.len() {
            Some(self.doors[place])
        } else {
            None
        }
    }

    /// Returns the number of doors.
    pub fn door_count(&self) -> usize
        ensures count { result ≡ length self.now.doors }
        ensures most { result ≤ DOORS }
    {
        self.doors.len()
    }

    /// Whether a session of this door, or of none, is opened by this originator beside these.
    pub(crate) fn admit(&self, others: &Slots, door: Option<[u8; 2]>, from: [u8; 2]) -> Admission
        ensures { result ≡ admission self.now others.now door from }
    {
        if self.is_house(from) {
            return Admission::Barred;
        }
        match door {
            Some(node) if is_same_node(node, from) => Admission::Welcome,
            Some(_) => Admission::Barred,
            None if self.has_door(from) => Admission::Barred,
            None => admit_beside(others, from),
        }
    }

    /// Is it the house till's node?
    fn is_house(&self, node: [u8; 2]) -> bool
        ensures { result ≡ is_house self.now.house node }
    {
        match self.house {
            Some(till) => is_same_node(device_map::till(till), node),
            None => false,
        }
    }

    /// Has a node a door?
    fn has_door(&self, node: [u8; 2]) -> bool
        ensures { result ≡ has_door self.now node }
    {
        self.doors.iter().any(|door| is_same_node(*door, node))
    }
}

/// Whether one more session of a node is opened beside these.
fn admit_beside(others: &Slots, node: [u8; 2]) -> Admission
    ensures { result ≡ admission_at (count_at node others.now) }
{
    if count_sessions(others, node) < NODE_SESSIONS {
        Admission::Welcome
    } else {
        Admission::Crowded
    }
}

/// How many sessions of a node last.
pub(crate) fn count_sessions(slots: &Slots, node: [u8; 2]) -> usize
    ensures { result ≡ count_at node slots.now }
{
    slots
        .as_slice()
        .iter()
        .filter(|slot| is_session_of(slot, node))
        .count()
}

/// Is somebody at this node?
fn is_at(speaker: Option<[u8; 2]>, node: [u8; 2]) -> bool
    ensures { result ≡ is_at speaker node }
{
    match speaker {
        Some(peer) => is_same_node(peer, node),
        None => false,
    }
}

/// Is it a session of this node that lasts?
fn is_session_of(slot: &Option<Peer>, node: [u8; 2]) -> bool
    ensures { result ≡ is_session_at node (option_map session_of slot.now) }
{
    match slot {
        Some(peer) => is_at(peer.speaker(), node),
        None => false,
    }
}
