//! The peers in their slots. A key is the place of a slot.

ghost use Rattle.std.specs.Prelude.{◌≡◌, ◌≢◌, ◌<◌, ◌≤◌, ◌+◌, ℕ, [], length, None, Some, IsSome};
ghost use Rattle.std.specs.Prelude.{IfNone, IfSome, OnErr, OnOk, false, map, option_map};
ghost use Rattle.std.specs.Prelude.{slice_index, true};
ghost use Rattle.station.specs.declared.sizes.TheConstants.{NOTICE_OCTETS, PEERS};
ghost use Rattle.station.specs.Marks.{HasOtherMark, IsNodeMark, IsOwedMark, mark_of};
ghost use Rattle.station.specs.Peers.{peer_at, with_peer};
ghost use Rattle.station.specs.PeerViews.{AreAlikeBehind, session_at, session_of, sessions_of};
ghost use Rattle.station.specs.PeerViews.{slot_forgotten, slot_noticed, without_key};
ghost use Rattle.station.specs.Reads.{owed_to};

use crate::peer::Peer;
use crate::sizes::SUBNET_MARKS;
use memchr::memchr;
use site_base::{NoMemory, TillNo};
use std::alloc::Global;
use std::marker::Model;

/// The mark of a slot whose peer may be owed octets.
const OWED: u8 = 1;

/// The peers of a station, each in the slot of its key. Marks find those who listen at a node, and
/// those who are owed octets, so that a notice costs a search of octets, and what those cost who
/// are told it.
#[derive(Drop)]
pub(crate) struct Slots {
    peers: Vec<Option<Peer>>,
    /// The mark of the node of each peer that has spoken; else 0.
    node_marks: Vec<u8>,
    /// `OWED` for each peer that is owed octets, or was told a notice.
    owed_marks: Vec<u8>,
}

impl Model for Slots {
    ghost use Rattle.std.specs.Prelude.{List, Option};
    ghost use Rattle.station.specs.Marks.{AreMarked};
    ghost use Rattle.station.specs.PeerViews.{sessions_of};
    ghost use Rattle.station.specs.Sessions.{Session};

    ghost Value = { List (Option Session) };

    ghost view = { λ s. sessions_of s.peers.items };

    ghost invariant = { λ s.
        AreMarked s.node_marks.items s.owed_marks.items (sessions_of s.peers.items) };
}

impl Slots {
    /// No slots. It takes no memory.
    #[tactic(auto, using(crate::proofs::Marks::no_slots))]
    pub(crate) fn new(alloc: Global) -> Slots
        ensures { result ≡ [] }
    {
        Slots {
            peers: Vec::new(alloc),
            node_marks: Vec::new(alloc),
            owed_marks: Vec::new(alloc),
        }
    }

    /// The slots, by their keys.
    pub(crate) fn as_slice(&self) -> &[Option<Peer>]
        ensures { sessions_of result.now ≡ self.now }
    {
        &self.peers
    }

    /// The peer of a key, if there is one.
    pub(crate) fn find(&self, key: usize) -> Option<&Peer>
        ensures { option_map session_at result ≡ peer_at self.now key }
    {
        find_peer(&self.peers, key)
    }

    /// Takes the peer of a key out of its slot, if there is one.
    pub(crate) fn take(&mut self, key: usize) -> Option<Peer>
        ensures peer { option_map session_of result ≡ peer_at self.old key }
        ensures slots { self.new ≡ without_key key result self.old }
        ensures key { IsSome result → key < length self.old }
    {
        if key < self.peers.len() {
            self.node_marks[key] = 0;
            self.owed_marks[key] = 0;
            self.peers[key].take()
        } else {
            None
        }
    }

    /// Puts a peer into the slot of a key.
    pub(crate) fn put(&mut self, key: usize, peer: Peer)
        requires { key < length self.old }
        ensures { self.new ≡ with_peer key (Some (session_of peer)) self.old }
    {
        self.node_marks[key] = node_mark(&peer);
        self.owed_marks[key] = owed_mark(&peer);
        self.peers[key] = Some(peer);
    }

    /// The least key that is free, from the first one on and before the last, if there is one.
    pub(crate) fn free_key(&self, first: usize, last: usize) -> Option<usize>
        ensures within { IfSome result (λ key. (first ≤ key) × (key < last)) }
        ensures free { IfSome result (λ key. peer_at self.now key ≡ None) }
        ensures none { IfNone result ((k : ℕ) → first ≤ k → k < last
            → IsSome (peer_at self.now k)) }
    {
        for key in first..last {
            if self.find(key).is_none() {
                return Some(key);
            }
        }
        None
    }

    /// Makes slots up to that of this key: the new ones are empty. Nothing changes where memory is
    /// wanting.
    pub(crate) fn reach(&mut self, key: usize) -> Result<(), NoMemory>
        requires { key < PEERS }
        ensures reached { OnOk result (key < length self.new) }
        ensures size { length self.old ≤ PEERS → length self.new ≤ PEERS }
        ensures alike { OnOk result (AreAlikeBehind key self.old self.new) }
        ensures err { OnErr result (self.new ≡ self.old) }
    {
        if key < self.peers.len() {
            return Ok(());
        }
        self.node_marks.resize(key + 1, 0)?;
        self.owed_marks.resize(key + 1, 0)?;
        reach_key(&mut self.peers, key)
    }

    /// Tells a notice to each peer that listens at this node.
    pub(crate) fn notice_all(&mut self, node: [u8; 2], notice: &[u8])
        requires { length notice.now ≤ NOTICE_OCTETS }
        ensures { self.new ≡ map (slot_noticed node notice.now) self.old }
    {
        let mark = mark_of(node);
        let mut from = 0;
        for _at in 0..self.peers.len() {
            let Some(key) = self.next_of_node(mark, from) else {
                return;
            };
            self.notice_at(key, node, notice);
            from = key + 1;
        }
    }

    /// The first key, from this one on, whose peer's node may have this mark. The nodes of the
    /// peers between have others.
    fn next_of_node(&self, mark: u8, from: usize) -> Option<usize>
        ensures within { IfSome result (λ key. (from ≤ key) × (key < length self.now)) }
        ensures between { IfSome result (λ key. (k : ℕ) → from ≤ k → k < key
            → HasOtherMark mark (peer_at self.now k)) }
        ensures none { IfNone result ((k : ℕ) → from ≤ k
            → HasOtherMark mark (peer_at self.now k)) }
    {
        next_place(&self.node_marks[..self.peers.len()], mark, from)
    }

    /// Tells a notice to the peer of a key, if it listens at this node.
    fn notice_at(&mut self, key: usize, node: [u8; 2], notice: &[u8])
        requires there { key < length self.old }
        requires short { length notice.now ≤ NOTICE_OCTETS }
        ensures { self.new
            ≡ with_peer key (slot_noticed node notice.now (peer_at self.old key)) self.old }
    {
        notice_slot(&mut self.peers[key], node, notice);
        self.owed_marks[key] = OWED;
    }

    /// The sessions that had signed this till on forget that.
    pub(crate) fn forget_till(&mut self, till: TillNo)
        ensures { self.new ≡ map (slot_forgotten till) self.old }
    {
        forget_till(&mut self.peers, till);
    }

    /// The least key, from this one on, whose peer is owed octets.
    pub(crate) fn next_owed(&self, from: usize) -> Option<usize>
        ensures within { IfSome result (λ key. (from ≤ key) × (key < length self.now)) }
        ensures owed { IfSome result (λ key. owed_to (peer_at self.now key) ≢ []) }
        ensures least { IfSome result (λ key. (k : ℕ) → from ≤ k → k < key
            → owed_to (peer_at self.now k) ≡ []) }
        ensures none { IfNone result ((k : ℕ) → from ≤ k → owed_to (peer_at self.now k) ≡ []) }
    {
        let mut first = from;
        for _at in 0..self.peers.len() {
            let key = self.next_marked(first)?;
            if is_owed(self.find(key)) {
                return Some(key);
            }
            first = key + 1;
        }
        None
    }

    /// The first key, from this one on, whose peer may be owed octets. The peers between aren't.
    fn next_marked(&self, from: usize) -> Option<usize>
        ensures within { IfSome result (λ key. (from ≤ key) × (key < length self.now)) }
        ensures between { IfSome result (λ key. (k : ℕ) → from ≤ k → k < key
            → owed_to (peer_at self.now k) ≡ []) }
        ensures none { IfNone result ((k : ℕ) → from ≤ k → owed_to (peer_at self.now k) ≡ []) }
    {
        next_place(&self.owed_marks[..self.peers.len()], OWED, from)
    }
}

/// The peer of a key, if there is one.
fn find_peer(slots: &[Option<Peer>], key: usize) -> Option<&Peer>
    ensures { option_map session_at result ≡ peer_at (sessions_of slots.now) key }
{
    if key < slots.len() {
        let slot = &slots[key];
        match slot {
            Some(peer) => Some(peer),
            None => None,
        }
    } else {
        None
    }
}

/// Makes slots up to that of this key, which isn't there yet: the new ones are empty. Nothing
/// changes where memory is wanting.
fn reach_key(slots: &mut Vec<Option<Peer>>, key: usize) -> Result<(), NoMemory>
    requires beyond { length slots.old.items ≤ key }
    requires key { key < PEERS }
    ensures reached { OnOk result (key < length slots.new.items) }
    ensures most { length slots.new.items ≤ key + 1 }
    ensures alike { OnOk result
        (AreAlikeBehind key (sessions_of slots.old.items) (sessions_of slots.new.items)) }
    ensures same { (k : ℕ) → peer_at (sessions_of slots.new.items) k
        ≡ peer_at (sessions_of slots.old.items) k }
    ensures err { OnErr result (slots.new.items ≡ slots.old.items) }
{
    slots.reserve(key + 1 - slots.len())?;
    for _at in slots.len()..key + 1 {
        slots.push_reserved(None);
    }
    Ok(())
}

/// The mark of a node (`SUBNET_MARKS` says which).
fn mark_of(node: [u8; 2]) -> u8
    ensures { result ≡ mark_of node }
{
    let sum = u16::from(node[0]) * SUBNET_MARKS + u16::from(node[1]);
    (sum % 256) as u8
}

/// The mark of the node of a peer; 0 if it hasn't spoken.
fn node_mark(peer: &Peer) -> u8
    ensures mark { IsNodeMark result (Some (session_of peer.now)) }
    ensures silent { peer.now.talk.peer ≡ None → result ≡ 0 }
{
    match peer.talk.peer() {
        Some(node) => mark_of(node),
        None => 0,
    }
}

/// The mark of a peer: whether it is owed octets.
fn owed_mark(peer: &Peer) -> u8
    ensures mark { IsOwedMark result (Some (session_of peer.now)) }
    ensures unowed { peer.now.outbox ≡ [] → result ≡ 0 }
{
    if peer.outbox.len() > 0 { OWED } else { 0 }
}

/// Is this peer owed octets?
fn is_owed(peer: Option<&Peer>) -> bool
    ensures yes { result ≡ true → owed_to (option_map session_at peer.entry) ≢ [] }
    ensures no { result ≡ false → owed_to (option_map session_at peer.entry) ≡ [] }
{
    match peer {
        Some(peer) => peer.outbox.len() > 0,
        None => false,
    }
}

/// The first place, from this one on, that has this mark.
fn next_place(marks: &[u8], mark: u8, from: usize) -> Option<usize>
    ensures within { IfSome result (λ at. (from ≤ at) × (at < length marks.now)) }
    ensures between { IfSome result (λ at. (k : ℕ) → from ≤ k → k < at
        → slice_index marks.now k ≢ mark) }
    ensures none { IfNone result ((k : ℕ) → from ≤ k → k < length marks.now
        → slice_index marks.now k ≢ mark) }
{
    if from > marks.len() {
        return None;
    }
    match memchr(mark, &marks[from..]) {
        Some(at) => Some(from + at),
        None => None,
    }
}

/// Tells a notice to a peer, if it listens at this node.
fn notice_slot(slot: &mut Option<Peer>, node: [u8; 2], notice: &[u8])
    requires { length notice.now ≤ NOTICE_OCTETS }
    ensures { option_map session_of slot.new
        ≡ slot_noticed node notice.now (option_map session_of slot.old) }
{
    if let Some(peer) = slot {
        if peer.listens_at(node) {
            peer.notice(notice);
        }
    }
}

/// The sessions that had signed this till on forget that.
fn forget_till(slots: &mut [Option<Peer>], till: TillNo)
    ensures { sessions_of slots.new ≡ map (slot_forgotten till) (sessions_of slots.old) }
{
    for i in 0..slots.len() {
        forget_at(&mut slots[i], till);
    }
}

/// A session forgets that it had signed this till on, if it had.
fn forget_at(slot: &mut Option<Peer>, till: TillNo)
    ensures { option_map session_of slot.new
        ≡ slot_forgotten till (option_map session_of slot.old) }
{
    if let Some(peer) = slot {
        peer.forget_till(till);
    }
}
