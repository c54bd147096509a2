//! The peers whose pending output is sent at the end of a round.

ghost use Rattle.std.specs.Prelude.{◌≡◌, IfOk, List, [], length, slice_get};
ghost use Rattle.peer_connections.specs.Due.{with_due};

use site_base::NoMemory;
use station::PEERS;
use std::alloc::Global;
use std::marker::Model;

/// The keys of the peers that are due in this round, in the order in which they became so, each
/// once. It takes no memory while the station runs.
#[derive(Drop)]
pub(crate) struct DueList {
    keys: Vec<usize>,
    /// How many of the keys count.
    count: usize,
    /// Whether the peer of a key is due.
    is_due: Vec<bool>,
}

impl Model for DueList {
    ghost use Rattle.std.specs.Prelude.{List, ℕ, take};
    ghost use Rattle.peer_connections.specs.Due.{AreMarked};

    ghost Value = { List ℕ };

    ghost view = { λ d. take d.count d.keys.items };

    ghost invariant = { λ d. AreMarked d.count d.keys.items d.is_due.items };
}

impl DueList {
    /// Nobody is due.
    #[tactic(auto, using(crate::proofs::Dues::marked))]
    pub(crate) fn new(alloc: Global) -> Result<DueList, NoMemory>
        ensures { IfOk result (λ due. due ≡ []) }
    {
        let keys = Vec::from_elem(alloc, 0, PEERS)?;
        let is_due = Vec::from_elem(alloc, false, PEERS)?;
        Ok(DueList {
            keys,
            count: 0,
            is_due,
        })
    }

    /// The peer of this key is due.
    #[tactic(auto, using(crate::proofs::Dues::marked))]
    pub(crate) fn add(&mut self, key: usize)
        ensures { self.new ≡ with_due key self.old }
    {
        if key >= self.is_due.len() || self.is_due[key] {
            return;
        }
        self.is_due[key] = true;
        self.keys[self.count] = key;
        self.count += 1;
    }

    /// How many are due.
    #[tactic(auto, using(crate::proofs::Dues::marked))]
    pub(crate) fn len(&self) -> usize
        ensures { result ≡ length self.now }
    {
        self.count
    }

    /// The key of one that is due, by its place, counted from 0.
    #[tactic(auto, using(crate::proofs::Dues::marked))]
    pub(crate) fn get(&self, place: usize) -> Option<usize>
        ensures { result ≡ slice_get self.now place }
    {
        if place >= self.count {
            return None;
        }
        self.keys.get(place).copied()
    }

    /// Nobody is due any more.
    #[tactic(auto, using(crate::proofs::Dues::marked))]
    pub(crate) fn clear(&mut self)
        ensures { self.new ≡ [] }
    {
        self.is_due.fill(false);
        self.count = 0;
    }
}
