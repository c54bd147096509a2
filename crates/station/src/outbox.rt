//! A peer's pending output.

ghost use Rattle.std.specs.Prelude.{◌≡◌, ◌≤◌, [], ◌++◌, drop, length, IfOk, OnOk, OnErr};
ghost use Rattle.std.specs.Prelude.{vec_capacity};
ghost use Rattle.station.specs.declared.sizes.TheConstants.{NOTICE_LIMIT, NOTICE_OCTETS};

use crate::sizes::{NOTICE_LIMIT, NOTICE_OCTETS};
use site_base::NoMemory;
use std::alloc::Global;
use std::marker::Model;

/// The octets that a peer hasn't taken yet. If they are few enough for a notice, there is memory
/// for it already. It keeps no more octets that were taken than octets that weren't.
#[derive(Drop)]
pub struct Outbox {
    octets: Vec<u8>,
    // So many of the octets were taken.
    start: usize,
}

impl Model for Outbox {
    ghost use Rattle.std.specs.Prelude.{ℕ, List, ◌+◌, ◌≤◌, drop, length, vec_capacity};
    ghost use Rattle.station.specs.declared.sizes.TheConstants.{NOTICE_LIMIT, NOTICE_OCTETS};

    ghost Value = { List ℕ };

    ghost view = { λ o. drop o.start o.octets.items };

    ghost invariant = { λ o. (o.start + o.start ≤ length o.octets.items)
        × (NOTICE_LIMIT + NOTICE_OCTETS ≤ vec_capacity o.octets) };
}

impl Outbox {
    /// Returns an empty outbox. It takes the memory that notices may need.
    pub fn new(alloc: Global) -> Result<Outbox, NoMemory>
        ensures { IfOk result (λ outbox. outbox ≡ []) }
    {
        Ok(Outbox {
            octets: Vec::with_capacity(alloc, NOTICE_LIMIT + NOTICE_OCTETS)?,
            start: 0,
        })
    }

    /// Returns the pending octets.
    pub fn as_slice(&self) -> &[u8]
        ensures { result.now ≡ self.now }
    {
        &self.octets[self.start..]
    }

    /// Returns the number of pending octets.
    pub fn len(&self) -> usize
        ensures { result ≡ length self.now }
    {
        self.octets.len() - self.start
    }

    /// Removes this many octets from the front, or all if there are fewer.
    pub fn take(&mut self, n: usize)
        ensures { self.new ≡ drop n self.old }
    {
        if n >= self.len() {
            self.octets.clear();
            self.start = 0;
            return;
        }
        // Octets that were taken make way once they are the greater part.
        let taken = self.start + n;
        if taken > self.octets.len() - taken {
            drop_front(&mut self.octets, taken);
            self.start = 0;
        } else {
            self.start = taken;
        }
    }

    /// Appends a notice to the pending octets, which are few enough for that.
    pub fn put_notice(&mut self, octets: &[u8])
        requires few { length self.old ≤ NOTICE_LIMIT }
        requires short { length octets.now ≤ NOTICE_OCTETS }
        ensures { self.new ≡ self.old ++ octets.now }
    {
        if octets.len() <= self.octets.capacity() - self.octets.len() {
            let _ = self.octets.extend_from_slice(octets);
        } else {
            drop_front(&mut self.octets, self.start);
            self.start = 0;
            let _ = self.octets.extend_from_slice(octets);
        }
    }

    /// Appends octets to the pending ones. If memory runs out, nothing changes.
    pub fn put(&mut self, octets: &[u8]) -> Result<(), NoMemory>
        ensures ok { OnOk result (self.new ≡ self.old ++ octets.now) }
        ensures err { OnErr result (self.new ≡ self.old) }
    {
        self.octets.extend_from_slice(octets)?;
        Ok(())
    }
}

/// Lets go of the first octets of a list.
fn drop_front(octets: &mut Vec<u8>, n: usize)
    requires { n ≤ length octets.old.items }
    ensures items { octets.new.items ≡ drop n octets.old.items }
    ensures capacity { vec_capacity octets.new ≡ vec_capacity octets.old }
{
    let left = octets.len() - n;
    octets.copy_within(n.., 0);
    octets.truncate(left);
}
