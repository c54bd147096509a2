//! The tills to which a sign-off is owed.

ghost use Rattle.std.specs.Prelude.{◌≡◌, ◌-◌, ◌≤◌, false, length, slice_index_or, slice_set};
ghost use Rattle.site_base.specs.declared.limits.TheConstants.{TILL_CELLS, TILLS};
ghost use Rattle.counter_desk.specs.Shares.{nobody_owed, owed_with, tills_owed};

use site_base::{SignChange, TILL_CELLS, TillNo};
use std::marker::Model;

/// Of each till whether it is owed a sign-off, from till 1 on. It takes no memory.
#[derive(Drop)]
pub(crate) struct Owed {
    tills: [bool; TILL_CELLS],
    count: usize,
}

impl Model for Owed {
    ghost use Rattle.std.specs.Prelude.{◌≡◌, Bool, List};
    ghost use Rattle.counter_desk.specs.Shares.{tills_owed};

    ghost Value = { List Bool };

    ghost view = { λ o. o.tills };

    ghost invariant = { λ o. o.count ≡ tills_owed o.tills };
}

impl Owed {
    /// Nobody is owed.
    pub(crate) fn new() -> Self
        ensures { result ≡ nobody_owed }
    {
        Owed {
            tills: [false; TILL_CELLS],
            count: 0,
        }
    }

    /// Is the till owed a sign-off?
    pub(crate) fn owes(&self, t: TillNo) -> bool
        ensures value { result ≡ slice_index_or self.now (t - 1) false }
        ensures cells { length self.now ≡ TILL_CELLS }
    {
        self.tills[t.cell()]
    }

    /// How many tills are owed.
    pub(crate) fn count(&self) -> usize
        ensures count { result ≡ tills_owed self.now }
        ensures few { result ≤ TILLS }
        ensures cells { length self.now ≡ TILL_CELLS }
    {
        self.count
    }

    /// The till is owed a sign-off from now on, or isn't any more.
    pub(crate) fn set(&mut self, t: TillNo, owed: bool)
        ensures { self.new ≡ slice_set self.old (t - 1) owed }
    {
        let cell = t.cell();
        if self.tills[cell] {
            self.count -= 1;
        }
        self.tills[cell] = owed;
        if owed {
            self.count += 1;
        }
    }

    /// Who is signed on changed so: a till that signs on is owed, one that signs off isn't any
    /// more.
    pub(crate) fn note(&mut self, change: &Option<SignChange>)
        ensures { self.new ≡ owed_with change.now self.old }
    {
        match change {
            Some(SignChange::On(t)) => self.set(*t, true),
            Some(SignChange::Off(t)) => self.set(*t, false),
            None => {}
        }
    }
}
