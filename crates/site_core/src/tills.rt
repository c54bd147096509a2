//! Sets of tills.

ghost use Rattle.std.specs.Prelude.{◌≡◌};
ghost use Rattle.std.specs.FinSet as set;

use site_base::{TILL_CELLS, TillNo};
use std::marker::Model;

/// A set of tills. It takes no memory.
#[derive(Drop)]
pub struct Tills {
    // Whether till t is a member stands in cell t - 1.
    cells: [bool; TILL_CELLS],
}

impl Model for Tills {
    ghost use Rattle.std.specs.Ordering.{nat_cmp};
    ghost use Rattle.std.specs.FinSet as set;
    ghost use Rattle.std.specs.Coded.{coded_ℕ, codes};
    ghost use Rattle.site_core.specs.Tills.{members};

    ghost Value = { set.FinSet nat_cmp };

    ghost coded = { Prim.hlevel (codes, set.code {R = nat_cmp} coded_ℕ) };

    ghost view = { λ s. members s.cells };
}

impl Tills {
    /// Returns the empty set.
    pub fn new() -> Self
        ensures { result ≡ set.empty }
    {
        Tills {
            cells: [false; TILL_CELLS],
        }
    }

    /// Returns the set of these tills.
    pub fn from_list(tills: &[TillNo]) -> Self
        ensures { result ≡ set.from_list tills.now }
    {
        let mut set = Tills::new();
        for till in tills {
            set.insert(*till);
        }
        set
    }

    /// Is this till a member?
    pub fn contains(&self, t: TillNo) -> bool
        ensures { result ≡ set.contains self.now t }
    {
        self.cells[t.cell()]
    }

    /// Adds a till.
    pub fn insert(&mut self, t: TillNo)
        ensures { self.new ≡ set.insert self.old t }
    {
        self.cells[t.cell()] = true;
    }

    /// Removes a till.
    pub fn remove(&mut self, t: TillNo)
        ensures { self.new ≡ set.remove self.old t }
    {
        self.cells[t.cell()] = false;
    }
}
