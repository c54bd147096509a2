//! The holds of a site.

ghost use Rattle.std.specs.Prelude.{◌≡◌, true, IfOk};
ghost use Rattle.std.specs.Ordering.{nat_cmp};
ghost use Rattle.std.specs.FinMap as map;
ghost use Rattle.fuelling_point.specs.Holds.{is_free_for, points_held};

use site_base::{FpNo, NoMemory, POINT_CELLS, PointSet, TILL_CELLS, TillNo};
use std::alloc::Global;
use std::marker::Model;

/// Which till holds which fuelling point. A point has at most one holder; a till may hold any
/// number of points. Contracts see the finite map from the points that are held to their tills.
#[derive(Drop)]
pub struct Claims {
    // The holder of point p stands in cell p - 1.
    holders: [Option<TillNo>; POINT_CELLS],
    // The points that till t holds stand in cell t - 1.
    held: [PointSet; TILL_CELLS],
}

impl Model for Claims {
    ghost use Rattle.std.specs.Prelude.{ℕ};
    ghost use Rattle.std.specs.Ordering.{nat_cmp};
    ghost use Rattle.std.specs.FinMap as map;
    ghost use Rattle.std.specs.Coded.{coded_ℕ};
    ghost use Rattle.site_base.specs.Cells.{entries_from};

    ghost Value = { map.FinMap nat_cmp ℕ };

    ghost coded = { map.code coded_ℕ coded_ℕ };

    ghost view = { λ c. map.from_entries (entries_from 1 c.holders) };

    ghost use Rattle.fuelling_point.specs.Holds.{AreIndexed};

    ghost invariant = { λ c. AreIndexed c.holders c.held };
}

impl Claims {
    /// Returns no holds.
    pub fn new() -> Self
        ensures { result ≡ map.empty }
    {
        Claims {
            holders: [None; POINT_CELLS],
            held: [PointSet::new(); TILL_CELLS],
        }
    }

    /// Returns the till that holds the point; None if nobody does.
    pub fn holder(&self, p: FpNo) -> Option<TillNo>
        ensures { result ≡ map.get self.now p }
    {
        let holder = self.holders[p.cell()];
        holder
    }

    /// Gives the till the hold of a point that no other till holds. If it holds the point already,
    /// nothing changes. Every other hold stays.
    pub fn take(&mut self, p: FpNo, t: TillNo)
        requires { is_free_for t (map.get self.old p) ≡ true }
        ensures { self.new ≡ map.insert self.old p t }
    {
        self.holders[p.cell()] = Some(t);
        let place = t.cell();
        let mut held = self.held[place];
        held.insert(p);
        self.held[place] = held;
    }

    /// Ends the hold of the point. Every other hold stays.
    pub fn free(&mut self, p: FpNo)
        ensures { self.new ≡ map.remove self.old p }
    {
        let cell = p.cell();
        let Some(t) = self.holders[cell] else {
            return;
        };
        self.holders[cell] = None;
        let place = t.cell();
        let mut held = self.held[place];
        held.remove(p);
        self.held[place] = held;
    }

    /// Returns the points that the till holds, in rising order. The only error is that memory runs
    /// out.
    pub fn held_by(&self, alloc: Global, t: TillNo) -> Result<Vec<FpNo>, NoMemory>
        ensures { IfOk result (λ points. points.items ≡ points_held t self.now) }
    {
        let mut points = Vec::new(alloc);
        let mut left = self.held[t.cell()];
        while let Some(p) = left.first() {
            points.push(p)?;
            left.remove(p);
        }
        Ok(points)
    }
}
