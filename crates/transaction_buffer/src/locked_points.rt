//! Which till has locked what, by point.

ghost use Rattle.std.specs.Prelude.{◌≡◌, length};
ghost use Rattle.site_base.specs.declared.limits.TheConstants.{TILL_CELLS};
ghost use Rattle.transaction_buffer.specs.LockedSales.{IsEntered, IsLeft};

use site_base::{FpNo, PointSet, TILL_CELLS, TillNo};

/// The tills that have locked a point's unpaid sales: for each of their two places the till, if one
/// has.
#[derive(Clone, Copy, Debug, PartialEq, Eq)]
pub struct Lockers {
    /// The till that has locked the sale at the one place.
    pub one: Option<TillNo>,
    /// The till that has locked the sale at the other place.
    pub other: Option<TillNo>,
}

/// For each till the points of which it has locked a sale: a set for each of the two places of a
/// point's unpaid sales. The sets of till t are in cell t - 1. They take no memory.
#[derive(Clone, Copy, Debug, Drop)]
pub struct LockedPoints {
    /// The points at which it has locked the sale at the one place.
    pub one: [PointSet; TILL_CELLS],
    /// The points at which it has locked the sale at the other place.
    pub other: [PointSet; TILL_CELLS],
}

impl LockedPoints {
    ghost use Rattle.std.specs.Prelude.{ℕ};
    ghost use Rattle.transaction_buffer.specs.LockedSales.{no_lockers, IsForgotten, IsNoted};
    ghost use Rattle.transaction_buffer.specs.LockedSales.{KeepsOthers};

    /// Returns sets in which no till has locked anything.
    pub fn new() -> Self
        ensures { (p : ℕ) → IsNoted p no_lockers result }
    {
        LockedPoints {
            one: [PointSet::new(); TILL_CELLS],
            other: [PointSet::new(); TILL_CELLS],
        }
    }

    /// Notes that the lockers of the point were `before` and are `after` now.
    pub fn note(&mut self, p: FpNo, before: Lockers, after: Lockers)
        requires { IsNoted p before self.old }
        ensures noted { IsNoted p after self.new }
        ensures others { KeepsOthers p self.old self.new }
    {
        leave(&mut self.one, p, before.one);
        enter(&mut self.one, p, after.one);
        leave(&mut self.other, p, before.other);
        enter(&mut self.other, p, after.other);
    }

    /// Notes that the till has locked nothing any more.
    pub fn forget(&mut self, t: TillNo)
        ensures { IsForgotten t self.old self.new }
    {
        self.one[t.cell()] = PointSet::new();
        self.other[t.cell()] = PointSet::new();
    }
}

/// The point leaves the set of this till, if there is one.
fn leave(sets: &mut [PointSet], p: FpNo, till: Option<TillNo>)
    requires { length sets.old ≡ TILL_CELLS }
    ensures cells { length sets.new ≡ length sets.old }
    ensures left { IsLeft p till sets.old sets.new }
{
    let Some(t) = till else {
        return;
    };
    let place = t.cell();
    let mut set = sets[place];
    set.remove(p);
    sets[place] = set;
}

/// The point enters the set of this till, if there is one.
fn enter(sets: &mut [PointSet], p: FpNo, till: Option<TillNo>)
    requires { length sets.old ≡ TILL_CELLS }
    ensures cells { length sets.new ≡ length sets.old }
    ensures entered { IsEntered p till sets.old sets.new }
{
    let Some(t) = till else {
        return;
    };
    let place = t.cell();
    let mut set = sets[place];
    set.insert(p);
    sets[place] = set;
}
