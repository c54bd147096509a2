//! Sets of fuelling points.

ghost use Rattle.std.specs.Prelude.{◌≡◌, ◌+◌, ◌<◌, ◌≤◌, true, false, ℕ, IfSome, IfNone};
ghost use Rattle.site_base.specs.declared.limits.TheConstants.{POINTS};
ghost use Rattle.site_base.specs.PointSets.{has_point, IsWith, IsWithout, NoneBefore};

use crate::numbers::FpNo;
use std::marker::Model;

/// A set of fuelling points in one number. Bit p - 1 says whether point p is a member. It takes no
/// memory, and an operation costs the same however many members there are.
#[derive(Clone, Copy, Debug, PartialEq, Eq)]
pub struct PointSet {
    bits: u64,
}

impl Model for PointSet {
    ghost use Rattle.std.specs.Prelude.{ℕ};

    ghost Value = { ℕ };

    ghost view = { λ s. s.bits };

    ghost inverse = { λ n. record { bits = n } };
}

#[tactic(auto, unfolding(crate::specs::PointSets::has_point))]
impl PointSet {
    /// Returns the empty set.
    pub fn new() -> Self
        ensures number { result ≡ 0 }
        ensures none { (q : ℕ) → has_point q result ≡ false }
    {
        PointSet { bits: 0 }
    }

    /// Is the point a member?
    pub fn contains(self, p: FpNo) -> bool
        ensures { result ≡ has_point p self }
    {
        self.bits >> p.cell() & 1 == 1
    }

    /// Adds a point. Nothing changes for any other point.
    pub fn insert(&mut self, p: FpNo)
        ensures { IsWith p self.old self.new }
    {
        self.bits |= 1 << p.cell();
    }

    /// Removes a point. Nothing changes for any other point.
    pub fn remove(&mut self, p: FpNo)
        ensures others { IsWithout p self.old self.new }
        ensures fewer { has_point p self.old ≡ true → self.new < self.old }
    {
        self.bits &= !(1 << p.cell());
    }

    /// Returns the member with the lowest number; None if there is no member.
    pub fn first(self) -> Option<FpNo>
        ensures range { IfSome result (λ p. (1 ≤ p) × (p ≤ POINTS)) }
        ensures member { IfSome result (λ p. has_point p self ≡ true) }
        ensures lowest { IfSome result (λ p. NoneBefore p self) }
        ensures empty { IfNone result (NoneBefore (POINTS + 1) self) }
    {
        if self.bits == 0 {
            return None;
        }
        FpNo::new(self.bits.trailing_zeros() as u8 + 1)
    }
}
