//! The fuelling points of a site, by their numbers.

ghost use Rattle.std.specs.Prelude.{◌≡◌, true, is_some, None, Some, IfSome, IfOk, OnOk, IfErr};
ghost use Rattle.fuelling_point.specs.PointChecks.{refusal_of};
ghost use Rattle.fuelling_point.specs.KeptPoints.{point_view, FitsGrowth};
ghost use Rattle.fuelling_point.specs.Step.{step_of, after};
ghost use Rattle.site_base.specs.Configured.{none_alike, same_point};
ghost use Rattle.site_base.specs.Table.{IsPlace, row_of, with_row};
ghost use Rattle.written_site.specs.SiteState.{points_of, facts_in, rests, is_resting};
ghost use Rattle.site_core.specs.FoundPoints.{IsFound};

use fuelling_point::{Point, PointEvent, PointStep};
use site_base::{
    FpNo, NoMemory, POINT_CELLS, PointEntry, PointState, PointView, Refusal, place_of,
};
use std::alloc::Global;
use std::marker::Model;

/// A point that was found: its number, and the place of its row.
#[derive(Clone, Copy, Debug, PartialEq, Eq)]
pub struct FoundPoint {
    /// Its number.
    pub number: FpNo,
    /// The place of its row.
    pub place: usize,
}

/// The points in configured order. An operation on one costs the same however many there are.
#[derive(Drop)]
pub struct Points {
    rows: Vec<(FpNo, Point)>,
    // Where the row of point p is looked for first stands in cell p - 1.
    hints: [usize; POINT_CELLS],
}

impl Model for Points {
    ghost use Rattle.std.specs.Prelude.{ℕ, List, ◌≡◌, true, nat_eq};
    ghost use Rattle.fuelling_point.specs.KeptPoints.{Facts};
    ghost use Rattle.site_base.specs.Configured.{none_alike};
    ghost use Rattle.written_site.specs.Sound.{numbers_of};

    ghost Value = { List (ℕ × Facts) };

    ghost view = { λ a. a.rows.items };

    ghost invariant = { λ a. none_alike nat_eq (numbers_of a.rows.items) ≡ true };
}

impl Points {
    /// Returns each configured point, closed. No number is among them twice.
    pub fn try_new(alloc: Global, entries: &[PointEntry]) -> Result<Self, NoMemory>
        requires { none_alike same_point entries.now ≡ true }
        ensures { IfOk result (λ points. points ≡ points_of entries.now) }
    {
        let mut rows = Vec::new(alloc);
        let mut hints = [0; POINT_CELLS];
        for entry in entries {
            hints[entry.number.cell()] = rows.len();
            rows.push((entry.number, Point::new()))?;
        }
        Ok(Points { rows, hints })
    }

    /// Where the row of a point stands: where its cell says, if it is there, else where it is
    /// found.
    fn place(&self, p: FpNo) -> Option<usize>
        ensures found { IfSome result (IsPlace (λ n. n) p self.now) }
        ensures there { is_some result ≡ is_some (row_of p self.now) }
    {
        let hint = self.hints[p.cell()];
        if hint < self.rows.len() && self.rows[hint].0 == p {
            return Some(hint);
        }
        place_of(&self.rows, p)
    }

    /// Finds the point with this number, if there is one.
    pub fn find(&self, p: FpNo) -> Option<FoundPoint>
        ensures there { is_some result ≡ is_some (row_of p self.now) }
        ensures number { IfSome result (λ point. point.number ≡ p) }
        ensures found { IfSome result (λ point. IsFound point self.now) }
    {
        match self.place(p) {
            Some(place) => Some(FoundPoint { number: p, place }),
            None => None,
        }
    }

    /// Returns the point as a read shows it. Its holder isn't known here.
    pub fn view(&self, point: &FoundPoint) -> PointView
        requires { IsFound point.now self.now }
        ensures { result ≡ point_view (facts_in self.now point.now.number) None }
    {
        self.rows[point.place].1.view()
    }

    /// Is there such a point, and is it closed, idle or calling?
    pub fn rests(&self, p: FpNo) -> bool
        ensures { result ≡ rests self.now p }
    {
        match self.find(p) {
            Some(point) => is_resting(self.view(&point).state),
            None => false,
        }
    }

    /// Returns why the point would refuse the event, if it would.
    pub fn judge(&self, point: &FoundPoint, event: &PointEvent) -> Result<(), Refusal>
        requires { IsFound point.now self.now }
        ensures accepted { OnOk result (
            refusal_of event.now (facts_in self.now point.now.number) ≡ None) }
        ensures refused { IfErr result (λ refusal.
            refusal_of event.now (facts_in self.now point.now.number) ≡ Some refusal) }
    {
        self.rows[point.place].1.judge(event)
    }

    /// Does to the point what the point table says of an event that it accepts.
    pub fn perform(&mut self, point: &FoundPoint, event: PointEvent) -> PointStep
        requires found { IsFound point.now self.old }
        requires accepted { refusal_of event (facts_in self.old point.now.number) ≡ None }
        requires fits { FitsGrowth event (facts_in self.old point.now.number) }
        ensures step { result ≡ step_of event (facts_in self.old point.now.number) }
        ensures points { self.new
            ≡ with_row point.now.number (after event (facts_in self.old point.now.number))
            self.old }
    {
        self.rows[point.place].1.perform(event)
    }

    /// Returns the points with their numbers, in configured order.
    pub fn rows(&self) -> &[(FpNo, Point)]
        ensures { result.now ≡ self.now }
    {
        &self.rows
    }
}

/// Is this the state of a point that doesn't deliver, and isn't released to?
fn is_resting(state: PointState) -> bool
    ensures { result ≡ is_resting state }
{
    match state {
        PointState::Closed | PointState::Idle | PointState::Calling => true,
        _ => false,
    }
}
