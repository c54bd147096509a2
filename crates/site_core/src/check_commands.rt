//! The checks of a till's commands to a fuelling point.

ghost use Rattle.std.specs.Prelude.{◌≡◌, None, IfOk, OnOk};
ghost use Rattle.site_base.specs.declared.actor.Actor.TheVariants.{Till};
ghost use Rattle.written_site.specs.SiteState.{holder_of};
ghost use Rattle.written_site.specs.SiteChecks.{free_for, may_ask};
ghost use Rattle.site_core.specs.FoundPoints.{IsFound};
ghost use Rattle.site_core.specs.Ready.{Checks, Passes};
ghost use Rattle.site_core.specs.SiteParts.{site_of};

use crate::checks::check_preset;
use crate::points::FoundPoint;
use crate::ready::Ready;
use crate::site_parts::SiteParts;
use fuelling_point::PointEvent;
use site_base::{Event, FpNo, Preset, Refusal, TillNo};

impl SiteParts {
    pub(crate) fn check_open(&self, t: TillNo, p: FpNo) -> Result<Ready, Refusal>
        ensures { Checks (site_of self.now) (Till t) (Event.Open p) result }
    {
        let point = self.check_free_point(t, p)?;
        let event = PointEvent::Open;
        self.points.judge(&point, &event)?;
        Ok(Ready::Command { point, event })
    }

    pub(crate) fn check_close(&self, t: TillNo, p: FpNo) -> Result<Ready, Refusal>
        ensures { Checks (site_of self.now) (Till t) (Event.Close p) result }
    {
        let point = self.check_free_point(t, p)?;
        let event = PointEvent::Close;
        self.points.judge(&point, &event)?;
        Ok(Ready::Command { point, event })
    }

    pub(crate) fn check_suspend(&self, t: TillNo, p: FpNo) -> Result<Ready, Refusal>
        ensures { Checks (site_of self.now) (Till t) (Event.Suspend p) result }
    {
        self.check_signed_on(t)?;
        let point = self.check_point(p)?;
        let event = PointEvent::Suspend;
        self.points.judge(&point, &event)?;
        Ok(Ready::Command { point, event })
    }

    pub(crate) fn check_resume(&self, t: TillNo, p: FpNo) -> Result<Ready, Refusal>
        ensures { Checks (site_of self.now) (Till t) (Event.Resume p) result }
    {
        let point = self.check_free_point(t, p)?;
        let event = PointEvent::Resume;
        self.points.judge(&point, &event)?;
        Ok(Ready::Command { point, event })
    }

    /// A manager may terminate any point.
    pub(crate) fn check_terminate(&self, t: TillNo, p: FpNo) -> Result<Ready, Refusal>
        ensures { Checks (site_of self.now) (Till t) (Event.Terminate p) result }
    {
        self.check_signed_on(t)?;
        let point = self.check_point(p)?;
        if !self.managers.contains(t) {
            self.check_not_held(t, p)?;
        }
        self.points.judge(&point, &PointEvent::Terminate)?;
        Ok(Ready::Terminate(point))
    }

    pub(crate) fn check_assign(&self, t: TillNo, p: FpNo) -> Result<Ready, Refusal>
        ensures { Checks (site_of self.now) (Till t) (Event.Assign p) result }
    {
        let point = self.check_free_point(t, p)?;
        let event = PointEvent::Assign;
        self.points.judge(&point, &event)?;
        Ok(Ready::Take {
            point,
            event,
            till: t,
        })
    }

    /// That somebody holds the point is looked at last.
    pub(crate) fn check_unassign(&self, t: TillNo, p: FpNo) -> Result<Ready, Refusal>
        ensures { Checks (site_of self.now) (Till t) (Event.Unassign p) result }
    {
        let point = self.check_free_point(t, p)?;
        self.points.judge(&point, &PointEvent::Unassign)?;
        self.check_held(p)?;
        Ok(Ready::GiveBack(point))
    }

    /// For one sale within this preset.
    pub(crate) fn check_release(&self, t: TillNo, p: FpNo, preset: Preset) -> Result<Ready, Refusal>
        ensures { Checks (site_of self.now) (Till t) (Event.Release p preset) result }
    {
        self.check_signed_on(t)?;
        let point = self.check_point(p)?;
        check_preset(preset)?;
        self.check_not_held(t, p)?;
        let (last, price) = self.start_at(&point);
        let event = PointEvent::Release {
            preset,
            prepaid: None,
            last,
            price,
        };
        self.points.judge(&point, &event)?;
        self.check_may_sell(p)?;
        Ok(Ready::Take {
            point,
            event,
            till: t,
        })
    }

    /// For one sale that is prepaid.
    pub(crate) fn check_prepay(&self, t: TillNo, p: FpNo, cents: u32) -> Result<Ready, Refusal>
        ensures { Checks (site_of self.now) (Till t) (Event.Prepay p cents) result }
    {
        self.check_signed_on(t)?;
        let point = self.check_point(p)?;
        check_preset(Preset::Money(cents))?;
        self.check_not_held(t, p)?;
        let (last, price) = self.start_at(&point);
        let event = PointEvent::Release {
            preset: Preset::Money(cents),
            prepaid: Some(cents),
            last,
            price,
        };
        self.points.judge(&point, &event)?;
        self.check_may_sell(p)?;
        Ok(Ready::Take {
            point,
            event,
            till: t,
        })
    }

    /// For a test, which is a manager's. No sale comes of it, so the point's sales aren't looked
    /// at.
    pub(crate) fn check_test_release(&self, t: TillNo, p: FpNo) -> Result<Ready, Refusal>
        ensures { Checks (site_of self.now) (Till t) (Event.TestRelease p) result }
    {
        self.check_signed_on(t)?;
        let point = self.check_point(p)?;
        self.check_manager(t)?;
        self.check_not_held(t, p)?;
        let (last, price) = self.start_at(&point);
        let event = PointEvent::TestRelease { last, price };
        self.points.judge(&point, &event)?;
        Ok(Ready::Take {
            point,
            event,
            till: t,
        })
    }

    /// The till is signed on, the point is there, and no other till holds it.
    fn check_free_point(&self, t: TillNo, p: FpNo) -> Result<FoundPoint, Refusal>
        ensures check { Passes (may_ask (site_of self.now) (Till t) (Event.Assign p)) result }
        ensures number { IfOk result (λ point. point.number ≡ p) }
        ensures found { IfOk result (λ point. IsFound point (site_of self.now).points) }
        ensures free { OnOk result (free_for t (holder_of (site_of self.now) p) ≡ None) }
    {
        self.check_signed_on(t)?;
        let point = self.check_point(p)?;
        self.check_not_held(t, p)?;
        Ok(point)
    }
}
