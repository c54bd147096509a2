//! The checks of what a dispenser reports of its fuelling point.

ghost use Rattle.std.specs.Prelude.{◌≡◌, ◌≤◌, true};
ghost use Rattle.site_base.specs.declared.amounts.TheConstants.{GREATEST_READING};
ghost use Rattle.site_base.specs.declared.actor.Actor.TheVariants.{Dispenser};
ghost use Rattle.meters.specs.Nozzles.{has_nozzle};
ghost use Rattle.written_site.specs.SiteChecks.{flow_since, put_back_at};
ghost use Rattle.written_site.specs.Sound.{Sound};
ghost use Rattle.site_core.specs.Ready.{Checks};
ghost use Rattle.site_core.specs.SiteParts.{site_of};

use crate::ready::Ready;
use crate::site_parts::SiteParts;
use fuelling_point::PointEvent;
use meters::Report;
use site_base::{Event, FpNo, Millilitres, NozzleNo, PointState, Refusal};

impl SiteParts {
    pub(crate) fn check_online(&self, d: FpNo, p: FpNo) -> Result<Ready, Refusal>
        ensures { Checks (site_of self.now) (Dispenser d) (Event.Online p) result }
    {
        let point = self.check_point(p)?;
        self.check_own(d, p)?;
        let event = PointEvent::Online;
        self.points.judge(&point, &event)?;
        Ok(Ready::Command { point, event })
    }

    pub(crate) fn check_offline(&self, d: FpNo, p: FpNo) -> Result<Ready, Refusal>
        requires { Sound (site_of self.now) }
        ensures { Checks (site_of self.now) (Dispenser d) (Event.Offline p) result }
    {
        let point = self.check_point(p)?;
        self.check_own(d, p)?;
        self.points.judge(&point, &PointEvent::Offline)?;
        Ok(Ready::Offline(point))
    }

    /// The nozzle reads what it read last.
    pub(crate) fn check_lift(
        &self,
        d: FpNo,
        p: FpNo,
        n: NozzleNo,
        reading: Millilitres,
    ) -> Result<Ready, Refusal>
        ensures { Checks (site_of self.now) (Dispenser d) (Event.Lift p n reading) result }
    {
        let point = self.check_point(p)?;
        self.check_nozzle(p, n)?;
        self.check_own(d, p)?;
        let (last, price) = self.start_by(p, Some(n));
        let event = PointEvent::Lift {
            nozzle: n,
            last,
            price,
        };
        self.points.judge(&point, &event)?;
        self.meters.check(p, n, reading, Report::Still)?;
        Ok(Ready::Lift { point, event })
    }

    /// The meter may have grown since its last reading.
    pub(crate) fn check_flow(
        &self,
        d: FpNo,
        p: FpNo,
        n: NozzleNo,
        reading: Millilitres,
    ) -> Result<Ready, Refusal>
        requires { Sound (site_of self.now) }
        ensures { Checks (site_of self.now) (Dispenser d) (Event.Flow p n reading) result }
    {
        let point = self.check_point(p)?;
        self.check_nozzle(p, n)?;
        self.check_own(d, p)?;
        let growth = self.growth(p, n, reading);
        self.points
            .judge(&point, &PointEvent::Flow { nozzle: n, growth })?;
        self.meters.check(p, n, reading, Report::Growing)?;
        Ok(Ready::Flow {
            point,
            nozzle: n,
            reading,
            growth,
        })
    }

    /// The meter may have grown since its last reading; where the point only calls, it hasn't.
    pub(crate) fn check_hang_up(
        &self,
        d: FpNo,
        p: FpNo,
        n: NozzleNo,
        reading: Millilitres,
    ) -> Result<Ready, Refusal>
        requires { Sound (site_of self.now) }
        ensures { Checks (site_of self.now) (Dispenser d) (Event.HangUp p n reading) result }
    {
        let point = self.check_point(p)?;
        self.check_nozzle(p, n)?;
        self.check_own(d, p)?;
        let growth = self.growth(p, n, reading);
        self.points
            .judge(&point, &PointEvent::HangUp { nozzle: n, growth })?;
        let report = put_back_at(self.points.view(&point).state);
        self.meters.check(p, n, reading, report)?;
        Ok(Ready::HangUp {
            point,
            nozzle: n,
            reading,
            growth,
        })
    }

    /// What has flowed by the nozzle since its last reading, where it reads this; 0 where it reads
    /// less.
    fn growth(&self, p: FpNo, n: NozzleNo, reading: Millilitres) -> u64
        ensures value { result ≡ flow_since (site_of self.now) p n reading }
        ensures range { reading ≤ GREATEST_READING }
    {
        let last = match self.meters.last(p, n) {
            Some(last) => last.get(),
            None => 0,
        };
        reading.get().saturating_sub(last)
    }
}

/// What a nozzle that is put back may read in this state of its point.
fn put_back_at(state: PointState) -> Report
    ensures { result ≡ put_back_at state }
{
    match state {
        PointState::Calling => Report::Still,
        _ => Report::Growing,
    }
}
