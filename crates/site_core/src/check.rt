//! The check of an event: the first refusal, or what is left to perform.

ghost use Rattle.std.specs.Prelude.{◌≡◌, true, false, is_none, None, Some};
ghost use Rattle.site_base.specs.declared.actor.Actor.TheVariants.{Till, Dispenser};
ghost use Rattle.site_base.specs.declared.refusal.Refusal.TheVariants.{NotSignedOn, NotYourPoint};
ghost use Rattle.site_base.specs.Checks.{unless, ◌or_else◌};
ghost use Rattle.site_base.specs.Events.{reported_by};
ghost use Rattle.written_site.specs.SiteState.{is_signed_on};
ghost use Rattle.written_site.specs.SiteChecks.{may_ask, numbers, signing};
ghost use Rattle.written_site.specs.Sound.{Sound};
ghost use Rattle.site_core.specs.Ready.{Checks};
ghost use Rattle.site_core.specs.SiteParts.{site_of};

use crate::ready::Ready;
use crate::site_parts::SiteParts;
use fuelling_point::PointEvent;
use site_base::{Actor, Event, FpNo, Preset, Refusal, TillNo};
use transaction_buffer::Request;

impl SiteParts {
    /// The first check that the actor's event fails gives the refusal; without one the event is
    /// ready.
    #[inline(always)]
    pub(crate) fn check(&self, actor: Actor, event: &Event) -> Result<Ready, Refusal>
        requires { Sound (site_of self.now) }
        ensures { Checks (site_of self.now) actor event.now result }
    {
        match actor {
            Actor::Till(t) => self.check_till(t, event),
            Actor::Dispenser(d) => self.check_dispenser(d, event),
        }
    }

    #[inline(always)]
    fn check_till(&self, t: TillNo, event: &Event) -> Result<Ready, Refusal>
        requires { Sound (site_of self.now) }
        ensures { Checks (site_of self.now) (Till t) event.now result }
    {
        match event {
            Event::SignOn => self.check_sign_on(t),
            Event::SignOff => self.check_sign_off(t),
            Event::Open(p) => self.check_open(t, *p),
            Event::Close(p) => self.check_close(t, *p),
            Event::Assign(p) => self.check_assign(t, *p),
            Event::Unassign(p) => self.check_unassign(t, *p),
            Event::Release(p, preset) => self.check_release(t, *p, *preset),
            Event::Prepay(p, cents) => self.check_prepay(t, *p, *cents),
            Event::TestRelease(p) => self.check_test_release(t, *p),
            Event::Suspend(p) => self.check_suspend(t, *p),
            Event::Resume(p) => self.check_resume(t, *p),
            Event::Terminate(p) => self.check_terminate(t, *p),
            Event::ReplaceMeter(p, n, reading) => self.check_replace_meter(t, *p, *n, *reading),
            Event::ReadPoint(p) => self.check_read_point(t, *p),
            Event::Lock(p, id) => self.check_lock(t, *p, id),
            Event::Unlock(p, id) => self.check_unlock(t, *p, id),
            Event::Clear(p, id) => self.check_clear(t, *p, id),
            Event::ReadTransaction(p, id) => self.check_read_sale(t, *p, id),
            Event::SetPrice(q, price) => self.check_set_price(t, *q, *price),
            Event::ReadProduct(q) => self.check_read_product(t, *q),
            Event::CloseShift => self.check_close_shift(t),
            Event::ReadSite => self.check_read_site(t),
            Event::Online(_) => self.refuse_report(t, event),
            Event::Offline(_) => self.refuse_report(t, event),
            Event::Lift(_, _, _) => self.refuse_report(t, event),
            Event::Flow(_, _, _) => self.refuse_report(t, event),
            Event::HangUp(_, _, _) => self.refuse_report(t, event),
        }
    }

    fn check_dispenser(&self, d: FpNo, event: &Event) -> Result<Ready, Refusal>
        requires { Sound (site_of self.now) }
        ensures { Checks (site_of self.now) (Dispenser d) event.now result }
    {
        match event {
            Event::Online(p) => self.check_online(d, *p),
            Event::Offline(p) => self.check_offline(d, *p),
            Event::Lift(p, n, reading) => self.check_lift(d, *p, *n, *reading),
            Event::Flow(p, n, reading) => self.check_flow(d, *p, *n, *reading),
            Event::HangUp(p, n, reading) => self.check_hang_up(d, *p, *n, *reading),
            _ => Err(self.refuse_request(d, event)),
        }
    }

    /// Why a dispenser is refused what tills ask: the numbers are looked at first.
    fn refuse_request(&self, d: FpNo, event: &Event) -> Refusal
        requires { reported_by event.now ≡ None }
        ensures { may_ask (site_of self.now) (Dispenser d) event.now ≡ Some result }
    {
        let _ = d;
        match self.check_named(event) {
            Err(refusal) => refusal,
            Ok(()) => Refusal::NotYourPoint,
        }
    }

    /// A till is refused what dispensers report: that it is signed on and the numbers are looked at
    /// first.
    fn refuse_report(&self, t: TillNo, event: &Event) -> Result<Ready, Refusal>
        requires reported { is_none (reported_by event.now) ≡ false }
        requires signs { signing (site_of self.now) (Till t) event.now
            ≡ unless (is_signed_on (site_of self.now) t) NotSignedOn }
        ensures { Checks (site_of self.now) (Till t) event.now result }
    {
        self.check_signed_on(t)?;
        self.check_named(event)?;
        Err(Refusal::NotYourPoint)
    }
}
