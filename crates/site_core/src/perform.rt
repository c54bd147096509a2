//! Performs an event that has passed its checks. It can't be refused, and nothing is looked up
//! again.

ghost use Rattle.std.specs.Prelude.{◌≡◌, if◌then◌else◌};
ghost use Rattle.std.specs.FinMap as finite;
ghost use Rattle.site_base.specs.declared.actor.Actor.TheVariants.{Till};
ghost use Rattle.site_base.specs.declared.event.Event.TheVariants.{SignOff};
ghost use Rattle.written_site.specs.SiteStep.{accepted_site, ends_at_sign_off, holds_without};
ghost use Rattle.site_core.specs.Ready.{Does, MayDo};
ghost use Rattle.site_core.specs.SiteParts.{room_of, site_of};

use crate::answers::answer_to;
use crate::endings::give_back;
use crate::points::{FoundPoint, Points};
use crate::ready::Ready;
use crate::site_parts::SiteParts;
use fuelling_point::{Claims, PointEvent};
use site_base::{Answer, FpNo, Millilitres, NozzleNo, TillNo};

impl SiteParts {
    /// Does what has passed its checks, and answers it. What an event needs of its own stands in a
    /// function of its own, since a function pays at its entry for what each of its arms needs.
    #[inline(always)]
    pub(crate) fn perform(&mut self, ready: &Ready) -> Answer
        requires { MayDo self.old ready.now }
        ensures { Does self.old ready.now self.new result }
    {
        match ready {
            Ready::Tell(answer) => return *answer,
            Ready::SignOn(t) => self.signed_on.insert(*t),
            Ready::SignOff(t) => self.leave(*t),
            Ready::Command { point, event } => self.command(point, event),
            Ready::Take { point, event, till } => self.take(point, event, *till),
            Ready::GiveBack(point) => self.end_hold(point),
            Ready::Terminate(point) => return self.terminate(point),
            Ready::Lift { point, event } => return self.lift(point, event),
            Ready::Flow {
                point,
                nozzle,
                reading,
                growth,
            } => return self.flow(point, *nozzle, *reading, *growth),
            Ready::HangUp {
                point,
                nozzle,
                reading,
                growth,
            } => return self.hang_up(point, *nozzle, *reading, *growth),
            Ready::Offline(point) => return self.go_offline(point),
            Ready::ReplaceMeter {
                point,
                nozzle,
                reading,
            } => self.replace_meter(point, *nozzle, *reading),
            Ready::Ask {
                sale,
                request,
                till,
            } => return self.accounts.grant(sale, request, *till),
            Ready::SetPrice(q, price) => {
                self.prices.set(*q, *price);
            }
            Ready::CloseShift => return self.close_shift(),
        }
        Answer::Done
    }

    /// The till leaves: its locked transactions are payable again, its holds of points that are
    /// closed, idle or calling end, and it isn't signed on any more.
    pub(crate) fn leave(&mut self, t: TillNo)
        ensures site { site_of self.new ≡ accepted_site (site_of self.old) (Till t) SignOff }
        ensures room { room_of self.new ≡ room_of self.old }
    {
        self.accounts.release_all(t);
        end_holds(&self.points, &mut self.claims, t);
        self.signed_on.remove(t);
    }

    /// The point does this, and nothing else changes.
    fn command(&mut self, point: &FoundPoint, event: &PointEvent)
        requires { MayDo self.old (Ready.Command point.now event.now) }
        ensures { Does self.old (Ready.Command point.now event.now) self.new Answer.Done }
    {
        self.points.perform(point, *event);
    }

    /// The point does this, and the till takes its hold.
    fn take(&mut self, point: &FoundPoint, event: &PointEvent, till: TillNo)
        requires { MayDo self.old (Ready.Take point.now event.now till) }
        ensures { Does self.old (Ready.Take point.now event.now till) self.new Answer.Done }
    {
        self.points.perform(point, *event);
        self.claims.take(point.number, till);
    }

    /// The hold of the point ends.
    fn end_hold(&mut self, point: &FoundPoint)
        requires { MayDo self.old (Ready.GiveBack point.now) }
        ensures { Does self.old (Ready.GiveBack point.now) self.new Answer.Done }
    {
        self.points.perform(point, PointEvent::Unassign);
        self.claims.free(point.number);
    }

    /// The release of the point is taken back, and its hold ends; or its fuelling is ending.
    fn terminate(&mut self, point: &FoundPoint) -> Answer
        requires { MayDo self.old (Ready.Terminate point.now) }
        ensures { Does self.old (Ready.Terminate point.now) self.new result }
    {
        let step = self.points.perform(point, PointEvent::Terminate);
        give_back(&mut self.claims, point.number, &step);
        answer_to(&step)
    }

    /// A nozzle is taken out.
    fn lift(&mut self, point: &FoundPoint, event: &PointEvent) -> Answer
        requires { MayDo self.old (Ready.Lift point.now event.now) }
        ensures { Does self.old (Ready.Lift point.now event.now) self.new result }
    {
        answer_to(&self.points.perform(point, *event))
    }

    /// Fuel has flowed.
    fn flow(
        &mut self,
        point: &FoundPoint,
        nozzle: NozzleNo,
        reading: Millilitres,
        growth: u64,
    ) -> Answer
        requires { MayDo self.old (Ready.Flow point.now nozzle reading growth) }
        ensures { Does self.old (Ready.Flow point.now nozzle reading growth) self.new result }
    {
        let step = self
            .points
            .perform(point, PointEvent::Flow { nozzle, growth });
        self.meters.advance(point.number, nozzle, reading);
        answer_to(&step)
    }

    /// The nozzle is put back: a fuelling under way is over.
    fn hang_up(
        &mut self,
        point: &FoundPoint,
        nozzle: NozzleNo,
        reading: Millilitres,
        growth: u64,
    ) -> Answer
        requires { MayDo self.old (Ready.HangUp point.now nozzle reading growth) }
        ensures { Does self.old (Ready.HangUp point.now nozzle reading growth) self.new result }
    {
        let step = self
            .points
            .perform(point, PointEvent::HangUp { nozzle, growth });
        self.meters.advance(point.number, nozzle, reading);
        let answer = self.end(point.number, growth, &step);
        give_back(&mut self.claims, point.number, &step);
        answer
    }

    /// The point isn't reached any more: a fuelling under way is over, and the hold ends.
    fn go_offline(&mut self, point: &FoundPoint) -> Answer
        requires { MayDo self.old (Ready.Offline point.now) }
        ensures { Does self.old (Ready.Offline point.now) self.new result }
    {
        let step = self.points.perform(point, PointEvent::Offline);
        let answer = self.end(point.number, 0, &step);
        self.claims.free(point.number);
        answer
    }

    /// The meter of the nozzle is replaced.
    fn replace_meter(&mut self, point: &FoundPoint, nozzle: NozzleNo, reading: Millilitres)
        requires { MayDo self.old (Ready.ReplaceMeter point.now nozzle reading) }
        ensures { Does self.old (Ready.ReplaceMeter point.now nozzle reading) self.new Answer.Done }
    {
        self.points.perform(point, PointEvent::ReplaceMeter);
        self.meters.replace(point.number, nozzle, reading);
    }

    /// The open shift is closed.
    fn close_shift(&mut self) -> Answer
        requires { MayDo self.old Ready.CloseShift }
        ensures { Does self.old Ready.CloseShift self.new result }
    {
        Answer::ShiftClosed(self.accounts.close())
    }
}

/// Ends the till's holds of points that are closed, idle or calling. Every other hold stays.
fn end_holds(points: &Points, claims: &mut Claims, t: TillNo)
    ensures { claims.new ≡ holds_without points.now claims.old t }
{
    for row in points.rows() {
        end_hold_of(points, claims, t, row.0);
    }
}

/// Ends the till's hold of the point, if it has one and the point is closed, idle or calling.
fn end_hold_of(points: &Points, claims: &mut Claims, t: TillNo, p: FpNo)
    ensures { claims.new ≡ (if ends_at_sign_off points.now claims.old t p then finite.remove
        claims.old p else claims.old) }
{
    if points.rests(p) && claims.holder(p) == Some(t) {
        claims.free(p);
    }
}
