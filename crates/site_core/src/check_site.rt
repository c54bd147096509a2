//! The checks of what a till asks of the site itself: to sign on and off, reads, and what managers
//! note.

ghost use Rattle.std.specs.Prelude.{◌≡◌};
ghost use Rattle.site_base.specs.declared.actor.Actor.TheVariants.{Till};
ghost use Rattle.site_base.specs.declared.event.Event.TheVariants.{SignOn, SignOff};
ghost use Rattle.written_site.specs.Sound.{Sound};
ghost use Rattle.site_core.specs.Ready.{Checks};
ghost use Rattle.site_core.specs.SiteParts.{site_of};

use crate::checks::check_price;
use crate::ready::Ready;
use crate::site_parts::SiteParts;
use fuelling_point::PointEvent;
use site_base::{
    Answer, Event, FpNo, Millilitres, NozzleNo, PointView, ProductNo, Refusal, SiteView, TillNo,
};

impl SiteParts {
    /// The till isn't signed on.
    pub(crate) fn check_sign_on(&self, t: TillNo) -> Result<Ready, Refusal>
        ensures { Checks (site_of self.now) (Till t) SignOn result }
    {
        if self.signed_on.contains(t) {
            return Err(Refusal::SignedOn);
        }
        Ok(Ready::SignOn(t))
    }

    pub(crate) fn check_sign_off(&self, t: TillNo) -> Result<Ready, Refusal>
        ensures { Checks (site_of self.now) (Till t) SignOff result }
    {
        self.check_signed_on(t)?;
        Ok(Ready::SignOff(t))
    }

    pub(crate) fn check_read_point(&self, t: TillNo, p: FpNo) -> Result<Ready, Refusal>
        ensures { Checks (site_of self.now) (Till t) (Event.ReadPoint p) result }
    {
        self.check_signed_on(t)?;
        let point = self.check_point(p)?;
        Ok(Ready::Tell(Answer::PointIs(PointView {
            holder: self.claims.holder(p),
            ..self.points.view(&point)
        })))
    }

    pub(crate) fn check_read_product(&self, t: TillNo, q: ProductNo) -> Result<Ready, Refusal>
        requires { Sound (site_of self.now) }
        ensures { Checks (site_of self.now) (Till t) (Event.ReadProduct q) result }
    {
        self.check_signed_on(t)?;
        let price = self.check_product(q)?;
        Ok(Ready::Tell(Answer::ProductIs(self.product_view(q, price))))
    }

    pub(crate) fn check_read_site(&self, t: TillNo) -> Result<Ready, Refusal>
        requires { Sound (site_of self.now) }
        ensures { Checks (site_of self.now) (Till t) Event.ReadSite result }
    {
        self.check_signed_on(t)?;
        Ok(Ready::Tell(Answer::SiteIs(SiteView {
            cents: self.accounts.takings(),
            shift: self.open_shift(),
        })))
    }

    /// A manager notes that the nozzle's meter was replaced by one that begins with this reading.
    pub(crate) fn check_replace_meter(
        &self,
        t: TillNo,
        p: FpNo,
        n: NozzleNo,
        reading: Millilitres,
    ) -> Result<Ready, Refusal>
        ensures { Checks (site_of self.now) (Till t) (Event.ReplaceMeter p n reading) result }
    {
        self.check_signed_on(t)?;
        let point = self.check_point(p)?;
        self.check_nozzle(p, n)?;
        self.check_manager(t)?;
        self.points.judge(&point, &PointEvent::ReplaceMeter)?;
        self.check_replaceable(p, n)?;
        Ok(Ready::ReplaceMeter {
            point,
            nozzle: n,
            reading,
        })
    }

    /// A manager gives a product this price.
    pub(crate) fn check_set_price(
        &self,
        t: TillNo,
        q: ProductNo,
        price: u32,
    ) -> Result<Ready, Refusal>
        ensures { Checks (site_of self.now) (Till t) (Event.SetPrice q price) result }
    {
        self.check_signed_on(t)?;
        self.check_product(q)?;
        self.check_manager(t)?;
        Ok(Ready::SetPrice(q, check_price(price)?))
    }

    /// A manager closes the open shift.
    pub(crate) fn check_close_shift(&self, t: TillNo) -> Result<Ready, Refusal>
        ensures { Checks (site_of self.now) (Till t) Event.CloseShift result }
    {
        self.check_signed_on(t)?;
        self.check_manager(t)?;
        self.check_not_last()?;
        Ok(Ready::CloseShift)
    }
}
