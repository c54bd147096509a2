//! The checks of what a till asks of a transaction.

ghost use Rattle.std.specs.Prelude.{◌≡◌, Some, IfOk};
ghost use Rattle.site_base.specs.declared.actor.Actor.TheVariants.{Till};
ghost use Rattle.site_base.specs.Checks.{◌or_else◌};
ghost use Rattle.transaction_buffer.specs.FoundSales.{IsPlaced, key_of};
ghost use Rattle.written_site.specs.SiteState.{key_named};
ghost use Rattle.written_site.specs.SiteChecks.{is_sale_there, is_there};
ghost use Rattle.written_site.specs.Sound.{Sound};
ghost use Rattle.site_core.specs.Ready.{Checks, Passes};
ghost use Rattle.site_core.specs.SiteParts.{site_of};

use crate::ready::Ready;
use crate::site_parts::SiteParts;
use site_base::{Answer, Event, FpNo, Refusal, SaleId, TillNo};
use transaction_buffer::{FoundSale, Request};

impl SiteParts {
    pub(crate) fn check_lock(&self, t: TillNo, p: FpNo, id: &SaleId) -> Result<Ready, Refusal>
        ensures { Checks (site_of self.now) (Till t) (Event.Lock p id.now) result }
    {
        self.check_signed_on(t)?;
        let sale = self.check_sale_at(p, id)?;
        let request = Request::Lock;
        self.accounts.judge(&sale, &request, t)?;
        Ok(Ready::Ask {
            sale,
            request,
            till: t,
        })
    }

    pub(crate) fn check_unlock(&self, t: TillNo, p: FpNo, id: &SaleId) -> Result<Ready, Refusal>
        ensures { Checks (site_of self.now) (Till t) (Event.Unlock p id.now) result }
    {
        self.check_signed_on(t)?;
        let sale = self.check_sale_at(p, id)?;
        let request = Request::Unlock;
        self.accounts.judge(&sale, &request, t)?;
        Ok(Ready::Ask {
            sale,
            request,
            till: t,
        })
    }

    /// It is cleared in the open shift.
    pub(crate) fn check_clear(&self, t: TillNo, p: FpNo, id: &SaleId) -> Result<Ready, Refusal>
        requires { Sound (site_of self.now) }
        ensures { Checks (site_of self.now) (Till t) (Event.Clear p id.now) result }
    {
        self.check_signed_on(t)?;
        let sale = self.check_sale_at(p, id)?;
        let request = Request::Clear(self.open_shift());
        self.accounts.judge(&sale, &request, t)?;
        Ok(Ready::Ask {
            sale,
            request,
            till: t,
        })
    }

    pub(crate) fn check_read_sale(&self, t: TillNo, p: FpNo, id: &SaleId) -> Result<Ready, Refusal>
        ensures { Checks (site_of self.now) (Till t) (Event.ReadTransaction p id.now) result }
    {
        self.check_signed_on(t)?;
        let sale = self.check_sale_at(p, id)?;
        Ok(Ready::Tell(Answer::TransactionIs(self.accounts.view(&sale))))
    }

    /// The point is there, and the transaction that the till calls so.
    fn check_sale_at(&self, p: FpNo, id: &SaleId) -> Result<FoundSale, Refusal>
        ensures check { Passes (is_there (site_of self.now) (Some p)
            or_else is_sale_there (site_of self.now) (Some p) (Some id.now)) result }
        ensures key { IfOk result (λ sale. key_of sale ≡ key_named (site_of self.now) p id.now) }
        ensures placed { IfOk result (λ sale. IsPlaced sale (site_of self.now).sales) }
    {
        self.check_point(p)?;
        self.check_sale(p, id)
    }
}
