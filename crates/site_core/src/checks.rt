//! The site's checks, each named for what it checks. An event's own functions call those that it
//! needs, in the order of the rules.

ghost use Rattle.std.specs.Prelude.{◌≡◌, true, false, not, is_some, nat_lt, ◌==◌, None, Some, IfOk};
ghost use Rattle.std.specs.Prelude.{OnOk};
ghost use Rattle.site_base.specs.declared.numbers.TheConstants.{GREATEST_SHIFT};
ghost use Rattle.site_base.specs.declared.amounts.TheConstants.{GREATEST_PRICE};
ghost use Rattle.meters.specs.declared.meter.TheConstants.{REPLACEMENT_LIMIT};
ghost use Rattle.site_base.specs.declared.refusal.Refusal.TheVariants.{BadPreset, BadPrice};
ghost use Rattle.site_base.specs.declared.refusal.Refusal.TheVariants.{MeterSpent, NotManager};
ghost use Rattle.site_base.specs.declared.refusal.Refusal.TheVariants.{NotSignedOn, NotYours};
ghost use Rattle.site_base.specs.declared.refusal.Refusal.TheVariants.{NotYourPoint, ShiftsSpent};
ghost use Rattle.site_base.specs.Checks.{unless};
ghost use Rattle.site_base.specs.Ranges.{is_between};
ghost use Rattle.site_base.specs.Table.{row_of};
ghost use Rattle.meters.specs.Nozzles.{times_replaced};
ghost use Rattle.transaction_buffer.specs.FoundSales.{IsPlaced, key_of};
ghost use Rattle.written_site.specs.SiteState.{holder_of, is_manager, is_signed_on, key_named};
ghost use Rattle.written_site.specs.SiteState.{open_shift};
ghost use Rattle.written_site.specs.SiteChecks.{free_for, is_nozzle_there, is_preset};
ghost use Rattle.written_site.specs.SiteChecks.{is_product_there, is_sale_there, is_there};
ghost use Rattle.written_site.specs.SiteChecks.{may_sell, numbers};
ghost use Rattle.site_core.specs.FoundPoints.{IsFound};
ghost use Rattle.site_core.specs.Ready.{Passes};
ghost use Rattle.site_core.specs.SiteParts.{site_of};

use crate::points::FoundPoint;
use crate::site_parts::SiteParts;
use meters::REPLACEMENT_LIMIT;
use site_base::{
    Event, FpNo, GREATEST_PRESET, GREATEST_SHIFT, Mills, NozzleNo, Preset, ProductNo, Refusal,
    SaleId, TillNo,
};
use transaction_buffer::{FoundSale, UNPAID_LIMIT};

impl SiteParts {
    /// The till is signed on.
    pub(crate) fn check_signed_on(&self, t: TillNo) -> Result<(), Refusal>
        ensures { Passes (unless (is_signed_on (site_of self.now) t) NotSignedOn) result }
    {
        unless(self.signed_on.contains(t), Refusal::NotSignedOn)
    }

    /// The point, the nozzle, the product and the transaction that the event names are there.
    pub(crate) fn check_named(&self, event: &Event) -> Result<(), Refusal>
        ensures { Passes (numbers (site_of self.now) event.now) result }
    {
        if let Some(p) = event.point() {
            self.check_point(p)?;
        }
        if let Some(p) = event.point()
            && let Some(n) = event.nozzle()
        {
            self.check_nozzle(p, n)?;
        }
        if let Some(q) = event.product() {
            self.check_product(q)?;
        }
        if let Some(p) = event.point()
            && let Some(id) = event.sale()
        {
            self.check_sale(p, &id)?;
        }
        Ok(())
    }

    /// The point is there.
    pub(crate) fn check_point(&self, p: FpNo) -> Result<FoundPoint, Refusal>
        ensures check { Passes (is_there (site_of self.now) (Some p)) result }
        ensures number { IfOk result (λ point. point.number ≡ p) }
        ensures found { IfOk result (λ point. IsFound point (site_of self.now).points) }
    {
        match self.points.find(p) {
            Some(point) => Ok(point),
            None => Err(Refusal::NoSuchPoint),
        }
    }

    /// The nozzle is there, at the point.
    pub(crate) fn check_nozzle(&self, p: FpNo, n: NozzleNo) -> Result<(), Refusal>
        ensures { Passes (is_nozzle_there (site_of self.now) (Some p) (Some n)) result }
    {
        unless(self.meters.contains(p, n), Refusal::NoSuchNozzle)
    }

    /// The product is there: it has this price today.
    pub(crate) fn check_product(&self, q: ProductNo) -> Result<Mills, Refusal>
        ensures check { Passes (is_product_there (site_of self.now) (Some q)) result }
        ensures price { IfOk result (λ price. row_of q (site_of self.now).prices ≡ Some price) }
    {
        match self.prices.get(q) {
            Some(price) => Ok(price),
            None => Err(Refusal::NoSuchProduct),
        }
    }

    /// The transaction that a till calls so is there.
    pub(crate) fn check_sale(&self, p: FpNo, id: &SaleId) -> Result<FoundSale, Refusal>
        ensures check { Passes (is_sale_there (site_of self.now) (Some p) (Some id.now)) result }
        ensures key { IfOk result (λ sale. key_of sale ≡ key_named (site_of self.now) p id.now) }
        ensures placed { IfOk result (λ sale. IsPlaced sale (site_of self.now).sales) }
    {
        match self.find_sale(p, id) {
            Some(sale) => Ok(sale),
            None => Err(Refusal::NoSuchTransaction),
        }
    }

    /// It is the dispenser's own point.
    pub(crate) fn check_own(&self, d: FpNo, p: FpNo) -> Result<(), Refusal>
        ensures { Passes (unless (p == d) NotYourPoint) result }
    {
        unless(p == d, Refusal::NotYourPoint)
    }

    /// The till is a manager.
    pub(crate) fn check_manager(&self, t: TillNo) -> Result<(), Refusal>
        ensures { Passes (unless (is_manager (site_of self.now) t) NotManager) result }
    {
        unless(self.managers.contains(t), Refusal::NotManager)
    }

    /// No other till holds the point.
    pub(crate) fn check_not_held(&self, t: TillNo, p: FpNo) -> Result<(), Refusal>
        ensures { Passes (free_for t (holder_of (site_of self.now) p)) result }
    {
        match self.claims.holder(p) {
            Some(holder) if holder != t => Err(Refusal::AssignedToOther(holder)),
            _ => Ok(()),
        }
    }

    /// The point is held.
    pub(crate) fn check_held(&self, p: FpNo) -> Result<(), Refusal>
        ensures { Passes (unless (is_some (holder_of (site_of self.now) p)) NotYours) result }
    {
        unless(self.claims.holder(p).is_some(), Refusal::NotYours)
    }

    /// The point may make one more sale: fewer than two are unpaid, and the open shift has a
    /// number.
    pub(crate) fn check_may_sell(&self, p: FpNo) -> Result<(), Refusal>
        ensures { Passes (may_sell (site_of self.now) p) result }
    {
        unless(self.accounts.unpaid(p) < UNPAID_LIMIT, Refusal::BufferFull)?;
        unless(self.accounts.next_seq(p).is_some(), Refusal::SequenceSpent)
    }

    /// The meter of a nozzle may be replaced once more.
    pub(crate) fn check_replaceable(&self, p: FpNo, n: NozzleNo) -> Result<(), Refusal>
        ensures { Passes (unless (nat_lt (times_replaced p n (site_of self.now).nozzles)
            REPLACEMENT_LIMIT) MeterSpent) result }
    {
        let spent = match self.meters.replacements(p, n) {
            Some(replaced) => replaced >= REPLACEMENT_LIMIT,
            None => false,
        };
        unless(!spent, Refusal::MeterSpent)
    }

    /// The open shift isn't the last one that may be.
    pub(crate) fn check_not_last(&self) -> Result<(), Refusal>
        ensures { Passes (unless (not (open_shift (site_of self.now) == GREATEST_SHIFT))
            ShiftsSpent) result }
    {
        unless(
            self.open_shift().get() != GREATEST_SHIFT,
            Refusal::ShiftsSpent,
        )
    }
}

/// Checks that the price is in range; otherwise `BadPrice`.
pub fn check_price(price: u32) -> Result<Mills, Refusal>
    ensures check { Passes (unless (is_between 1 GREATEST_PRICE price) BadPrice) result }
    ensures value { IfOk result (λ mills. mills ≡ price) }
{
    match Mills::new(price) {
        Some(mills) => Ok(mills),
        None => Err(Refusal::BadPrice),
    }
}

/// Checks that the preset is a volume or a sum of money to which a release may be limited;
/// otherwise `BadPreset`.
pub fn check_preset(preset: Preset) -> Result<(), Refusal>
    ensures { Passes (unless (is_preset preset) BadPreset) result }
{
    let fits = match preset {
        Preset::Unset => true,
        Preset::Volume(millilitres) => 1 <= millilitres && millilitres <= GREATEST_PRESET,
        Preset::Money(cents) => 1 <= cents && cents <= GREATEST_PRESET,
    };
    unless(fits, Refusal::BadPreset)
}

/// A check that fails where this isn't so.
fn unless(holds: bool, refusal: Refusal) -> Result<(), Refusal>
    ensures { Passes (unless holds refusal) result }
{
    if holds { Ok(()) } else { Err(refusal) }
}
