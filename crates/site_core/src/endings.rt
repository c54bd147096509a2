//! The end of a fuelling: its sale, or the draw of a test.

ghost use Rattle.std.specs.Prelude.{◌≡◌, ℕ, ◌<◌, Some, true, is_some};
ghost use Rattle.transaction_buffer.specs.Rooms.{room_at};
ghost use Rattle.transaction_buffer.specs.Sales.{new_sale, is_new};
ghost use Rattle.written_site.specs.SiteState.{open_shift};
ghost use Rattle.written_site.specs.SiteStep.{first_locker, holds_unless_over, step_told};
ghost use Rattle.site_core.specs.Endings.{draws_with, MayEnd, sale_told, sales_with};
ghost use Rattle.site_core.specs.Views.{room_sold};
ghost use Rattle.site_core.specs.SiteParts.{room_of, site_of};
ghost use Rattle.meters.specs.Nozzles.{product_of};

use crate::answers::answer_to;
use crate::site_parts::SiteParts;
use fuelling_point::{Claims, PointStep};
use site_base::{
    Answer, FpNo, Millilitres, Mills, NozzleNo, ProductNo, Seq, Status, TillNo, TransactionView,
    amount_of,
};

impl SiteParts {
    /// Tells a step of the point, which took this growth. Where it ends a fuelling, its sale or its
    /// draw is noted; the hold is looked at for the sale's locker, and stays.
    pub(crate) fn end(&mut self, p: FpNo, growth: u64, step: &PointStep) -> Answer
        requires room { 0 < room_at p self.old.accounts.rooms }
        requires place { MayEnd (site_of self.old) p step.now }
        ensures told { result ≡ step_told (site_of self.old) p growth step.now }
        ensures room { room_of self.new ≡ room_sold p result (room_of self.old) }
        ensures site { site_of self.new ≡ record (site_of self.old) {
          sales = sales_with (site_of self.old) p step.now;
          drawn = draws_with (site_of self.old) p step.now;
        } }
    {
        match step {
            PointStep::Sold {
                nozzle,
                volume,
                price,
                prepaid,
            } => {
                let product = self.product(p, *nozzle);
                let view = self.sale_view(p, product, *volume, *price, *prepaid);
                let seq = self.accounts.add(p, view);
                Answer::Sold { seq, growth }
            }
            PointStep::Drawn { nozzle, volume } => {
                let product = self.product(p, *nozzle);
                self.accounts.note_drawn(product, volume.get());
                Answer::Drawn { growth }
            }
            _ => answer_to(step),
        }
    }

    /// The sale of a fuelling of the point, as it begins: a prepaid one is locked by the holder of
    /// the point, where that till is signed on.
    fn sale_view(
        &self,
        p: FpNo,
        product: ProductNo,
        volume: Millilitres,
        price: Mills,
        prepaid: Option<u32>,
    ) -> TransactionView
        ensures new { is_new result ≡ true }
        ensures volume { result.volume ≡ volume }
        ensures product { result.product ≡ product }
        ensures sale { (nozzle : ℕ) → product_of p nozzle (site_of self.now).nozzles ≡ Some product
            → new_sale (open_shift (site_of self.now)) result
            ≡ sale_told (site_of self.now) p nozzle volume price prepaid }
    {
        let till = self.first_locker(p, prepaid);
        TransactionView {
            price,
            volume,
            cents: amount_of(volume, price),
            prepaid,
            status: match till {
                None => Status::Payable,
                Some(_) => Status::Locked,
            },
            till,
            product,
        }
    }

    /// The till that has locked a sale from its beginning: of a prepaid one the holder, where it is
    /// signed on.
    fn first_locker(&self, p: FpNo, prepaid: Option<u32>) -> Option<TillNo>
        ensures { result ≡ first_locker (site_of self.now) p prepaid }
    {
        match prepaid {
            None => None,
            Some(_) => match self.claims.holder(p) {
                Some(t) if self.signed_on.contains(t) => Some(t),
                _ => None,
            },
        }
    }

    /// The product of a nozzle that is there.
    fn product(&self, p: FpNo, n: NozzleNo) -> ProductNo
        requires { is_some (product_of p n (site_of self.now).nozzles) ≡ true }
        ensures value { product_of p n (site_of self.now).nozzles ≡ Some result }
    {
        match self.meters.product(p, n) {
            Some(product) => product,
            // The nozzle is there.
            None => unreachable!(),
        }
    }
}

/// Gives back the hold of the point if this step ends what it was released for.
pub fn give_back(claims: &mut Claims, p: FpNo, step: &PointStep)
    ensures { claims.new ≡ holds_unless_over p step.now claims.old }
{
    let over = matches!(
        step,
        PointStep::Stopped | PointStep::NoSale | PointStep::Sold { .. } | PointStep::Drawn { .. }
    );
    if over {
        claims.free(p);
    }
}
