//! What reads show of the site.

ghost use Rattle.std.specs.Prelude.{◌≡◌, is_some, IfSome};
ghost use Rattle.meters.specs.Nozzles.{last_of};
ghost use Rattle.transaction_buffer.specs.FoundSales.{IsPlaced, key_of};
ghost use Rattle.transaction_buffer.specs.Sales.{has_sale, key, sale_of};
ghost use Rattle.written_site.specs.SiteState.{key_named, open_shift, view_point, price_of};
ghost use Rattle.written_site.specs.SiteState.{view_sale};
ghost use Rattle.written_site.specs.Sound.{Sound};
ghost use Rattle.written_site.specs.Volumes.{product_view};
ghost use Rattle.site_core.specs.SiteParts.{site_of};
ghost use Rattle.site_core.specs.Views.{product_lifted};

use crate::site_parts::SiteParts;
use site_base::{
    FpNo, Millilitres, Mills, NozzleNo, PointView, ProductNo, ProductView, SaleId, Seq, ShiftNo,
    Status, TransactionView,
};
use transaction_buffer::{FoundSale, Sale};

impl SiteParts {
    /// The product at this price, as a read shows it. What is in fuellings under way is what the
    /// meters have counted and no sale or draw has.
    pub(crate) fn product_view(&self, q: ProductNo, price: Mills) -> ProductView
        requires { Sound (site_of self.now) }
        ensures { result ≡ product_view (site_of self.now) q price }
    {
        let metered = self.meters.product_total(q);
        let payable = self.accounts.sum(q, Status::Payable);
        let locked = self.accounts.sum(q, Status::Locked);
        let cleared = self.accounts.sum(q, Status::Cleared);
        let adjusted = self.accounts.drawn_volume(q);
        ProductView {
            price,
            metered,
            running: metered - payable - locked - cleared - adjusted,
            payable,
            locked,
            cleared,
            adjusted,
        }
    }

    /// Returns the point as a read shows it.
    pub fn view_point(&self, p: FpNo) -> Option<PointView>
        ensures { result ≡ view_point (site_of self.now) p }
    {
        match self.points.find(p) {
            Some(point) => Some(PointView {
                holder: self.claims.holder(p),
                ..self.points.view(&point)
            }),
            None => None,
        }
    }

    /// Returns the transaction with this name of a till, as a read shows it.
    pub fn view_sale(&self, p: FpNo, id: &SaleId) -> Option<TransactionView>
        ensures { result ≡ view_sale (site_of self.now) p id.now }
    {
        match self.find_sale(p, id) {
            Some(sale) => Some(self.accounts.view(&sale)),
            None => None,
        }
    }

    /// The sale of this point in this shift with this number.
    pub(crate) fn sale(&self, p: FpNo, shift: ShiftNo, number: Seq) -> Option<Sale>
        ensures { result ≡ sale_of (key shift p number) (site_of self.now).sales }
    {
        match self.accounts.find(p, shift, number) {
            Some(found) => Some(self.accounts.sale(&found)),
            None => None,
        }
    }

    /// The product of the nozzle that is out at the point.
    pub(crate) fn product_out(&self, p: FpNo) -> Option<ProductNo>
        ensures { result ≡ product_lifted (site_of self.now) p }
    {
        match &self.points.find(p) {
            Some(point) => match self.points.view(point).out {
                Some(nozzle) => self.meters.product(p, nozzle),
                None => None,
            },
            None => None,
        }
    }

    /// The transaction that a till calls so: of the open shift, where it names none.
    pub(crate) fn find_sale(&self, p: FpNo, id: &SaleId) -> Option<FoundSale>
        ensures there { is_some result
            ≡ has_sale (key_named (site_of self.now) p id.now) (site_of self.now).sales }
        ensures key { IfSome result (λ sale.
            key_of sale ≡ key_named (site_of self.now) p id.now) }
        ensures placed { IfSome result (λ sale. IsPlaced sale (site_of self.now).sales) }
    {
        let shift = match id.shift {
            Some(shift) => shift,
            None => self.open_shift(),
        };
        self.accounts.find(p, shift, id.seq)
    }

    /// The number of the open shift.
    pub(crate) fn open_shift(&self) -> ShiftNo
        ensures { result ≡ open_shift (site_of self.now) }
    {
        self.accounts.open_shift()
    }

    /// The last reading of the nozzle.
    pub(crate) fn reading(&self, p: FpNo, n: NozzleNo) -> Option<Millilitres>
        ensures { result ≡ last_of p n (site_of self.now).nozzles }
    {
        self.meters.last(p, n)
    }

    /// Today's price of the nozzle's product.
    pub(crate) fn price_of(&self, p: FpNo, n: NozzleNo) -> Option<Mills>
        ensures { result ≡ price_of (site_of self.now).nozzles (site_of self.now).prices p n }
    {
        match self.meters.product(p, n) {
            Some(product) => self.prices.get(product),
            None => None,
        }
    }
}
