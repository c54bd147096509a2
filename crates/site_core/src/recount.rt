//! The totals of the site and the figures of its shifts, counted from its lists of nozzles, points,
//! sales and each shift's draws. No total that is kept is read.

ghost use Rattle.std.specs.Prelude.{◌≡◌, ◌*◌, IfOk, map};
ghost use Rattle.meters.specs.MeteredVolumes.{product_alone};
ghost use Rattle.written_site.specs.ShiftFigures.{cleared_in, product_cents_in, product_totals};
ghost use Rattle.written_site.specs.ShiftFigures.{till_totals, tills};
ghost use Rattle.written_site.specs.Sound.{IsPointSound, Sound};
ghost use Rattle.written_site.specs.Volumes.{product_out, product_view, running_volume, running_at};
ghost use Rattle.site_core.specs.Accounts.{products, shift_row, takings_of};
ghost use Rattle.site_core.specs.SiteParts.{site_of};

use crate::site_parts::SiteParts;
use fuelling_point::Point;
use shift_ledger::ShiftRow;
use site_base::{
    FpNo, Mills, NoMemory, PRODUCT_CELLS, ProductNo, ProductView, ShiftNo, Status, TILL_CELLS,
    TillNo,
};
use std::alloc::Global;
use transaction_buffer::Figure;

impl SiteParts {
    /// Each product as a read shows it, in configured order.
    pub(crate) fn recount_products(&self, alloc: Global) -> Result<Vec<ProductView>, NoMemory>
        requires { Sound (site_of self.now) }
        ensures { IfOk result (λ products. products.items ≡ product_totals (site_of self.now)) }
    {
        let mut products = Vec::new(alloc);
        for (product, price) in self.prices.rows() {
            products.push(self.recount_view(*product, *price))?;
        }
        Ok(products)
    }

    /// Each till that a site may have, with its clears and their cents.
    pub(crate) fn recount_tills(&self, alloc: Global) -> Result<Vec<(TillNo, u64, u64)>, NoMemory>
        requires { Sound (site_of self.now) }
        ensures { IfOk result (λ tills. tills.items ≡ till_totals (site_of self.now)) }
    {
        let mut tills = Vec::new(alloc);
        for cell in 0..TILL_CELLS {
            let till = TillNo::of_cell(cell);
            let clears = self.accounts.recount(&Figure::Clears(till));
            let cents = self.accounts.recount(&Figure::Cents(till));
            tills.push((till, clears, cents))?;
        }
        Ok(tills)
    }

    /// The product at this price, as a read shows it.
    fn recount_view(&self, q: ProductNo, price: Mills) -> ProductView
        requires { Sound (site_of self.now) }
        ensures { result ≡ product_view (site_of self.now) q price }
    {
        ProductView {
            price,
            metered: self.meters.recount(q),
            running: self.recount_running(q),
            payable: self.accounts.recount(&Figure::Volume(q, Status::Payable)),
            locked: self.accounts.recount(&Figure::Volume(q, Status::Locked)),
            cleared: self.accounts.recount(&Figure::Volume(q, Status::Cleared)),
            adjusted: self.accounts.recount_drawn(q),
        }
    }

    /// The millilitres of product q in fuellings under way.
    fn recount_running(&self, q: ProductNo) -> u64
        requires { Sound (site_of self.now) }
        ensures { result ≡ running_volume (site_of self.now) q }
    {
        let mut sum = 0;
        for (p, point) in self.points.rows() {
            sum += self.running_at(*p, point, q);
        }
        sum
    }

    /// The millilitres of product q in the fuelling under way at a point: what the meter of the
    /// nozzle that is out reads, less what it read at the start. 0 where none is under way, or
    /// another product flows.
    fn running_at(&self, p: FpNo, point: &Point, q: ProductNo) -> u64
        requires { IsPointSound (site_of self.now) p point.now }
        ensures { result ≡ product_alone q (product_out (site_of self.now).nozzles p point.now)
            * running_at (site_of self.now).nozzles p point.now }
    {
        let (Some(start), Some(nozzle)) = (point.start(), point.view().out) else {
            return 0;
        };
        match (self.meters.product(p, nozzle), self.meters.last(p, nozzle)) {
            (Some(product), Some(last)) if product.get() == q.get() => last.get() - start.get(),
            _ => 0,
        }
    }

    /// The figures of shift n, the open one's too. None for shifts to come.
    pub(crate) fn counted_shift(&self, n: ShiftNo) -> Option<ShiftRow>
        requires { Sound (site_of self.now) }
        ensures { result ≡ shift_row n (site_of self.now).sales (site_of self.now).drawn }
    {
        let adjusted = self.accounts.draws(n)?;
        Some(ShiftRow {
            tills: self.recount_takings(n),
            products: self.recount_cleared(n),
            product_cents: self.recount_product_cents(n),
            adjusted,
        })
    }

    /// What each till, from 1 on, cleared in shift n: how many sales, and their cents.
    fn recount_takings(&self, n: ShiftNo) -> [(u64, u64); TILL_CELLS]
        requires { Sound (site_of self.now) }
        ensures { result ≡ map (takings_of n (site_of self.now).sales) tills }
    {
        let mut takings = [(0, 0); TILL_CELLS];
        for cell in 0..TILL_CELLS {
            let till = TillNo::of_cell(cell);
            let clears = self.accounts.recount(&Figure::ClearsIn(n, till));
            let cents = self.accounts.recount(&Figure::CentsIn(n, till));
            takings[cell] = (clears, cents);
        }
        takings
    }

    /// What was cleared in shift n of each product, from 1 on, in millilitres.
    fn recount_cleared(&self, n: ShiftNo) -> [u64; PRODUCT_CELLS]
        requires { Sound (site_of self.now) }
        ensures { result ≡ map (λ q. cleared_in n q (site_of self.now).sales) products }
    {
        let mut cleared = [0; PRODUCT_CELLS];
        for cell in 0..PRODUCT_CELLS {
            let product = ProductNo::of_cell(cell);
            cleared[cell] = self.accounts.recount(&Figure::ClearedIn(n, product));
        }
        cleared
    }

    /// The cents of what was cleared in shift n of each product, from 1 on.
    fn recount_product_cents(&self, n: ShiftNo) -> [u64; PRODUCT_CELLS]
        requires { Sound (site_of self.now) }
        ensures { result ≡ map (λ q. product_cents_in n q (site_of self.now).sales) products }
    {
        let mut sums = [0; PRODUCT_CELLS];
        for cell in 0..PRODUCT_CELLS {
            let product = ProductNo::of_cell(cell);
            sums[cell] = self.accounts.recount(&Figure::ProductCentsIn(n, product));
        }
        sums
    }
}
