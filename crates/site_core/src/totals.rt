//! The totals that the site keeps.

ghost use Rattle.std.specs.Prelude.{◌≡◌, IfOk};
ghost use Rattle.written_site.specs.ShiftFigures.{product_totals, till_totals};
ghost use Rattle.written_site.specs.Sound.{Sound};
ghost use Rattle.site_core.specs.SiteParts.{site_of};

use crate::site_parts::SiteParts;
use site_base::{NoMemory, ProductView, TILL_CELLS, TillNo};
use std::alloc::Global;

impl SiteParts {
    /// Each product as a read shows it, in configured order.
    pub(crate) fn product_totals(&self, alloc: Global) -> Result<Vec<ProductView>, NoMemory>
        requires { Sound (site_of self.now) }
        ensures { IfOk result (λ products. products.items ≡ product_totals (site_of self.now)) }
    {
        let mut products = Vec::new(alloc);
        for (product, price) in self.prices.rows() {
            products.push(self.product_view(*product, *price))?;
        }
        Ok(products)
    }

    /// Each till that a site may have, with its clears and their cents.
    pub(crate) fn till_totals(&self, alloc: Global) -> Result<Vec<(TillNo, u64, u64)>, NoMemory>
        ensures { IfOk result (λ tills. tills.items ≡ till_totals (site_of self.now)) }
    {
        let mut tills = Vec::new(alloc);
        for cell in 0..TILL_CELLS {
            let till = TillNo::of_cell(cell);
            let (clears, cents) = self.accounts.till(till);
            tills.push((till, clears, cents))?;
        }
        Ok(tills)
    }
}
