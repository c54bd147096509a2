//! The figures of the book: as the site keeps them, and counted again from the rows.

ghost use Rattle.std.specs.Prelude.{◌≡◌, length, IfOk};
ghost use Rattle.site_book.specs.Figures.{AddUp, AreFiguresOf, DoFiguresAddUp};

use crate::audit::audit_rows;
use crate::book::SiteBook;
use site_base::{NoMemory, Totals};
use std::alloc::Global;

impl SiteBook {
    /// Returns the figures of the rows, as the site keeps them, with one member for each product of
    /// the configuration. They add up to what the rows tell as metered and as cleared.
    #[tactic(auto, using(crate::proofs::ProductCounts::one_for_each_product))]
    pub fn totals(&self, alloc: Global) -> Result<Totals, NoMemory>
        ensures figures { IfOk result (λ totals. AreFiguresOf self.now totals) }
        ensures products { IfOk result (λ totals.
            length totals.products ≡ length self.now.config.products) }
        ensures sums { IfOk result (λ totals. AddUp self.now totals) }
    {
        self.sums();
        self.site.totals(alloc, self.len())
    }

    /// Returns the figures of the rows, computed again only from the configuration and the rows, as
    /// `audit_rows` does. The site that the book keeps isn't read. The book has to have all its
    /// rows in memory.
    #[tactic(auto, using(crate::proofs::ProductCounts::one_for_each_product))]
    pub fn audit(&self, alloc: Global) -> Result<Totals, NoMemory>
        requires whole { self.now.forgotten ≡ 0 }
        ensures figures { IfOk result (λ totals. AreFiguresOf self.now totals) }
        ensures products { IfOk result (λ totals.
            length totals.products ≡ length self.now.config.products) }
        ensures sums { IfOk result (λ totals. AddUp self.now totals) }
    {
        self.sums();
        audit_rows(alloc, &self.config, &self.rows)
    }

    /// What its figures add up to: by the rows' legality, their ranges, and the configuration.
    fn sums(&self)
        ensures { DoFiguresAddUp self.now }
    {
        let _ = self.config.products();
        let _ = self.config.points();
    }
}
