//! The figures of one shift.

ghost use Rattle.std.specs.Prelude.{◌≡◌};
ghost use Rattle.shift_ledger.specs.Figures.{adjusted_figure, empty_figures, with_clear, FitsClear};
ghost use Rattle.shift_ledger.specs.Figures.{with_draw, FitsDraw};

use site_base::{PRODUCT_CELLS, ProductNo, TILL_CELLS, TillNo};

/// The figures of a shift. They begin empty, and each clear and each draw of the shift adds to
/// them.
#[derive(Clone, Copy, Debug, PartialEq, Eq)]
pub struct ShiftRow {
    /// For each till, from 1 on: the number of transactions that it cleared, and their cents.
    pub tills: [(u64, u64); TILL_CELLS],
    /// For each product, from 1 on: the millilitres that were cleared.
    pub products: [u64; PRODUCT_CELLS],
    /// For each product, from 1 on: the cents of what was cleared.
    pub product_cents: [u64; PRODUCT_CELLS],
    /// For each product, from 1 on: the millilitres that tests drew.
    pub adjusted: [u64; PRODUCT_CELLS],
}

impl ShiftRow {
    /// Returns a shift in which nothing was cleared or drawn.
    pub fn empty() -> Self
        ensures { result ≡ empty_figures }
    {
        ShiftRow {
            tills: [(0, 0); TILL_CELLS],
            products: [0; PRODUCT_CELLS],
            product_cents: [0; PRODUCT_CELLS],
            adjusted: [0; PRODUCT_CELLS],
        }
    }

    /// Adds one clear by a till: this many millilitres and cents of this product. The sums have to
    /// fit in u64.
    pub fn note_cleared(&mut self, t: TillNo, q: ProductNo, ml: u64, cents: u64)
        requires { FitsClear t q ml cents self.old }
        ensures { self.new ≡ with_clear t q ml cents self.old }
    {
        let till = t.cell();
        let (clears, sum) = self.tills[till];
        self.tills[till] = (clears + 1, sum + cents);
        let product = q.cell();
        self.products[product] += ml;
        self.product_cents[product] += cents;
    }

    /// Adds one draw of a test: this many millilitres of this product. The sum has to fit in u64.
    pub fn note_drawn(&mut self, q: ProductNo, ml: u64)
        requires { FitsDraw q ml self.old }
        ensures { self.new ≡ with_draw q ml self.old }
    {
        self.adjusted[q.cell()] += ml;
    }

    /// Returns the millilitres that tests drew of a product.
    pub fn drawn_volume(&self, q: ProductNo) -> u64
        ensures { result ≡ adjusted_figure q self.now }
    {
        self.adjusted[q.cell()]
    }
}
