//! The figures of some rows of a history.

ghost use Rattle.std.specs.Prelude.{◌≡◌, ◌-◌, IfOk, OnOk, ◌++◌, ◌∷◌, []};
ghost use Rattle.past_rows.specs.FiguresBetween.{figures_between, product_between};
ghost use Rattle.past_rows.specs.FiguresBetween.{products_between, till_between, tills_between};

use site_base::{Listing, NoMemory, ProductView, TillNo, Totals};
use std::alloc::Global;

/// Returns the figures of the rows between two moments of a history, whose totals are `before` and
/// `after`: the number of these rows, what they metered, cleared and adjusted of each product, and
/// what each till cleared. Running, payable and locked are those of the later moment.
pub fn figures_between(alloc: Global, before: &Totals, after: &Totals) -> Result<Totals, NoMemory>
    ensures { IfOk result (λ totals. totals ≡ figures_between before.now after.now) }
{
    let products = products_between(alloc, before.products.as_slice(), after.products.as_slice())?;
    let tills = tills_between(alloc, before.tills.as_slice(), after.tills.as_slice())?;
    Ok(Totals {
        rows: after.rows.saturating_sub(before.rows),
        products: Listing::from(products),
        tills: Listing::from(tills),
    })
}

/// Each product with its figures.
fn products_between(
    alloc: Global,
    before: &[ProductView],
    after: &[ProductView],
) -> Result<Vec<ProductView>, NoMemory>
    ensures { IfOk result (λ views. views.items ≡ products_between before.now after.now) }
{
    let mut views = Vec::new(alloc);
    for at in 0..before.len().min(after.len()) {
        views.push(product_between(&before[at], &after[at]))?;
    }
    Ok(views)
}

/// A product with its figures: what was metered, cleared and adjusted, and what stands.
fn product_between(before: &ProductView, after: &ProductView) -> ProductView
    ensures { result ≡ product_between before.now after.now }
{
    ProductView {
        metered: after.metered.saturating_sub(before.metered),
        cleared: after.cleared.saturating_sub(before.cleared),
        adjusted: after.adjusted.saturating_sub(before.adjusted),
        ..*after
    }
}

/// Each till with what it cleared.
fn tills_between(
    alloc: Global,
    before: &[(TillNo, u64, u64)],
    after: &[(TillNo, u64, u64)],
) -> Result<Vec<(TillNo, u64, u64)>, NoMemory>
    ensures { IfOk result (λ tills. tills.items ≡ tills_between before.now after.now) }
{
    let mut tills = Vec::new(alloc);
    for at in 0..before.len().min(after.len()) {
        tills.push(till_between(before[at], after[at]))?;
    }
    Ok(tills)
}

/// A till with what it cleared.
fn till_between(before: (TillNo, u64, u64), after: (TillNo, u64, u64)) -> (TillNo, u64, u64)
    ensures { result ≡ till_between before after }
{
    let (_, earlier_clears, earlier_cents) = before;
    let (till, clears, cents) = after;
    (
        till,
        clears.saturating_sub(earlier_clears),
        cents.saturating_sub(earlier_cents),
    )
}
