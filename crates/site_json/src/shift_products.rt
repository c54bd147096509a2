//! The products of a shift as JSON.

ghost use Rattle.std.specs.Prelude.{◌≡◌, map, IfOk};
ghost use Rattle.serde_json.specs.View.{view};
ghost use Rattle.shift_ledger.specs.Figures.{product_cents_figure, product_figure};
ghost use Rattle.site_book.specs.Book.{site_of_book};
ghost use Rattle.site_json.specs.ShiftProducts.{open_products, shift_product, shift_products};

use serde_json::{Value, json};
use shift_ledger::ShiftRow;
use site_base::{NoMemory, ProductEntry, ProductNo};
use site_book::SiteBook;
use std::alloc::{AllocError, Global};

/// Returns these products, in their order, each with its figures of a shift: the millilitres that
/// were cleared, their cents, and the millilitres that tests drew.
pub fn shift_product_values(
    alloc: Global,
    products: &[ProductEntry],
    row: &ShiftRow,
) -> Result<Vec<Value>, NoMemory>
    ensures { IfOk result (λ values.
        map view values.items ≡ shift_products row.now products.now) }
{
    let mut values = Vec::new(alloc);
    for product in products {
        values.push(shift_product_value(alloc, product, row)?)?;
    }
    Ok(values)
}

/// A product.
fn shift_product_value(
    alloc: Global,
    product: &ProductEntry,
    row: &ShiftRow,
) -> Result<Value, AllocError>
    ensures { IfOk result (λ value. view value ≡ shift_product row.now product.now) }
{
    let q = product.number;
    json!(in alloc; {
        "number": q.get(),
        "cleared": cleared_volume(row, q),
        "cents": cleared_cents(row, q),
        "drawn": row.drawn_volume(q)
    })
}

/// The millilitres of a product that were cleared.
fn cleared_volume(row: &ShiftRow, q: ProductNo) -> u64
    ensures { result ≡ product_figure q row.now }
{
    row.products[q.cell()]
}

/// Their cents.
fn cleared_cents(row: &ShiftRow, q: ProductNo) -> u64
    ensures { result ≡ product_cents_figure q row.now }
{
    row.product_cents[q.cell()]
}

/// The products of a book's site, in configured order, in the open shift.
pub(crate) fn open_product_values(alloc: Global, book: &SiteBook) -> Result<Vec<Value>, NoMemory>
    ensures { IfOk result (λ values. map view values.items
        ≡ open_products (site_of_book book.now) book.now.config.products) }
{
    match book.shift(book.open_shift()) {
        Some(row) => shift_product_values(alloc, book.config().products(), &row),
        None => Ok(Vec::new(alloc)),
    }
}
