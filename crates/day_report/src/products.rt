//! The products as JSON.

ghost use Rattle.std.specs.Prelude.{◌≡◌, [], ◌∷◌, ◌++◌, map, IfOk, OnOk};
ghost use Rattle.serde_json.specs.View.{view};
ghost use Rattle.day_report.specs.Products.{product_data, products_data};

use serde_json::{Value, json};
use site_base::{NoMemory, ProductEntry, ProductView};
use std::alloc::{AllocError, Global};

/// Returns each product with its figures, in configured order.
pub fn product_values(
    alloc: Global,
    products: &[ProductEntry],
    views: &[ProductView],
) -> Result<Vec<Value>, NoMemory>
    ensures { IfOk result (λ values.
        map view values.items ≡ products_data products.now views.now) }
{
    let mut values = Vec::new(alloc);
    for at in 0..products.len().min(views.len()) {
        add_product(alloc, &products[at], &views[at], &mut values)?;
    }
    Ok(values)
}

/// Adds a product.
fn add_product(
    alloc: Global,
    product: &ProductEntry,
    figures: &ProductView,
    values: &mut Vec<Value>,
) -> Result<(), NoMemory>
    ensures { OnOk result (map view values.new.items
        ≡ map view values.old.items ++ product_data product.now figures.now ∷ []) }
{
    values.push(product_value(alloc, product, figures)?)?;
    Ok(())
}

/// A product of the configuration with the figures of a read.
fn product_value(
    alloc: Global,
    product: &ProductEntry,
    figures: &ProductView,
) -> Result<Value, AllocError>
    ensures { IfOk result (λ value. view value ≡ product_data product.now figures.now) }
{
    json!(in alloc; {
        "number": product.number.get(),
        "name": product.name.as_str(),
        "mills": figures.price.get(),
        "metered": figures.metered,
        "running": figures.running,
        "payable": figures.payable,
        "locked": figures.locked,
        "cleared": figures.cleared,
        "adjusted": figures.adjusted
    })
}
