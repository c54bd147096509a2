//! The report as JSON.

ghost use Rattle.std.specs.Prelude.{◌≡◌, map, IfOk, string_bytes};
ghost use Rattle.serde_json.specs.View.{view};
ghost use Rattle.day_report.specs.Json.{cleared_data, json_text, report_data};

use crate::products::product_values;
use serde_json::{Value, json};
use site_base::{NoMemory, ProductEntry, TillNo, Totals};
use std::alloc::{AllocError, Global};

/// Returns the report of these totals as one object on one line: the number of rows, the figures of
/// each product, the clears of each till in all shifts and their cents, and how many shares
/// settled. It sums nothing over the tills.
pub fn report_as_json(
    alloc: Global,
    products: &[ProductEntry],
    totals: &Totals,
    shares: u64,
) -> Result<String, NoMemory>
    ensures { IfOk result (λ text.
        string_bytes text ≡ json_text products.now totals.now shares) }
{
    let mut text = report_value(alloc, products, totals, shares)?.to_string(alloc)?;
    text.push('\n')?;
    Ok(text)
}

/// The object.
fn report_value(
    alloc: Global,
    products: &[ProductEntry],
    totals: &Totals,
    shares: u64,
) -> Result<Value, NoMemory>
    ensures { IfOk result (λ value. view value ≡ report_data products.now totals.now shares) }
{
    let figures = totals.products.as_slice();
    let products = Value::Array(product_values(alloc, products, figures)?);
    let tills = Value::Array(cleared_values(alloc, totals.tills.as_slice())?);
    let value = json!(in alloc; {
        "products": products,
        "rows": totals.rows,
        "shares": shares,
        "tills": tills
    })?;
    Ok(value)
}

/// Each till with its clears.
fn cleared_values(alloc: Global, tills: &[(TillNo, u64, u64)]) -> Result<Vec<Value>, NoMemory>
    ensures { IfOk result (λ values. map view values.items ≡ map cleared_data tills.now) }
{
    let mut values = Vec::new(alloc);
    for (till, clears, cents) in tills {
        values.push(cleared_value(alloc, *till, *clears, *cents)?)?;
    }
    Ok(values)
}

/// A till with its clears and their cents.
fn cleared_value(alloc: Global, till: TillNo, clears: u64, cents: u64) -> Result<Value, AllocError>
    ensures { IfOk result (λ value. view value ≡ cleared_data (till, clears, cents)) }
{
    json!(in alloc; {"number": till.get(), "clears": clears, "cents": cents})
}
