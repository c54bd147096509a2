//! A shift as JSON.

ghost use Rattle.std.specs.Prelude.{◌≡◌, ◌++◌, map, IfOk, OnOk, string_bytes};
ghost use Rattle.serde_json.specs.View.{view};
ghost use Rattle.serde_json.specs.Written.{compact_text};
ghost use Rattle.site_json.specs.Figures.{sum_data};
ghost use Rattle.site_json.specs.ShiftProducts.{shift_products};
ghost use Rattle.shift_table.specs.ShiftObjects.{listed, shift_data, till_data, till_if};
ghost use Rattle.shift_table.specs.ShiftObjects.{tills_data, whole_data};
ghost use Rattle.shift_table.specs.ShiftSums.{all_cents, all_clears};

use crate::sums::{count_clears, sum_cents};
use row_tally::ShiftTimes;
use serde_json::{Value, json};
use shift_ledger::ShiftRow;
use site_base::{NoMemory, ProductEntry, ShiftNo, TILL_CELLS, TillNo};
use site_json::{shift_product_values, sum_value, time_if};
use std::alloc::{AllocError, Global};

/// Returns a shift as a JSON object. It has the shift's number, its times, whether it is open, and
/// what all tills cleared in it. For each of these products it has the millilitres that were
/// cleared, their cents, and the millilitres that tests drew; for each till that cleared anything,
/// its clears and their cents.
pub fn shift_object(
    alloc: Global,
    products: &[ProductEntry],
    number: ShiftNo,
    is_open: bool,
    times: &ShiftTimes,
    row: &ShiftRow,
) -> Result<String, NoMemory>
    ensures { IfOk result (λ text. string_bytes text
        ≡ compact_text (shift_data products.now number is_open times.now row.now)) }
{
    let text = shift_value(alloc, products, number, is_open, times, row)?.to_string(alloc)?;
    Ok(text)
}

fn shift_value(
    alloc: Global,
    products: &[ProductEntry],
    number: ShiftNo,
    is_open: bool,
    times: &ShiftTimes,
    row: &ShiftRow,
) -> Result<Value, NoMemory>
    ensures { IfOk result (λ value.
        view value ≡ shift_data products.now number is_open times.now row.now) }
{
    let products = products_value(alloc, products, row)?;
    let tills = tills_value(alloc, row)?;
    let (clears, cents) = (clears_value(&row.tills), cents_value(&row.tills));
    Ok(whole_value(
        alloc, number, is_open, times, clears, cents, products, tills,
    )?)
}

/// The shift of this number, with these times, and these values of its other members.
fn whole_value(
    alloc: Global,
    number: ShiftNo,
    is_open: bool,
    times: &ShiftTimes,
    clears: Value,
    cents: Value,
    products: Value,
    tills: Value,
) -> Result<Value, AllocError>
    ensures { IfOk result (λ value. view value ≡ whole_data number is_open times.now
        (view clears) (view cents) (view products) (view tills)) }
{
    let opened = time_if(alloc, &times.opened)?;
    let closed = time_if(alloc, &times.closed)?;
    json!(in alloc; {
        "shift": number.get(),
        "open": is_open,
        "opened": opened,
        "closed": closed,
        "clears": clears,
        "cents": cents,
        "products": products,
        "tills": tills
    })
}

/// The products, each with its figures.
fn products_value(
    alloc: Global,
    products: &[ProductEntry],
    row: &ShiftRow,
) -> Result<Value, NoMemory>
    ensures { IfOk result (λ value.
        view value ≡ listed (shift_products row.now products.now)) }
{
    Ok(Value::Array(shift_product_values(alloc, products, row)?))
}

/// The tills that cleared anything.
fn tills_value(alloc: Global, row: &ShiftRow) -> Result<Value, NoMemory>
    ensures { IfOk result (λ value. view value ≡ listed (tills_data 1 row.now.tills)) }
{
    Ok(Value::Array(till_values(alloc, &row.tills)?))
}

/// How many transactions these tills cleared.
fn clears_value(tills: &[(u64, u64)]) -> Value
    ensures { view result ≡ sum_data (all_clears tills.now) }
{
    sum_value(count_clears(tills))
}

/// Their cents.
fn cents_value(tills: &[(u64, u64)]) -> Value
    ensures { view result ≡ sum_data (all_cents tills.now) }
{
    sum_value(sum_cents(tills))
}

/// Each till that cleared anything, with its clears and their cents.
fn till_values(alloc: Global, tills: &[(u64, u64); TILL_CELLS]) -> Result<Vec<Value>, NoMemory>
    ensures { IfOk result (λ values. map view values.items ≡ tills_data 1 tills.now) }
{
    let mut values = Vec::new(alloc);
    for cell in 0..TILL_CELLS {
        add_till(alloc, TillNo::of_cell(cell), tills[cell], &mut values)?;
    }
    Ok(values)
}

/// Adds a till, if it cleared anything.
fn add_till(
    alloc: Global,
    till: TillNo,
    figures: (u64, u64),
    values: &mut Vec<Value>,
) -> Result<(), NoMemory>
    ensures { OnOk result
        (map view values.new.items ≡ map view values.old.items ++ till_if till figures) }
{
    let (clears, _) = figures;
    if 0 < clears {
        values.push(till_value(alloc, till, figures)?)?;
    }
    Ok(())
}

fn till_value(alloc: Global, till: TillNo, figures: (u64, u64)) -> Result<Value, AllocError>
    ensures { IfOk result (λ value. view value ≡ till_data till figures) }
{
    let (clears, cents) = figures;
    json!(in alloc; {"number": till.get(), "clears": clears, "cents": cents})
}
