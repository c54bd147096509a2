//! The lines of sales and draws as JSON.

ghost use Rattle.std.specs.Prelude.{◌≡◌, IfOk, OnOk, string_bytes};
ghost use Rattle.serde_json.specs.Data.{put};
ghost use Rattle.serde_json.specs.View.{members_view, view};
ghost use Rattle.serde_json.specs.Written.{compact_text};
ghost use Rattle.sales_table.specs.Objects.{draw_data, number_if, sale_data, time_if};
ghost use Rattle.sales_table.specs.Objects.{timed_data};

use crate::names::name_of;
use crate::status_words::{cleared_in, status_word, till_of};
use crate::timed_sale::TimedSale;
use serde_json::{Map, Value, json};
use site_base::{NoMemory, ProductEntry};
use site_book::{Draw, NamedSale};
use stamps::Stamp;
use std::alloc::{AllocError, Global};

/// Returns a sale as a JSON object.
pub fn sale_object(
    alloc: Global,
    products: &[ProductEntry],
    sold: &NamedSale,
) -> Result<String, NoMemory>
    ensures { IfOk result (λ text.
        string_bytes text ≡ compact_text (sale_data products.now sold.now)) }
{
    Ok(sale_value(alloc, products, sold)?.to_string(alloc)?)
}

/// Returns a sale with its times as a JSON object.
pub fn timed_object(
    alloc: Global,
    products: &[ProductEntry],
    times: &TimedSale,
    sold: &NamedSale,
) -> Result<String, NoMemory>
    ensures { IfOk result (λ text.
        string_bytes text ≡ compact_text (timed_data products.now times.now sold.now)) }
{
    Ok(timed_value(alloc, products, times, sold)?.to_string(alloc)?)
}

/// Returns a draw as a JSON object.
pub fn draw_object(
    alloc: Global,
    products: &[ProductEntry],
    draw: &Draw,
) -> Result<String, NoMemory>
    ensures { IfOk result (λ text.
        string_bytes text ≡ compact_text (draw_data products.now draw.now)) }
{
    Ok(draw_value(alloc, products, draw)?.to_string(alloc)?)
}

fn sale_value(
    alloc: Global,
    products: &[ProductEntry],
    sold: &NamedSale,
) -> Result<Value, AllocError>
    ensures { IfOk result (λ value. view value ≡ sale_data products.now sold.now) }
{
    let sale = &sold.sale;
    let standing = sale.standing;
    let name = name_of(products, sale.product);
    let prepaid = number_if(sale.prepaid);
    let till = number_if(till_of(&standing));
    let cleared = number_if(cleared_in(&standing));
    json!(in alloc; {
        "shift": sold.shift.get(),
        "point": sold.point.get(),
        "number": sold.number.get(),
        "product": sale.product.get(),
        "name": name,
        "millilitres": sale.volume.get(),
        "mills": sale.price.get(),
        "cents": sale.cents.get(),
        "prepaid": prepaid,
        "status": status_word(&standing),
        "till": till,
        "cleared in shift": cleared
    })
}

fn timed_value(
    alloc: Global,
    products: &[ProductEntry],
    times: &TimedSale,
    sold: &NamedSale,
) -> Result<Value, AllocError>
    ensures { IfOk result (λ value.
        view value ≡ timed_data products.now times.now sold.now) }
{
    let Value::Object(mut members) = sale_value(alloc, products, sold)? else {
        unreachable!();
    };
    put_time(alloc, &mut members, "cleared at", &times.cleared_at)?;
    put_time(alloc, &mut members, "sold at", &times.sold_at)?;
    Ok(Value::Object(members))
}

/// Puts a time among the members of an object, at its place.
fn put_time(
    alloc: Global,
    members: &mut Map<String, Value>,
    name: &str,
    time: &Option<Stamp>,
) -> Result<(), AllocError>
    ensures { OnOk result (members_view members.new.entries
        ≡ put name.now (time_if time.now) (members_view members.old.entries)) }
{
    let value = time_if(alloc, time)?;
    serde_json::put(members, alloc, name, value)
}

fn draw_value(alloc: Global, products: &[ProductEntry], draw: &Draw) -> Result<Value, AllocError>
    ensures { IfOk result (λ value. view value ≡ draw_data products.now draw.now) }
{
    let name = name_of(products, draw.product);
    json!(in alloc; {
        "shift": draw.shift.get(),
        "point": draw.point.get(),
        "product": draw.product.get(),
        "name": name,
        "millilitres": draw.volume.get()
    })
}

/// A time; without one null.
fn time_if(alloc: Global, time: &Option<Stamp>) -> Result<Value, AllocError>
    ensures { IfOk result (λ value. view value ≡ time_if time.now) }
{
    match time {
        Some(time) => Ok(Value::String(String::from_str(alloc, time.as_str())?)),
        None => Ok(Value::Null),
    }
}

/// A number; without one null.
fn number_if(number: Option<u32>) -> Value
    ensures { view result ≡ number_if number }
{
    match number {
        Some(n) => Value::from(n),
        None => Value::Null,
    }
}
