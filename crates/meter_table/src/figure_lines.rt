//! The lines of nozzles, as comma-separated values and as JSON.

ghost use Rattle.std.specs.Prelude.{◌≡◌, IfOk, OnOk, string_bytes};
ghost use Rattle.csv.specs.Writing.{default_writer, row_text};
ghost use Rattle.serde_json.specs.Data.{object, put};
ghost use Rattle.serde_json.specs.View.{members_view, view};
ghost use Rattle.serde_json.specs.Written.{compact_text};
ghost use Rattle.sales_table.specs.Tables.{decimal_if};
ghost use Rattle.meter_table.specs.Tables.{figure_data, figure_fields, figure_members};
ghost use Rattle.meter_table.specs.Tables.{figure_titles};

use crate::figures::NozzleFigures;
use crate::words::{difference_value, difference_word, number_value};
use itoa::Buffer;
use sales_table::{csv_line, name_of};
use serde_json::{Map, Value, json};
use site_base::{Millilitres, NoMemory, ProductEntry};
use std::alloc::{AllocError, Global};

/// The titles of the table of nozzles, as a line.
pub(crate) fn figure_titles(alloc: Global) -> Result<Vec<u8>, NoMemory>
    ensures { IfOk result (λ line. line.items ≡ row_text default_writer figure_titles) }
{
    csv_line(
        alloc,
        &[
            b"point", b"nozzle", b"product", b"name", b"opening", b"closing", b"metered",
        ],
        &[
            b"sold",
            b"drawn",
            b"running",
            b"replaced",
            b"jumps",
            b"refused",
            b"highest refused",
        ],
    )
}

/// The line of a nozzle, in the order of the titles.
pub(crate) fn figure_line(
    alloc: Global,
    products: &[ProductEntry],
    x: &NozzleFigures,
) -> Result<Vec<u8>, NoMemory>
    ensures { IfOk result (λ line.
        line.items ≡ row_text default_writer (figure_fields products.now x.now)) }
{
    let (mut point, mut nozzle, mut product) = (Buffer::new(), Buffer::new(), Buffer::new());
    let (mut opening, mut closing) = (Buffer::new(), Buffer::new());
    let (mut metered, mut sold) = (Buffer::new(), Buffer::new());
    let (mut drawn, mut running, mut replaced) = (Buffer::new(), Buffer::new(), Buffer::new());
    let (mut refused, mut highest) = (Buffer::new(), Buffer::new());
    let jumps = difference_word(alloc, x.raised, x.lowered)?;
    csv_line(
        alloc,
        &[
            point.format(x.point.get()).as_bytes(),
            nozzle.format(x.nozzle.get()).as_bytes(),
            product.format(x.product.get()).as_bytes(),
            name_of(products, x.product).as_bytes(),
            opening.format(x.opening.get()).as_bytes(),
            closing.format(x.closing.get()).as_bytes(),
            metered.format(x.metered).as_bytes(),
        ],
        &[
            sold.format(x.sold).as_bytes(),
            drawn.format(x.drawn).as_bytes(),
            running.format(x.running).as_bytes(),
            replaced.format(x.replaced).as_bytes(),
            &jumps,
            refused.format(x.refused).as_bytes(),
            format_if(&mut highest, &x.highest).as_bytes(),
        ],
    )
}

/// A reading in decimal; without one nothing.
fn format_if<'a>(buffer: &'a mut Buffer, reading: &Option<Millilitres>) -> &'a str
    ensures { result.now ≡ decimal_if reading.now }
{
    match reading {
        Some(reading) => buffer.format(reading.get()),
        None => "",
    }
}

/// A nozzle as a JSON object.
pub(crate) fn figure_object(
    alloc: Global,
    products: &[ProductEntry],
    x: &NozzleFigures,
) -> Result<String, NoMemory>
    ensures { IfOk result (λ text.
        string_bytes text ≡ compact_text (figure_data products.now x.now)) }
{
    Ok(figure_value(alloc, products, x)?.to_string(alloc)?)
}

fn figure_value(
    alloc: Global,
    products: &[ProductEntry],
    x: &NozzleFigures,
) -> Result<Value, AllocError>
    ensures { IfOk result (λ value. view value ≡ figure_data products.now x.now) }
{
    let Value::Object(mut members) = counted_value(alloc, products, x)? else {
        unreachable!();
    };
    let highest = number_value(x.highest.map(|reading| reading.get()));
    put_member(alloc, &mut members, "highest refused", highest)?;
    let jumps = difference_value(x.raised, x.lowered);
    put_member(alloc, &mut members, "jumps", jumps)?;
    Ok(Value::Object(members))
}

/// What every nozzle has, as an object.
fn counted_value(
    alloc: Global,
    products: &[ProductEntry],
    x: &NozzleFigures,
) -> Result<Value, AllocError>
    ensures { IfOk result (λ value. view value ≡ object (figure_members products.now x.now)) }
{
    let name = name_of(products, x.product);
    json!(in alloc; {
        "point": x.point.get(),
        "nozzle": x.nozzle.get(),
        "product": x.product.get(),
        "name": name,
        "opening": x.opening.get(),
        "closing": x.closing.get(),
        "metered": x.metered,
        "sold": x.sold,
        "drawn": x.drawn,
        "running": x.running,
        "replaced": x.replaced,
        "refused": x.refused
    })
}

/// Puts a value among the members of an object, at its place.
fn put_member(
    alloc: Global,
    members: &mut Map<String, Value>,
    name: &str,
    value: Value,
) -> Result<(), AllocError>
    ensures { OnOk result (members_view members.new.entries
        ≡ put name.now (view value) (members_view members.old.entries)) }
{
    serde_json::put(members, alloc, name, value)
}
