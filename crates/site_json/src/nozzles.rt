//! The nozzles of a fuelling point as JSON.

ghost use Rattle.std.specs.Prelude.{◌≡◌, ◌≤◌, ◌++◌, length, map, IfOk, OnOk};
ghost use Rattle.serde_json.specs.View.{view};
ghost use Rattle.site_base.specs.declared.limits.TheConstants.{NOZZLES};
ghost use Rattle.site_book.specs.Book.{site_of_book};
ghost use Rattle.meters.specs.Nozzles.{last_of, opening_nozzle};
ghost use Rattle.site_json.specs.Nozzles.{nozzle_data, nozzles_data};

use crate::figures::figure_if;
use serde_json::{Value, json};
use site_base::{FpNo, NoMemory, NozzleEntry, NozzleNo, PointEntry};
use site_book::SiteBook;
use std::alloc::{AllocError, Global};

/// Returns the nozzles of a configured point, in their order: nozzle n is the nth.
pub fn nozzle_values(
    alloc: Global,
    book: &SiteBook,
    point: &PointEntry,
) -> Result<Vec<Value>, NoMemory>
    requires { length point.now.nozzles ≤ NOZZLES }
    ensures { IfOk result (λ values.
        map view values.items ≡ nozzles_data (site_of_book book.now) point.now) }
{
    let mut values = Vec::new(alloc);
    for (place, nozzle) in point.nozzles.as_slice().iter().enumerate() {
        let Some(number) = NozzleNo::new(place as u8 + 1) else {
            unreachable!();
        };
        values.push(nozzle_value(alloc, book, point.number, number, nozzle)?)?;
    }
    Ok(values)
}

/// A nozzle of this number: its product, and what its meter reads.
fn nozzle_value(
    alloc: Global,
    book: &SiteBook,
    p: FpNo,
    number: NozzleNo,
    nozzle: &NozzleEntry,
) -> Result<Value, AllocError>
    ensures { IfOk result (λ value. view value
        ≡ nozzle_data (site_of_book book.now) (opening_nozzle p number nozzle.now)) }
{
    let reading = figure_if(reading(book, p, number));
    json!(in alloc; {
        "number": number.get(),
        "product": nozzle.product.get(),
        "reading": reading
    })
}

/// What the meter of a nozzle reads.
fn reading(book: &SiteBook, p: FpNo, number: NozzleNo) -> Option<u64>
    ensures { result ≡ last_of p number (site_of_book book.now).nozzles }
{
    Some(book.reading(p, number)?.get())
}
