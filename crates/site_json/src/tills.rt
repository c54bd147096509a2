//! The tills as JSON.

ghost use Rattle.std.specs.Prelude.{◌≡◌, [], ◌∷◌, ◌++◌, map, IfOk, OnOk};
ghost use Rattle.serde_json.specs.View.{view};
ghost use Rattle.site_book.specs.Book.{site_of_book};
ghost use Rattle.site_core.specs.Accounts.{takings_of};
ghost use Rattle.written_site.specs.SiteState.{open_shift};
ghost use Rattle.site_json.specs.Tills.{till_data, tills_data};

use serde_json::{Value, json};
use site_base::{NoMemory, TILL_CELLS, TillNo};
use site_book::SiteBook;
use std::alloc::{AllocError, Global};

/// Returns the tills that a site may have: whether each is signed on, and its clears in the open
/// shift.
pub fn till_values(alloc: Global, book: &SiteBook) -> Result<Vec<Value>, NoMemory>
    ensures { IfOk result (λ values.
        map view values.items ≡ tills_data (site_of_book book.now)) }
{
    let mut values = Vec::new(alloc);
    for cell in 0..TILL_CELLS {
        add_till(alloc, book, TillNo::of_cell(cell), &mut values)?;
    }
    Ok(values)
}

/// Adds a till.
fn add_till(
    alloc: Global,
    book: &SiteBook,
    till: TillNo,
    values: &mut Vec<Value>,
) -> Result<(), NoMemory>
    ensures { OnOk result (map view values.new.items
        ≡ map view values.old.items ++ till_data (site_of_book book.now) till ∷ []) }
{
    values.push(till_value(alloc, book, till)?)?;
    Ok(())
}

/// A till.
fn till_value(alloc: Global, book: &SiteBook, till: TillNo) -> Result<Value, AllocError>
    ensures { IfOk result (λ value. view value ≡ till_data (site_of_book book.now) till) }
{
    let (clears, cents) = takings(book, till);
    json!(in alloc; {
        "number": till.get(),
        "signed on": book.is_signed_on(till),
        "clears": clears,
        "cents": cents
    })
}

/// How many transactions the till cleared in the open shift, and their cents.
fn takings(book: &SiteBook, till: TillNo) -> (u64, u64)
    ensures { result ≡ takings_of (open_shift (site_of_book book.now))
        (site_of_book book.now).sales till }
{
    match book.shift(book.open_shift()) {
        Some(figures) => figures.tills[till.cell()],
        // The open shift has figures.
        None => unreachable!(),
    }
}
