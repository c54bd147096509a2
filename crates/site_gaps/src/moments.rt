//! The times that rows tell, as JSON.

ghost use Rattle.std.specs.Prelude.{◌≡◌, ◌++◌, map, IfOk, OnOk, option_copied};
ghost use Rattle.serde_json.specs.View.{view};
ghost use Rattle.written_site.specs.SiteState.{view_point};
ghost use Rattle.site_book.specs.Book.{site_of_book};
ghost use Rattle.site_gaps.specs.MomentData.{call_data, call_if, calling_data, calls_data};
ghost use Rattle.site_gaps.specs.MomentData.{is_calling, sale_data, sold_data};

use row_tally::{Moments, RowTally, SoldAt};
use serde_json::{Value, json};
use site_base::{FpNo, NoMemory, PointState};
use site_book::SiteBook;
use site_json::time_if;
use stamps::Stamp;
use std::alloc::{AllocError, Global};

/// Returns the points of a book's site that call, and since when each calls; null without a tally.
pub fn calling_value(
    alloc: Global,
    book: &SiteBook,
    tally: Option<&RowTally>,
) -> Result<Value, NoMemory>
    ensures { IfOk result (λ value.
        view value ≡ calling_data book.now (option_copied tally.entry)) }
{
    match tally {
        Some(tally) => Ok(Value::Array(call_values(alloc, book, tally.moments())?)),
        None => Ok(Value::Null),
    }
}

/// Those that call, in the order of the configuration.
fn call_values(alloc: Global, book: &SiteBook, moments: &Moments) -> Result<Vec<Value>, NoMemory>
    ensures { IfOk result (λ values. map view values.items
        ≡ calls_data (site_of_book book.now) moments.now book.now.config.points) }
{
    let mut values = Vec::new(alloc);
    for point in book.config().points() {
        add_call(alloc, book, moments, point.number, &mut values)?;
    }
    Ok(values)
}

/// Adds a point, if it calls.
fn add_call(
    alloc: Global,
    book: &SiteBook,
    moments: &Moments,
    p: FpNo,
    values: &mut Vec<Value>,
) -> Result<(), NoMemory>
    ensures { OnOk result (map view values.new.items ≡ map view values.old.items
        ++ call_if moments.now p (view_point (site_of_book book.now) p)) }
{
    let Some(shown) = book.point(p) else {
        return Ok(());
    };
    if is_calling(shown.state) {
        values.push(call_value(alloc, p, &moments.last_call(p))?)?;
    }
    Ok(())
}

/// Does a point in this state call?
fn is_calling(state: PointState) -> bool
    ensures { result ≡ is_calling state }
{
    matches!(state, PointState::Calling)
}

/// A point that calls since this time.
fn call_value(alloc: Global, p: FpNo, since: &Option<Stamp>) -> Result<Value, AllocError>
    ensures { IfOk result (λ value. view value ≡ call_data p since.now) }
{
    let since = time_if(alloc, since)?;
    json!(in alloc; {"point": p.get(), "since": since})
}

/// Returns when each transaction was sold that isn't cleared yet; null without a tally.
pub fn sold_value(alloc: Global, tally: Option<&RowTally>) -> Result<Value, NoMemory>
    ensures { IfOk result (λ value. view value ≡ sold_data (option_copied tally.entry)) }
{
    match tally {
        Some(tally) => Ok(Value::Array(sale_values(alloc, tally.moments().sold())?)),
        None => Ok(Value::Null),
    }
}

/// These transactions, in their order.
fn sale_values(alloc: Global, sold: &[SoldAt]) -> Result<Vec<Value>, NoMemory>
    ensures { IfOk result (λ values. map view values.items ≡ map sale_data sold.now) }
{
    let mut values = Vec::new(alloc);
    for sale in sold {
        values.push(sale_value(alloc, sale)?)?;
    }
    Ok(values)
}

/// When a transaction was sold.
fn sale_value(alloc: Global, sale: &SoldAt) -> Result<Value, AllocError>
    ensures { IfOk result (λ value. view value ≡ sale_data sale.now) }
{
    let at = time_if(alloc, &sale.at)?;
    json!(in alloc; {
        "at": at,
        "number": sale.number.get(),
        "point": sale.point.get(),
        "shift": sale.shift
    })
}
