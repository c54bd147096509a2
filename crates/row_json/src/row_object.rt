//! A row as a JSON value.

ghost use Rattle.std.specs.Prelude.{◌≡◌, IfOk, OnOk, option_map};
ghost use Rattle.serde_json.specs.View.{members_view, view};
ghost use Rattle.row_json.specs.RowObjects.{first_data, point_data, put_if, row_data, sale_data};
ghost use Rattle.row_json.specs.RowObjects.{sale_told, state_data};

use crate::reply_words::reply_text;
use crate::told_row::ToldRow;
use serde_json::{Map, Value, json};
use site_base::{FpNo, PointState};
use site_book::NamedSale;
use site_json::{state_word, status_word, time_if};
use std::alloc::{AllocError, Global};

/// Returns a row as a JSON value.
pub fn row_value(alloc: Global, told: &ToldRow) -> Result<Value, AllocError>
    ensures { IfOk result (λ value. view value ≡ row_data told.now) }
{
    let Value::Object(mut members) = first_value(alloc, told)? else {
        unreachable!();
    };
    let point = point_value(told.row.event.point());
    put_if(alloc, &mut members, "point", point)?;
    let sale = sale_told(alloc, &told.sale)?;
    put_if(alloc, &mut members, "sale", sale)?;
    let state = state_value(alloc, told.state)?;
    put_if(alloc, &mut members, "state", state)?;
    Ok(Value::Object(members))
}

/// What each row tells.
fn first_value(alloc: Global, told: &ToldRow) -> Result<Value, AllocError>
    ensures { IfOk result (λ value. view value ≡ first_data told.now) }
{
    let (actor, event) = (told.row.actor, told.row.event);
    let actor = format!(in alloc; "{actor}")?;
    let event = format!(in alloc; "{event}")?;
    let reply = reply_text(alloc, &told.row.reply)?;
    let time = time_if(alloc, &told.time)?;
    json!(in alloc; {
        "actor": actor,
        "at": time,
        "event": event,
        "reply": reply,
        "row": told.number
    })
}

/// Puts a member that may be missing among others.
fn put_if(
    alloc: Global,
    members: &mut Map<String, Value>,
    name: &str,
    value: Option<Value>,
) -> Result<(), AllocError>
    ensures { OnOk result (members_view members.new.entries
        ≡ put_if name.now (option_map view value) (members_view members.old.entries)) }
{
    match value {
        None => Ok(()),
        Some(value) => serde_json::put(members, alloc, name, value),
    }
}

/// The point that a row names.
fn point_value(point: Option<FpNo>) -> Option<Value>
    ensures { option_map view result ≡ point_data point }
{
    match point {
        None => None,
        Some(point) => Some(Value::from(point.get())),
    }
}

/// The state of that point.
fn state_value(alloc: Global, state: Option<PointState>) -> Result<Option<Value>, AllocError>
    ensures { IfOk result (λ value. option_map view value ≡ state_data state) }
{
    match state {
        None => Ok(None),
        Some(state) => {
            let name = String::from_str(alloc, state_word(state))?;
            Ok(Some(Value::String(name)))
        }
    }
}

/// The sale that a row makes or changes.
fn sale_told(alloc: Global, sale: &Option<NamedSale>) -> Result<Option<Value>, AllocError>
    ensures { IfOk result (λ value. option_map view value ≡ sale_told sale.now) }
{
    match sale {
        None => Ok(None),
        Some(sale) => Ok(Some(sale_value(alloc, sale)?)),
    }
}

/// A sale.
fn sale_value(alloc: Global, sold: &NamedSale) -> Result<Value, AllocError>
    ensures { IfOk result (λ value. view value ≡ sale_data sold.now) }
{
    let sale = &sold.sale;
    json!(in alloc; {
        "cents": sale.cents.get(),
        "millilitres": sale.volume.get(),
        "number": sold.number.get(),
        "shift": sold.shift.get(),
        "status": status_word(&sale.standing)
    })
}
