//! Numbers as the tables write them.

ghost use Rattle.std.specs.Prelude.{◌≡◌, ◌++◌, IfOk, OnOk, decimal};
ghost use Rattle.serde_json.specs.View.{view};
ghost use Rattle.sales_table.specs.TimedSales.{time_field};
ghost use Rattle.meter_table.specs.Tables.{difference_data, difference_word, number_if, time_if};

use itoa::Buffer;
use serde_json::Value;
use stamps::Stamp;
use std::alloc::{AllocError, Global};

/// How far something is up, less how far it is down, in decimal with its sign.
pub(crate) fn difference_word(alloc: Global, up: u64, down: u64) -> Result<Vec<u8>, AllocError>
    ensures { IfOk result (λ word. word.items ≡ difference_word up down) }
{
    let mut word = Vec::new(alloc);
    if down <= up {
        put_number(up - down, &mut word)?;
    } else {
        word.extend_from_slice(b"-")?;
        put_number(down - up, &mut word)?;
    }
    Ok(word)
}

/// Appends a number in decimal.
pub(crate) fn put_number(n: u64, text: &mut Vec<u8>) -> Result<(), AllocError>
    ensures { OnOk result (text.new.items ≡ text.old.items ++ decimal n) }
{
    text.extend_from_slice(Buffer::new().format(n).as_bytes())
}

/// The same difference as a number; null, where it is below all numbers of 64 bits with a sign.
pub(crate) fn difference_value(up: u64, down: u64) -> Value
    ensures { view result ≡ difference_data up down }
{
    if down <= up {
        return Value::from(up - down);
    }
    match i64::try_from(down - up) {
        Ok(difference) => Value::from(-difference),
        Err(_) => Value::Null,
    }
}

/// A number; without one null.
pub(crate) fn number_value(number: Option<u64>) -> Value
    ensures { view result ≡ number_if number }
{
    match number {
        Some(n) => Value::from(n),
        None => Value::Null,
    }
}

/// A time; without one null.
pub(crate) fn time_value(alloc: Global, time: &Option<Stamp>) -> Result<Value, AllocError>
    ensures { IfOk result (λ value. view value ≡ time_if time.now) }
{
    match time {
        Some(time) => Ok(Value::String(String::from_str(alloc, time.as_str())?)),
        None => Ok(Value::Null),
    }
}

/// The octets of a time; without one none.
pub(crate) fn time_field(time: &Option<Stamp>) -> &[u8]
    ensures { result.now ≡ time_field time.now }
{
    match time {
        Some(time) => time.as_octets(),
        None => b"",
    }
}
