//! Numbers and texts that may be missing.

ghost use Rattle.std.specs.Prelude.{◌≡◌, IfOk, option_copied};
ghost use Rattle.serde_json.specs.View.{view};
ghost use Rattle.site_json.specs.Figures.{figure_if, sum_data, text_if};

use serde_json::{Number, Value};
use stamps::Stamp;
use std::alloc::{AllocError, Global};

/// Returns a number; null for None.
pub fn figure_if(figure: Option<u64>) -> Value
    ensures { view result ≡ figure_if figure }
{
    match figure {
        Some(n) => Value::from(n),
        None => Value::Null,
    }
}

/// Returns a sum of figures; null if it has more than 64 bits.
pub fn sum_value(sum: u128) -> Value
    ensures { view result ≡ sum_data sum }
{
    match Number::from_u128(sum) {
        Some(sum) => Value::Number(sum),
        None => Value::Null,
    }
}

/// Returns a text; null for None.
pub fn text_if(alloc: Global, text: Option<&str>) -> Result<Value, AllocError>
    ensures { IfOk result (λ value. view value ≡ text_if (option_copied text.entry)) }
{
    match text {
        Some(text) => Ok(Value::String(String::from_str(alloc, text)?)),
        None => Ok(Value::Null),
    }
}

/// Returns a time as a text; null for None.
pub fn time_if(alloc: Global, time: &Option<Stamp>) -> Result<Value, AllocError>
    ensures { IfOk result (λ value. view value ≡ text_if time.now) }
{
    match time {
        Some(time) => text_if(alloc, Some(time.as_str())),
        None => Ok(Value::Null),
    }
}

/// Returns the same number with 64 bits.
pub fn widen(figure: Option<u32>) -> Option<u64>
    ensures { result ≡ figure }
{
    Some(u64::from(figure?))
}
