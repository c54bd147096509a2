//! The unpaid transactions as JSON.

ghost use Rattle.std.specs.Prelude.{◌≡◌, IfOk, string_bytes};
ghost use Rattle.serde_json.specs.View.{view};
ghost use Rattle.serde_json.specs.Written.{compact_text};
ghost use Rattle.site_json.specs.Transactions.{unpaid_data};

use crate::transactions::{transaction_values, transaction_values_at};
use serde_json::Value;
use site_base::{FpNo, NoMemory};
use site_book::NamedSale;
use std::alloc::Global;

/// Returns unpaid transactions as JSON text: of those that the caller has found unpaid, the ones of
/// this point, or all for None. It is a list as in `site_text`, in the same order.
pub fn unpaid_text(
    alloc: Global,
    unpaid: &[NamedSale],
    point: Option<FpNo>,
) -> Result<String, NoMemory>
    ensures { IfOk result (λ text. string_bytes text ≡ compact_text
        (unpaid_data point unpaid.now)) }
{
    let value = unpaid_value(alloc, unpaid, point)?;
    Ok(value.to_string(alloc)?)
}

/// The same as a value.
fn unpaid_value(alloc: Global, unpaid: &[NamedSale], point: Option<FpNo>) -> Result<Value, NoMemory>
    ensures { IfOk result (λ value. view value ≡ unpaid_data point unpaid.now) }
{
    let values = match point {
        None => transaction_values(alloc, unpaid)?,
        Some(p) => transaction_values_at(alloc, unpaid, p)?,
    };
    Ok(Value::Array(values))
}
