//! Transactions as JSON.

ghost use Rattle.std.specs.Prelude.{◌≡◌, ◌≤◌, map, IfOk, Some};
ghost use Rattle.serde_json.specs.View.{view};
ghost use Rattle.site_base.specs.declared.amounts.TheConstants.{GREATEST_CENTS};
ghost use Rattle.transaction_buffer.specs.Sales.{status_of, till_of};
ghost use Rattle.site_json.specs.Transactions.{back_of, cents_of, due_of, dues_of, sales_at};
ghost use Rattle.site_json.specs.Transactions.{status_word};
ghost use Rattle.site_json.specs.Transactions.{transaction_data, transactions_data};

use crate::figures::{figure_if, widen};
use serde_json::{Value, json};
use site_base::{FpNo, NoMemory};
use site_book::NamedSale;
use std::alloc::{AllocError, Global};
use transaction_buffer::Standing;

/// Returns these transactions, in their order.
pub fn transaction_values(alloc: Global, sales: &[NamedSale]) -> Result<Vec<Value>, NoMemory>
    ensures { IfOk result (λ values.
        map view values.items ≡ transactions_data sales.now) }
{
    let mut values = Vec::new(alloc);
    for sale in sales {
        values.push(transaction_value(alloc, sale)?)?;
    }
    Ok(values)
}

/// Returns the transactions of a point among these, in their order.
pub fn transaction_values_at(
    alloc: Global,
    sales: &[NamedSale],
    p: FpNo,
) -> Result<Vec<Value>, NoMemory>
    ensures { IfOk result (λ values.
        map view values.items ≡ transactions_data (sales_at (Some p) sales.now)) }
{
    let mut values = Vec::new(alloc);
    for sale in sales {
        if sale.point == p {
            values.push(transaction_value(alloc, sale)?)?;
        }
    }
    Ok(values)
}

/// A transaction.
fn transaction_value(alloc: Global, sold: &NamedSale) -> Result<Value, AllocError>
    ensures { IfOk result (λ value. view value ≡ transaction_data sold.now) }
{
    let sale = &sold.sale;
    let standing = sale.standing;
    let prepaid = figure_if(widen(sale.prepaid));
    let till = figure_if(till_of(&standing));
    json!(in alloc; {
        "shift": sold.shift.get(),
        "point": sold.point.get(),
        "number": sold.number.get(),
        "product": sale.product.get(),
        "millilitres": sale.volume.get(),
        "mills": sale.price.get(),
        "cents": sale.cents.get(),
        "due cents": due_of(sold),
        "back cents": back_of(sold),
        "prepaid": prepaid,
        "status": status_word(&standing),
        "till": till
    })
}

/// What is still due of a transaction: what it costs above what was prepaid.
fn due_of(sold: &NamedSale) -> u64
    ensures due { result ≡ due_of sold.now }
    ensures within { result ≤ GREATEST_CENTS }
{
    let cents = sold.sale.cents.get();
    match sold.sale.prepaid {
        Some(prepaid) => cents.saturating_sub(u64::from(prepaid)),
        None => cents,
    }
}

/// What goes back of it: what was prepaid above what it costs.
fn back_of(sold: &NamedSale) -> u64
    ensures { result ≡ back_of sold.now }
{
    match sold.sale.prepaid {
        Some(prepaid) => u64::from(prepaid).saturating_sub(sold.sale.cents.get()),
        None => 0,
    }
}

/// Returns the name of a status.
pub fn status_word(standing: &Standing) -> &'static str
    ensures { result.now ≡ status_word (status_of standing.now) }
{
    match standing {
        Standing::Payable => "payable",
        Standing::LockedBy(_) => "locked",
        Standing::ClearedBy(_, _) => "cleared",
    }
}

/// The number of the till that has locked or cleared it.
fn till_of(standing: &Standing) -> Option<u64>
    ensures { result ≡ till_of standing.now }
{
    match standing {
        Standing::Payable => None,
        Standing::LockedBy(till) => Some(u64::from(till.get())),
        Standing::ClearedBy(till, _) => Some(u64::from(till.get())),
    }
}

/// Returns the sum of the cents of these transactions.
pub fn cents_of(sales: &[NamedSale]) -> u128
    ensures { result ≡ cents_of sales.now }
{
    let mut cents: u128 = 0;
    for sale in sales {
        cents += u128::from(sale.sale.cents.get());
    }
    cents
}

/// Returns the sum of what is due of these transactions, in cents.
pub fn dues_of(sales: &[NamedSale]) -> u128
    ensures { result ≡ dues_of sales.now }
{
    let mut cents: u128 = 0;
    for sale in sales {
        cents += u128::from(due_of(sale));
    }
    cents
}
