//! What the site itself shows, as a table prints it.

use anyhow::ensure;
use shift_ledger::ShiftRow;
use site_base::{FpNo, PointView, SaleId, ShiftNo, Totals, TransactionView};

/// Prints a point.
pub fn print_point(rt: &impl Print, p: FpNo, shown: Option<PointView>) -> anyhow::Result<()> {
    match shown {
        Some(view) => println!(rt; "show {}: {view}", p.get())?,
        None => println!(rt; "show {}: none", p.get())?,
    }
    Ok(())
}

/// Prints a sale.
pub fn print_sale(
    rt: &impl Print,
    p: FpNo,
    id: &SaleId,
    shown: Option<TransactionView>,
) -> anyhow::Result<()> {
    match shown {
        Some(view) => println!(rt; "sale {}/{id}: {view}", p.get())?,
        None => println!(rt; "sale {}/{id}: none", p.get())?,
    }
    Ok(())
}

/// Prints what each till has cleared, if it has, and each product.
pub fn print_totals(rt: &impl Print, totals: &Totals) -> anyhow::Result<()> {
    for (till, clears, cents) in totals.tills.as_slice() {
        if *clears > 0 {
            println!(rt; "totals t{}: clears {clears}, cents {cents}", till.get())?;
        }
    }
    for view in totals.products.as_slice() {
        println!(rt; "totals: {view}")?;
    }
    Ok(())
}

/// Checks that the kept totals are those that are counted.
pub fn ensure_counted(kept: &Totals, counted: &Totals) -> anyhow::Result<()> {
    ensure!(
        kept.products.as_slice() == counted.products.as_slice(),
        "the products' totals aren't those counted"
    );
    ensure!(
        kept.tills.as_slice() == counted.tills.as_slice(),
        "the tills' totals aren't those counted"
    );
    Ok(())
}

/// Prints what each till cleared in a shift, if it did, and for each product what was cleared and
/// drawn, if there was something.
pub fn print_shift(rt: &impl Print, n: ShiftNo, row: Option<ShiftRow>) -> anyhow::Result<()> {
    let Some(row) = row else {
        println!(rt; "shift {}: none", n.get())?;
        return Ok(());
    };
    println!(rt; "shift {}", n.get())?;
    print_tills(rt, &row)?;
    print_products(rt, &row)
}

fn print_tills(rt: &impl Print, row: &ShiftRow) -> anyhow::Result<()> {
    for (cell, (clears, cents)) in row.tills.iter().enumerate() {
        if *clears > 0 {
            println!(rt; "  t{}: clears {clears}, cents {cents}", cell + 1)?;
        }
    }
    Ok(())
}

fn print_products(rt: &impl Print, row: &ShiftRow) -> anyhow::Result<()> {
    for (cell, (cleared, drawn)) in row.products.iter().zip(&row.adjusted).enumerate() {
        if *cleared > 0 || *drawn > 0 {
            println!(rt; "  product {}: cleared {cleared}, drawn {drawn}", cell + 1)?;
        }
    }
    Ok(())
}
