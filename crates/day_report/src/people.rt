//! The report for people: litres with three decimals, money with two, in columns.

ghost use Rattle.std.specs.Prelude.{◌≡◌, ◌++◌, decimal, IfOk, OnOk};
ghost use Rattle.day_report.specs.People.{clears_text, last_digit, litres, money, people_text};
ghost use Rattle.day_report.specs.People.{product_line, rows_text, table_lines, title_line};
ghost use Rattle.day_report.specs.People.{total_line};

use crate::column::COLUMNS;
use crate::columns::{Line, put_table};
use crate::takings::Takings;
use itoa::Buffer;
use site_base::{NoMemory, ProductEntry, ProductView, TillNo, Totals};
use std::alloc::{AllocError, Global};

/// Returns the report of these totals: the number of rows, what all tills cleared, and a table of
/// the products' volumes, whose last line has their sums.
pub fn report_for_people(
    alloc: Global,
    products: &[ProductEntry],
    totals: &Totals,
) -> Result<Vec<u8>, NoMemory>
    ensures { IfOk result (λ text. text.items ≡ people_text products.now totals.now) }
{
    let mut text = Vec::new(alloc);
    put_rows(totals.rows, &mut text)?;
    put_clears(totals.tills.as_slice(), &mut text)?;
    let lines = table_lines(alloc, products, totals.products.as_slice())?;
    put_table(&lines, &mut text)?;
    Ok(text)
}

/// Appends how many rows there are.
fn put_rows(rows: u64, text: &mut Vec<u8>) -> Result<(), AllocError>
    ensures { OnOk result (text.new.items ≡ text.old.items ++ rows_text rows) }
{
    put_number(u128::from(rows), text)?;
    text.extend_from_slice(b" rows\n")
}

/// Appends what all tills cleared.
fn put_clears(tills: &[(TillNo, u64, u64)], text: &mut Vec<u8>) -> Result<(), AllocError>
    ensures { OnOk result (text.new.items ≡ text.old.items ++ clears_text tills.now) }
{
    let takings = Takings::of(tills);
    put_number(takings.clears, text)?;
    text.extend_from_slice(b" cleared for ")?;
    put_money(takings.cents, text)?;
    text.extend_from_slice(b"\n\n")?;
    Ok(())
}

/// The lines of the table: titles, a line for each product, and one that sums them.
fn table_lines(
    alloc: Global,
    products: &[ProductEntry],
    views: &[ProductView],
) -> Result<Vec<Line>, AllocError>
    ensures { IfOk result (λ lines. lines.items ≡ table_lines products.now views.now) }
{
    let mut lines = Vec::new(alloc);
    lines.push(title_line(alloc)?)?;
    for at in 0..products.len().min(views.len()) {
        lines.push(product_line(alloc, &products[at], &views[at])?)?;
    }
    lines.push(total_line(alloc, views)?)?;
    Ok(lines)
}

/// The titles.
fn title_line(alloc: Global) -> Result<Line, AllocError>
    ensures { IfOk result (λ line. line ≡ title_line) }
{
    let mut figures = Vec::new(alloc);
    for column in &COLUMNS {
        figures.push(Vec::from_slice(alloc, column.word().as_bytes())?)?;
    }
    Ok(Line::new(Vec::from_slice(alloc, b"litres")?, figures))
}

/// The line of a product.
fn product_line(
    alloc: Global,
    product: &ProductEntry,
    view: &ProductView,
) -> Result<Line, AllocError>
    ensures { IfOk result (λ line. line ≡ product_line product.now view.now) }
{
    let mut title = Vec::new(alloc);
    put_number(u128::from(product.number.get()), &mut title)?;
    title.push(b' ')?;
    title.extend_from_slice(product.name.as_str().as_bytes())?;
    let mut figures = Vec::new(alloc);
    for column in &COLUMNS {
        figures.push(litres(alloc, u128::from(column.volume(view)))?)?;
    }
    Ok(Line::new(title, figures))
}

/// The line that sums all products.
fn total_line(alloc: Global, views: &[ProductView]) -> Result<Line, AllocError>
    ensures { IfOk result (λ line. line ≡ total_line views.now) }
{
    let mut figures = Vec::new(alloc);
    for column in &COLUMNS {
        figures.push(litres(alloc, column.sum(views))?)?;
    }
    Ok(Line::new(Vec::from_slice(alloc, b"total")?, figures))
}

/// Litres with three decimals, of so many millilitres.
fn litres(alloc: Global, millilitres: u128) -> Result<Vec<u8>, AllocError>
    ensures { IfOk result (λ text. text.items ≡ litres millilitres) }
{
    let mut text = Vec::new(alloc);
    put_number(millilitres / 1000, &mut text)?;
    text.push(b'.')?;
    text.push(digit(millilitres / 100))?;
    text.push(digit(millilitres / 10))?;
    text.push(digit(millilitres))?;
    Ok(text)
}

/// Appends money with two decimals, of so many cents.
fn put_money(cents: u128, text: &mut Vec<u8>) -> Result<(), AllocError>
    ensures { OnOk result (text.new.items ≡ text.old.items ++ money cents) }
{
    put_number(cents / 100, text)?;
    text.push(b'.')?;
    text.push(digit(cents / 10))?;
    text.push(digit(cents))?;
    Ok(())
}

/// The last digit of a number.
fn digit(n: u128) -> u8
    ensures { result ≡ last_digit n }
{
    b'0' + (n % 10) as u8
}

/// Appends a number.
fn put_number(n: u128, text: &mut Vec<u8>) -> Result<(), AllocError>
    ensures { OnOk result (text.new.items ≡ text.old.items ++ decimal n) }
{
    text.extend_from_slice(Buffer::new().format(n).as_bytes())
}
