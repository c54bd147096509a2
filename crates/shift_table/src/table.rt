//! The table of a book's shifts.

ghost use Rattle.std.specs.Prelude.{◌≡◌, ◌+◌, ◌≤◌, ◌++◌, codes, string_bytes, IfOk, OnOk};
ghost use Rattle.std.specs.Prelude.{Some};
ghost use Rattle.serde_json.specs.Written.{compact_text};
ghost use Rattle.shift_table.specs.ShiftObjects.{shift_data};
ghost use Rattle.site_base.specs.declared.numbers.TheConstants.{GREATEST_SHIFT};
ghost use Rattle.shift_table.specs.ShiftTable.{line_at, line_of, lines_from, shifts_from};
ghost use Rattle.shift_table.specs.ShiftTable.{shifts_text};

use crate::form::Form;
use crate::json::shift_object;
use crate::text::put_shift_line;
use row_tally::{ShiftTimes, TimesReader};
use shift_ledger::ShiftRow;
use site_base::{NoMemory, ProductEntry, ShiftNo};
use site_book::SiteBook;
use std::alloc::Global;

/// The most shifts that `shifts_from` writes.
pub const SHIFTS_AT_ONCE: u16 = 64;

/// Returns the table of a book's shifts, with the times that were read: a line for each shift in
/// order, from shift 1 to the open one.
pub fn shifts_text(
    alloc: Global,
    book: &SiteBook,
    read: &TimesReader,
    form: Form,
) -> Result<String, NoMemory>
    ensures { IfOk result (λ text. string_bytes text ≡ shifts_text form book.now read.now) }
{
    let first = ShiftNo::new(1).unwrap();
    lines_from(alloc, book, read, form, first, book.open_shift().get())
}

/// Returns the lines of this table from this shift on: up to the open one, and at most
/// `SHIFTS_AT_ONCE`.
pub fn shifts_from(
    alloc: Global,
    book: &SiteBook,
    read: &TimesReader,
    form: Form,
    first: ShiftNo,
) -> Result<String, NoMemory>
    ensures { IfOk result (λ text.
        string_bytes text ≡ shifts_from first form book.now read.now) }
{
    let left = (book.open_shift().get() + 1).saturating_sub(first.get());
    lines_from(alloc, book, read, form, first, left.min(SHIFTS_AT_ONCE))
}

/// The lines of this many shifts, from this one on.
fn lines_from(
    alloc: Global,
    book: &SiteBook,
    read: &TimesReader,
    form: Form,
    first: ShiftNo,
    count: u16,
) -> Result<String, NoMemory>
    requires { first + count ≤ GREATEST_SHIFT + 1 }
    ensures { IfOk result (λ text.
        string_bytes text ≡ lines_from form book.now read.now first count) }
{
    let mut text = String::new(alloc);
    for behind in 0..count {
        let Some(number) = ShiftNo::new(first.get() + behind) else {
            unreachable!();
        };
        put_shift(alloc, book, read, form, number, &mut text)?;
    }
    Ok(text)
}

/// Appends the line of a shift.
fn put_shift(
    alloc: Global,
    book: &SiteBook,
    read: &TimesReader,
    form: Form,
    number: ShiftNo,
    text: &mut String,
) -> Result<(), NoMemory>
    ensures { OnOk result
        (string_bytes text.new ≡ string_bytes text.old ++ line_at form book.now read.now number) }
{
    if let Some(row) = &book.shift(number) {
        let times = read.times(number);
        put_row(alloc, book, form, number, &times, row, text)?;
    }
    Ok(())
}

/// Appends the line of a shift with these times and figures.
fn put_row(
    alloc: Global,
    book: &SiteBook,
    form: Form,
    number: ShiftNo,
    times: &ShiftTimes,
    row: &ShiftRow,
    text: &mut String,
) -> Result<(), NoMemory>
    ensures { OnOk result (string_bytes text.new
        ≡ string_bytes text.old ++ line_of form book.now number times.now (Some row.now)) }
{
    let products = book.config().products();
    let is_open = number.get() == book.open_shift().get();
    match form {
        Form::Text => put_shift_line(text, products, number, times, row)?,
        Form::Json => put_object(alloc, products, number, is_open, times, row, text)?,
    }
    Ok(())
}

/// Appends the object of a shift, and ends its line.
fn put_object(
    alloc: Global,
    products: &[ProductEntry],
    number: ShiftNo,
    is_open: bool,
    times: &ShiftTimes,
    row: &ShiftRow,
    text: &mut String,
) -> Result<(), NoMemory>
    ensures { OnOk result (string_bytes text.new ≡ string_bytes text.old
        ++ (compact_text (shift_data products.now number is_open times.now row.now)
        ++ codes "\n")) }
{
    let object = shift_object(alloc, products, number, is_open, times, row)?;
    text.push_str(object.as_str())?;
    text.push_str("\n")?;
    Ok(())
}
