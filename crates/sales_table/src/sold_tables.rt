//! The tables of a history whose rows were read one after another, as complete texts.

ghost use Rattle.std.specs.Prelude.{◌≡◌, ◌++◌, IfOk, OnOk};
ghost use Rattle.site_book.specs.Book.{site_of_book};
ghost use Rattle.site_book.specs.BookSales.{sale_named};
ghost use Rattle.sales_table.specs.SoldLists.{drawn_text, sold_line, table_of_span};
ghost use Rattle.sales_table.specs.TimedSales.{key_of};

use crate::form::Form;
use crate::tables::{draw_head, put_draw, put_timed, timed_head};
use crate::timed_sale::{SaleName, TimedSale};
use site_base::{NoMemory, ProductEntry};
use site_book::{Draw, NamedSale, SiteBook};
use stamps::TimeSpan;
use std::alloc::Global;

/// Returns the table of these sales with their times, in this order: a line for each sale that the
/// book's site has, in its present state. With a span it has only the sales that were cleared in
/// that span.
pub fn sold_table(
    alloc: Global,
    book: &SiteBook,
    sales: &[TimedSale],
    span: &Option<TimeSpan>,
    form: Form,
) -> Result<Vec<u8>, NoMemory>
    ensures { IfOk result (λ text. text.items ≡ table_of_span form book.now span.now sales.now) }
{
    let mut text = timed_head(alloc, form)?;
    for sale in sales {
        if sale.is_asked(span) {
            put_sold(alloc, book, sale, form, &mut text)?;
        }
    }
    Ok(text)
}

/// Appends the line of a sale, if the book's site has it.
fn put_sold(
    alloc: Global,
    book: &SiteBook,
    sale: &TimedSale,
    form: Form,
    text: &mut Vec<u8>,
) -> Result<(), NoMemory>
    ensures { OnOk result
        (text.new.items ≡ text.old.items ++ sold_line form book.now sale.now) }
{
    match &find_sale(book, &sale.name) {
        Some(sold) => put_timed(alloc, form, book.config().products(), sale, sold, text),
        None => Ok(()),
    }
}

/// The sale of this name, as it stands at the book's site.
fn find_sale(book: &SiteBook, name: &SaleName) -> Option<NamedSale>
    ensures { result ≡ sale_named (site_of_book book.now) (key_of name.now) }
{
    let sale = book.sale(name.point, name.shift, name.number)?;
    Some(NamedSale {
        shift: name.shift,
        point: name.point,
        number: name.number,
        sale,
    })
}

/// Returns the table of these draws, in this order.
pub fn drawn_table(
    alloc: Global,
    products: &[ProductEntry],
    draws: &[Draw],
    form: Form,
) -> Result<Vec<u8>, NoMemory>
    ensures { IfOk result (λ text. text.items ≡ drawn_text form products.now draws.now) }
{
    let mut text = draw_head(alloc, form)?;
    for draw in draws {
        put_draw(alloc, form, products, draw, &mut text)?;
    }
    Ok(text)
}
