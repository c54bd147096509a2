//! The lines of sales.

ghost use Rattle.std.specs.Prelude.{◌≡◌, ◌++◌, IfOk, map};
ghost use Rattle.csv.specs.Writing.{default_writer, row_text};
ghost use Rattle.sales_table.specs.Tables.{decimal_if, sale_line, sale_titles};

use crate::csv_fields::csv_line;
use crate::names::name_of;
use crate::status_words::{cleared_in, status_word, till_of};
use itoa::Buffer;
use site_base::{NoMemory, ProductEntry};
use site_book::NamedSale;
use std::alloc::Global;

/// Returns the titles of a table of sales, and then `more`, as a line.
pub fn sale_titles(alloc: Global, more: &[&[u8]]) -> Result<Vec<u8>, NoMemory>
    ensures { IfOk result (λ line. line.items
        ≡ row_text default_writer (sale_titles ++ map (λ f. f.now) more.now)) }
{
    csv_line(
        alloc,
        &[
            b"shift",
            b"point",
            b"number",
            b"product",
            b"name",
            b"millilitres",
            b"mills",
            b"cents",
            b"prepaid",
            b"status",
            b"till",
            b"cleared in shift",
        ],
        more,
    )
}

/// Returns the line of a sale, in the order of the titles, and then the fields `more`. A missing
/// number is an empty field.
pub fn sale_line(
    alloc: Global,
    products: &[ProductEntry],
    sold: &NamedSale,
    more: &[&[u8]],
) -> Result<Vec<u8>, NoMemory>
    ensures { IfOk result (λ line. line.items
        ≡ sale_line products.now (map (λ f. f.now) more.now) sold.now) }
{
    let sale = &sold.sale;
    let standing = sale.standing;
    let (mut shift, mut point, mut number) = (Buffer::new(), Buffer::new(), Buffer::new());
    let (mut product, mut volume, mut price) = (Buffer::new(), Buffer::new(), Buffer::new());
    let (mut cents, mut prepaid) = (Buffer::new(), Buffer::new());
    let (mut till, mut cleared) = (Buffer::new(), Buffer::new());
    csv_line(
        alloc,
        &[
            shift.format(sold.shift.get()).as_bytes(),
            point.format(sold.point.get()).as_bytes(),
            number.format(sold.number.get()).as_bytes(),
            product.format(sale.product.get()).as_bytes(),
            name_of(products, sale.product).as_bytes(),
            volume.format(sale.volume.get()).as_bytes(),
            price.format(sale.price.get()).as_bytes(),
            cents.format(sale.cents.get()).as_bytes(),
            format_if(&mut prepaid, sale.prepaid).as_bytes(),
            status_word(&standing).as_bytes(),
            format_if(&mut till, till_of(&standing)).as_bytes(),
            format_if(&mut cleared, cleared_in(&standing)).as_bytes(),
        ],
        more,
    )
}

/// A number in decimal; without one nothing.
fn format_if(buffer: &mut Buffer, number: Option<u32>) -> &str
    ensures { result.now ≡ decimal_if number }
{
    match number {
        Some(n) => buffer.format(n),
        None => "",
    }
}
