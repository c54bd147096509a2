//! Writes the tables of a book.

ghost use Rattle.std.specs.Prelude.{◌≡◌, [], ◌++◌, IfOk, OnOk, codes, string_bytes};
ghost use Rattle.std.specs.Io.KnownBytes.{Appends};
ghost use Rattle.devices.specs.Counted.{device_of};
ghost use Rattle.devices.specs.Devices.{AppendsFront};
ghost use Rattle.sales_table.specs.Tables.{draw_titles, sale_line, sale_titles};
ghost use Rattle.sales_table.specs.Texts.{draw_text, draws_text, head_text, sale_text, sales_text};
ghost use Rattle.sales_table.specs.TimedSales.{time_fields, time_titles, timed_text};

use crate::draw_lines::{draw_line, draw_titles};
use crate::fault::TableFault;
use crate::form::Form;
use crate::json_line::{draw_object, sale_object, timed_object};
use crate::sale_lines::{sale_line, sale_titles};
use crate::timed_sale::{TimedSale, time_field};
use devices::{Counted, PIECE_OCTETS, WriteFault, write_whole};
use site_base::{NoMemory, ProductEntry};
use site_book::{Draw, NamedSale, SiteBook};
use std::alloc::Global;
use std::io::Write;

/// Writes the table of a book's sales: a line for each sale of the site, in the order in which they
/// were sold, and in its state at the end of the rows. The book has to have all its rows in memory.
/// The table is written in pieces, so memory doesn't grow with the sales. An interrupted call of
/// the writer takes one of the turns. Fails with `NoMemory`, or as `write_whole` does; then a
/// prefix of the table is written, which may be empty.
pub fn write_sales<W: Write>(
    alloc: Global,
    book: &SiteBook,
    form: Form,
    writer: &mut Counted<W>,
    turns: &mut u64,
) -> Result<(), TableFault>
    requires whole { book.now.forgotten ≡ 0 }
    ensures written { OnOk result (Appends (W.contents (device_of writer.old))
        (W.contents (device_of writer.new)) (sales_text form book.now)) }
    ensures front { AppendsFront (W.contents (device_of writer.old))
        (W.contents (device_of writer.new)) (sales_text form book.now) }
{
    let products = book.config().products();
    let mut sales = book.sales();
    let mut text = sale_head(alloc, form)?;
    while let Some(sold) = sales.next() {
        put_sale(alloc, form, products, &sold, &mut text)?;
        if text.len() >= PIECE_OCTETS {
            put_piece(writer, &mut text, turns)?;
        }
    }
    put_piece(writer, &mut text, turns)?;
    Ok(())
}

/// Writes the table of a book's draws: a line for each draw of a test, in the order in which they
/// were drawn. It replays the rows, and writes as `write_sales` does. The book has to have all its
/// rows in memory.
pub fn write_draws<W: Write>(
    alloc: Global,
    book: &SiteBook,
    form: Form,
    writer: &mut Counted<W>,
    turns: &mut u64,
) -> Result<(), TableFault>
    requires whole { book.now.forgotten ≡ 0 }
    ensures written { OnOk result (Appends (W.contents (device_of writer.old))
        (W.contents (device_of writer.new)) (draws_text form book.now)) }
    ensures front { AppendsFront (W.contents (device_of writer.old))
        (W.contents (device_of writer.new)) (draws_text form book.now) }
{
    let products = book.config().products();
    let mut draws = book.draws(alloc)?;
    let mut text = draw_head(alloc, form)?;
    while let Some(draw) = draws.next()? {
        put_draw(alloc, form, products, &draw, &mut text)?;
        if text.len() >= PIECE_OCTETS {
            put_piece(writer, &mut text, turns)?;
        }
    }
    put_piece(writer, &mut text, turns)?;
    Ok(())
}

/// Writes a piece of a text, and empties it.
fn put_piece<W: Write>(
    writer: &mut Counted<W>,
    text: &mut Vec<u8>,
    turns: &mut u64,
) -> Result<(), WriteFault>
    ensures written { OnOk result (Appends (W.contents (device_of writer.old))
        (W.contents (device_of writer.new)) text.old.items) }
    ensures front { AppendsFront (W.contents (device_of writer.old))
        (W.contents (device_of writer.new)) text.old.items }
    ensures empty { OnOk result (text.new.items ≡ []) }
{
    write_whole(writer, text, turns)?;
    text.clear();
    Ok(())
}

/// What stands above the lines of sales.
pub(crate) fn sale_head(alloc: Global, form: Form) -> Result<Vec<u8>, NoMemory>
    ensures { IfOk result (λ text. text.items ≡ head_text form sale_titles) }
{
    match form {
        Form::Csv => sale_titles(alloc, &[]),
        Form::Json => Ok(Vec::new(alloc)),
    }
}

/// What stands above the lines of sales with their times.
pub(crate) fn timed_head(alloc: Global, form: Form) -> Result<Vec<u8>, NoMemory>
    ensures { IfOk result (λ text. text.items ≡ head_text form (sale_titles ++ time_titles)) }
{
    match form {
        Form::Csv => sale_titles(alloc, &[b"sold at", b"cleared at"]),
        Form::Json => Ok(Vec::new(alloc)),
    }
}

/// What stands above the lines of draws.
pub(crate) fn draw_head(alloc: Global, form: Form) -> Result<Vec<u8>, NoMemory>
    ensures { IfOk result (λ text. text.items ≡ head_text form draw_titles) }
{
    match form {
        Form::Csv => draw_titles(alloc),
        Form::Json => Ok(Vec::new(alloc)),
    }
}

/// Appends the line of a sale.
pub(crate) fn put_sale(
    alloc: Global,
    form: Form,
    products: &[ProductEntry],
    sold: &NamedSale,
    text: &mut Vec<u8>,
) -> Result<(), NoMemory>
    ensures { OnOk result
        (text.new.items ≡ text.old.items ++ sale_text form products.now sold.now) }
{
    match form {
        Form::Csv => text.extend_from_slice(&sale_line(alloc, products, sold, &[])?)?,
        Form::Json => put_object(text, &sale_object(alloc, products, sold)?)?,
    }
    Ok(())
}

/// Appends the line of a sale with its times.
pub(crate) fn put_timed(
    alloc: Global,
    form: Form,
    products: &[ProductEntry],
    times: &TimedSale,
    sold: &NamedSale,
    text: &mut Vec<u8>,
) -> Result<(), NoMemory>
    ensures { OnOk result (text.new.items
        ≡ text.old.items ++ timed_text form products.now times.now sold.now) }
{
    match form {
        Form::Csv => text.extend_from_slice(&timed_line(alloc, products, times, sold)?)?,
        Form::Json => put_object(text, &timed_object(alloc, products, times, sold)?)?,
    }
    Ok(())
}

/// The line of a sale with its times, as comma-separated values. A time that isn't known is an
/// empty field.
fn timed_line(
    alloc: Global,
    products: &[ProductEntry],
    times: &TimedSale,
    sold: &NamedSale,
) -> Result<Vec<u8>, NoMemory>
    ensures { IfOk result (λ line.
        line.items ≡ sale_line products.now (time_fields times.now) sold.now) }
{
    let (sold_at, cleared_at) = (time_field(&times.sold_at), time_field(&times.cleared_at));
    sale_line(alloc, products, sold, &[sold_at, cleared_at])
}

/// Appends the line of a draw.
pub(crate) fn put_draw(
    alloc: Global,
    form: Form,
    products: &[ProductEntry],
    draw: &Draw,
    text: &mut Vec<u8>,
) -> Result<(), NoMemory>
    ensures { OnOk result
        (text.new.items ≡ text.old.items ++ draw_text form products.now draw.now) }
{
    match form {
        Form::Csv => text.extend_from_slice(&draw_line(alloc, products, draw)?)?,
        Form::Json => put_object(text, &draw_object(alloc, products, draw)?)?,
    }
    Ok(())
}

/// Appends an object, and ends its line.
fn put_object(text: &mut Vec<u8>, object: &String) -> Result<(), NoMemory>
    ensures { OnOk result
        (text.new.items ≡ text.old.items ++ (string_bytes object.now ++ codes "\n")) }
{
    text.extend_from_slice(object.as_str().as_bytes())?;
    text.push(b'\n')?;
    Ok(())
}
