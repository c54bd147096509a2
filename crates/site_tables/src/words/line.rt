//! What a line of a table says.

use crate::words::event::{point_of, sale_named, shift_of, till_of};
use anyhow::Context;
use site_base::{
    FpNo, Listing, Millilitres, Mills, NozzleEntry, PointEntry, ProductEntry, ProductName,
    ProductNo, SaleId, ShiftNo, TillNo,
};
use std::alloc::Global;

/// What a line of a table says.
#[derive(Drop)]
pub enum Line {
    /// An empty line, or a comment: it ends a paragraph, and is printed as it is.
    Text(String),
    /// `rows 10`: a site begins. It is run, and a book of it with enough room beside it.
    Rows(u32),
    /// `book 10`: a site begins, of which only a book is kept, with at most this many rows.
    Book(u32),
    /// `manager 1`
    Manager(TillNo),
    /// `product 1 diesel 1500`
    Product(ProductEntry),
    /// `point 2 1@0 2@1000`: each nozzle's product and opening reading.
    Point(PointEntry),
    /// `repeat 998`: the paragraph of events that follows is run this often, in one run. Its last
    /// rows are printed.
    Repeat(u32),
    /// `show 3`: the point as the site shows it.
    Show(FpNo),
    /// `totals`: what each till has cleared in all shifts, with its cents, and each product.
    Totals,
    /// `shift 2`: what was cleared and drawn in the shift, as the site shows it.
    Shift(ShiftNo),
    /// `sale 3/1`, `sale 3/2/1`: the sale as the site shows it.
    Sale(FpNo, SaleId),
    /// `changes 2`: the rows from place 2 on of which a dispenser gets a notice, and how many rows
    /// there are.
    Changes(u64),
    /// `leave 1`: the till is signed off, if it is signed on.
    Leave(TillNo),
    /// `t1 Open 3`: an event of a paragraph, in its words. Any line that isn't one of the others.
    Event(String),
}

impl Line {
    /// Reads a line.
    pub fn read(alloc: Global, text: &str) -> anyhow::Result<Line> {
        let words: Vec<&str> = text.split_whitespace().collect(alloc)?;
        match *words {
            [] => Ok(Line::Text(String::new(alloc))),
            ["totals"] => Ok(Line::Totals),
            [name, word] => of_number(alloc, text, name, word),
            ["product", q, name, price] => Ok(Line::Product(product_of(alloc, q, name, price)?)),
            ["point", p, ref nozzles @ ..] => Ok(Line::Point(entry_of(alloc, p, nozzles)?)),
            [first, ..] => event_or_comment(alloc, text, first),
        }
    }
}

/// A line of a name and a number; of another name, what it says otherwise.
fn of_number(alloc: Global, text: &str, name: &str, word: &str) -> anyhow::Result<Line> {
    match name {
        "rows" => Ok(Line::Rows(word.parse()?)),
        "book" => Ok(Line::Book(word.parse()?)),
        "changes" => Ok(Line::Changes(word.parse()?)),
        "repeat" => Ok(Line::Repeat(word.parse()?)),
        "point" => Ok(Line::Point(entry_of(alloc, word, &[])?)),
        _ => of_part(alloc, text, name, word),
    }
}

/// A line of a name and a part of the site; of another name, what it says otherwise.
fn of_part(alloc: Global, text: &str, name: &str, word: &str) -> anyhow::Result<Line> {
    match name {
        "manager" => Ok(Line::Manager(till_of(word).context("no till")?)),
        "leave" => Ok(Line::Leave(till_of(word).context("no till")?)),
        "show" => Ok(Line::Show(point_of(word).context("no point")?)),
        "shift" => Ok(Line::Shift(shift_of(word).context("no shift")?)),
        "sale" => {
            let (p, id) = sale_named(word).context("no sale")?;
            Ok(Line::Sale(p, id))
        }
        _ => event_or_comment(alloc, text, name),
    }
}

/// A comment, or an event in its words.
fn event_or_comment(alloc: Global, text: &str, first: &str) -> anyhow::Result<Line> {
    let text = String::from_str(alloc, text)?;
    if first.starts_with('#') {
        return Ok(Line::Text(text));
    }
    Ok(Line::Event(text))
}

fn product_of(alloc: Global, q: &str, name: &str, price: &str) -> anyhow::Result<ProductEntry> {
    Ok(ProductEntry {
        number: ProductNo::new(q.parse()?).context("no product")?,
        name: ProductName::new(String::from_str(alloc, name)?).context("no name")?,
        price: Mills::new(price.parse()?).context("no price")?,
    })
}

fn entry_of(alloc: Global, p: &str, words: &[&str]) -> anyhow::Result<PointEntry> {
    let mut nozzles = Vec::new(alloc);
    for word in words {
        nozzles.push(nozzle_of(word)?)?;
    }
    Ok(PointEntry {
        number: point_of(p).context("no point")?,
        nozzles: Listing::from(nozzles),
    })
}

/// `2@1000`: a nozzle of product 2 whose meter reads 1000.
fn nozzle_of(word: &str) -> anyhow::Result<NozzleEntry> {
    let (q, reading) = word.split_once('@').context("no nozzle")?;
    Ok(NozzleEntry {
        product: ProductNo::new(q.parse()?).context("no product")?,
        reading: Millilitres::new(reading.parse()?).context("no reading")?,
    })
}
