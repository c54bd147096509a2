//! The tables for people: litres with three decimals, in columns.

ghost use Rattle.std.specs.Prelude.{◌≡◌, ◌++◌, IfOk, OnOk};
ghost use Rattle.meter_table.specs.People.{last_digit, litres, litres_up};

use crate::figures::NozzleFigures;
use crate::gap::Replacement;
use crate::words::put_number;
use row_tally::{RefusedRun, RowPlace};
use sales_table::name_of;
use site_base::{NoMemory, ProductEntry};
use std::alloc::{AllocError, Global};

/// The titles of the columns.
const TITLES: [&str; 14] = [
    "point", "nozzle", "product", "name", "opening", "closing", "metered", "sold", "drawn",
    "running", "replaced", "jumps", "refused", "highest",
];

/// A line of words, a word a column.
#[derive(Drop)]
struct Line {
    words: Vec<Vec<u8>>,
}

/// Appends the table of these nozzles: each column is as wide as its longest word.
pub(crate) fn put_figures(
    alloc: Global,
    products: &[ProductEntry],
    figures: &[NozzleFigures],
    text: &mut Vec<u8>,
) -> Result<(), NoMemory> {
    let mut lines = Vec::new(alloc);
    lines.push(title_line(alloc)?)?;
    for x in figures {
        lines.push(figure_line(alloc, products, x)?)?;
    }
    for line in &lines {
        put_line(&lines, line, text)?;
    }
    Ok(())
}

/// The titles as a line.
fn title_line(alloc: Global) -> Result<Line, AllocError> {
    let mut words = Vec::new(alloc);
    for title in TITLES {
        words.push(Vec::from_slice(alloc, title.as_bytes())?)?;
    }
    Ok(Line { words })
}

/// The line of a nozzle.
fn figure_line(
    alloc: Global,
    products: &[ProductEntry],
    x: &NozzleFigures,
) -> Result<Line, AllocError> {
    let mut words = Vec::new(alloc);
    words.push(number(alloc, u64::from(x.point.get()))?)?;
    words.push(number(alloc, u64::from(x.nozzle.get()))?)?;
    words.push(number(alloc, u64::from(x.product.get()))?)?;
    let name = name_of(products, x.product);
    words.push(Vec::from_slice(alloc, name.as_bytes())?)?;
    put_volumes(alloc, x, &mut words)?;
    words.push(number(alloc, x.replaced)?)?;
    words.push(litres_up(alloc, x.raised, x.lowered)?)?;
    words.push(number(alloc, x.refused)?)?;
    words.push(match x.highest {
        Some(reading) => litres(alloc, reading.get())?,
        None => Vec::from_slice(alloc, b"-")?,
    })?;
    Ok(Line { words })
}

/// Appends a nozzle's readings and volumes.
fn put_volumes(
    alloc: Global,
    x: &NozzleFigures,
    words: &mut Vec<Vec<u8>>,
) -> Result<(), AllocError> {
    let volumes = [
        x.opening.get(),
        x.closing.get(),
        x.metered,
        x.sold,
        x.drawn,
        x.running,
    ];
    for volume in volumes {
        words.push(litres(alloc, volume)?)?;
    }
    Ok(())
}

/// Appends a line, its words at the right of their columns.
fn put_line(lines: &[Line], line: &Line, text: &mut Vec<u8>) -> Result<(), AllocError> {
    for (column, word) in line.words.iter().enumerate() {
        if column > 0 {
            text.extend_from_slice(b"  ")?;
        }
        for _ in word.len()..width(lines, column) {
            text.push(b' ')?;
        }
        text.extend_from_slice(word)?;
    }
    text.push(b'\n')?;
    Ok(())
}

/// The width of a column.
fn width(lines: &[Line], column: usize) -> usize {
    let mut most = 0;
    for line in lines {
        if let Some(word) = line.words.get(column) {
            most = most.max(word.len());
        }
    }
    most
}

/// Appends a replaced meter.
pub(crate) fn put_replaced(
    alloc: Global,
    x: &Replacement,
    text: &mut Vec<u8>,
) -> Result<(), NoMemory> {
    put_place(&x.place, text)?;
    text.extend_from_slice(b" point ")?;
    put_number(u64::from(x.point.get()), text)?;
    text.extend_from_slice(b" nozzle ")?;
    put_number(u64::from(x.nozzle.get()), text)?;
    text.extend_from_slice(b": till ")?;
    put_number(u64::from(x.till.get()), text)?;
    text.extend_from_slice(b" replaced the meter, ")?;
    put_step(alloc, x.old.get(), x.new.get(), text)?;
    text.push(b'\n')?;
    Ok(())
}

/// Appends a run of refused readings.
pub(crate) fn put_run(alloc: Global, x: &RefusedRun, text: &mut Vec<u8>) -> Result<(), NoMemory> {
    put_place(&x.first, text)?;
    text.extend_from_slice(b" point ")?;
    put_number(u64::from(x.point.get()), text)?;
    text.extend_from_slice(b" nozzle ")?;
    put_number(u64::from(x.nozzle.get()), text)?;
    text.extend_from_slice(b": refused ")?;
    put_number(u64::from(x.refusal.number()), text)?;
    text.extend_from_slice(b" up to row ")?;
    put_number(x.last, text)?;
    text.extend_from_slice(b", ")?;
    put_step(alloc, x.expected.get(), x.reported.get(), text)?;
    match x.settled {
        Some(row) => {
            text.extend_from_slice(b", settled by row ")?;
            put_number(row, text)?;
        }
        None => text.extend_from_slice(b", open")?,
    }
    text.push(b'\n')?;
    Ok(())
}

/// Appends a row's number, and its time, if that is known.
fn put_place(place: &RowPlace, text: &mut Vec<u8>) -> Result<(), AllocError> {
    text.extend_from_slice(b"row ")?;
    put_number(place.row, text)?;
    if let Some(time) = &place.at {
        text.push(b' ')?;
        text.extend_from_slice(time.as_octets())?;
    }
    Ok(())
}

/// Appends two readings and their difference.
fn put_step(alloc: Global, old: u64, new: u64, text: &mut Vec<u8>) -> Result<(), AllocError> {
    put_litres(alloc, old, text)?;
    text.extend_from_slice(b" to ")?;
    put_litres(alloc, new, text)?;
    text.extend_from_slice(b", ")?;
    put_litres_up(alloc, new, old, text)
}

/// A number in decimal.
fn number(alloc: Global, n: u64) -> Result<Vec<u8>, AllocError> {
    let mut text = Vec::new(alloc);
    put_number(n, &mut text)?;
    Ok(text)
}

/// Appends litres with three decimals, of so many millilitres.
pub(crate) fn put_litres(
    alloc: Global,
    millilitres: u64,
    text: &mut Vec<u8>,
) -> Result<(), AllocError>
    ensures { OnOk result (text.new.items ≡ text.old.items ++ litres millilitres) }
{
    text.extend_from_slice(&litres(alloc, millilitres)?)
}

/// Appends the same of so many up less so many down, with their sign.
pub(crate) fn put_litres_up(
    alloc: Global,
    up: u64,
    down: u64,
    text: &mut Vec<u8>,
) -> Result<(), AllocError>
    ensures { OnOk result (text.new.items ≡ text.old.items ++ litres_up up down) }
{
    text.extend_from_slice(&litres_up(alloc, up, down)?)
}

/// Litres with three decimals, of so many millilitres up less so many down, with their sign.
#[tactic(auto, unfolding(crate::specs::People::litres_up))]
fn litres_up(alloc: Global, up: u64, down: u64) -> Result<Vec<u8>, AllocError>
    ensures { IfOk result (λ text. text.items ≡ litres_up up down) }
{
    if down <= up {
        return litres(alloc, up - down);
    }
    let mut text = Vec::from_slice(alloc, b"-")?;
    text.extend_from_slice(&litres(alloc, down - up)?)?;
    Ok(text)
}

/// Litres with three decimals, of so many millilitres.
#[tactic(auto, unfolding(crate::specs::People::litres))]
fn litres(alloc: Global, millilitres: u64) -> Result<Vec<u8>, AllocError>
    ensures { IfOk result (λ text. text.items ≡ litres millilitres) }
{
    let mut text = Vec::new(alloc);
    put_number(millilitres / 1000, &mut text)?;
    text.push(b'.')?;
    text.push(digit(millilitres / 100))?;
    text.push(digit(millilitres / 10))?;
    text.push(digit(millilitres))?;
    Ok(text)
}

/// The last digit of a number.
fn digit(n: u64) -> u8
    ensures { result ≡ last_digit n }
{
    b'0' + (n % 10) as u8
}
