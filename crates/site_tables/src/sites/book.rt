//! The book of a table.

ghost use Rattle.std.specs.Prelude.{◌≡◌, true};

use anyhow::{bail, ensure};
use site_base::{Actor, Event, NoMemory, NoRow, Placed, Reply, Row, SiteConfig, TillNo, Totals};
use site_book::SiteBook;
use std::alloc::Global;

/// Opens a book. If an allocation failed, it is opened again.
pub fn open_book(rt: &impl Eprint, alloc: Global, config: &SiteConfig) -> anyhow::Result<SiteBook> {
    match SiteBook::try_open(alloc, config) {
        Ok(book) => Ok(book),
        Err(NoMemory) => {
            eprintln!(rt; "an allocation failed")?;
            Ok(SiteBook::try_open(alloc, config)?)
        }
    }
}

/// Applies an event to the book. After an allocation that failed, which has left the book as it
/// was, it is applied again.
fn apply(
    rt: &impl Eprint,
    book: &mut SiteBook,
    actor: &Actor,
    event: &Event,
) -> anyhow::Result<Option<Placed>> {
    let rows = book.len();
    let mut told = book.apply(*actor, *event);
    if told == Err(NoRow::NoMemory) {
        eprintln!(rt; "an allocation failed")?;
        ensure!(book.len() == rows, "a row of a failed allocation");
        told = book.apply(*actor, *event);
    }
    match told {
        Ok(placed) => Ok(Some(placed)),
        Err(NoRow::BookFull) => Ok(None),
        Err(NoRow::NoMemory) => bail!("want of memory twice"),
    }
}

/// Applies an event to the book that is kept beside a site, as the next row. The book has to answer
/// what the site did.
pub fn apply_beside(
    rt: &impl Eprint,
    book: &mut SiteBook,
    asked: Option<&(Actor, Event)>,
    reply: Option<&Reply>,
) -> anyhow::Result<()> {
    let Some((actor, event)) = asked else {
        return Ok(());
    };
    let rows = book.len();
    let Some(placed) = &apply(rt, book, actor, event)? else {
        bail!("the book is full");
    };
    ensure!(placed.place == rows, "another place than the next");
    if let Some(reply) = reply {
        ensure!(placed.reply == *reply, "the book answers otherwise");
    }
    Ok(())
}

/// Applies an event to a book without a site. If it is to be shown, prints the row, or that the
/// book is full.
pub fn apply_alone(
    rt: &(impl Print + Eprint),
    book: &mut SiteBook,
    asked: Option<&(Actor, Event)>,
    shown: bool,
) -> anyhow::Result<()> {
    let Some((actor, event)) = asked else {
        return Ok(());
    };
    match &apply(rt, book, actor, event)? {
        _ if !shown => Ok(()),
        Some(placed) => print_row(rt, placed.place, book.row(placed.place)),
        None => {
            println!(rt; "{actor} {event}: 30 BookFull")?;
            Ok(())
        }
    }
}

/// Prints a row behind its place.
fn print_row(rt: &impl Print, place: u64, row: Option<Row>) -> anyhow::Result<()> {
    match row {
        Some(row) => println!(rt; "{place} {row}")?,
        None => bail!("no such row"),
    }
    Ok(())
}

/// Signs a till off, and prints the place of the row, if it was signed on.
pub fn leave(rt: &impl Print, book: &mut SiteBook, till: TillNo) -> anyhow::Result<()> {
    match &book.sign_off(till) {
        Some(placed) => print_row(rt, placed.place, book.row(placed.place)),
        None => {
            println!(rt; "leave {}: false", till.get())?;
            Ok(())
        }
    }
}

/// Prints the rows from a place on that have a change, and how many rows there are.
pub fn print_changes(
    rt: &impl Print,
    alloc: Global,
    book: &SiteBook,
    place: u64,
) -> anyhow::Result<()> {
    ensure!(has_all_rows(book), "rows are forgotten");
    let changes = book.changes_since(alloc, place)?;
    for row in &changes {
        println!(rt; "change {row}")?;
    }
    println!(rt; "rows {}", book.len())?;
    Ok(())
}

/// Has the book forgotten no row?
fn has_all_rows(book: &SiteBook) -> bool
    ensures { result ≡ true → book.now.forgotten ≡ 0 }
{
    book.rows_in_memory() as u64 == book.len()
}

/// Returns the figures that the book keeps, which have to be those of its audit.
pub fn audit(alloc: Global, book: &SiteBook) -> anyhow::Result<Totals> {
    ensure!(has_all_rows(book), "rows are forgotten");
    let totals = book.totals(alloc)?;
    let audit = &book.audit(alloc)?;
    ensure!(
        totals.rows == audit.rows && totals.rows == book.len(),
        "the rows aren't those counted"
    );
    ensure!(
        totals.products.as_slice() == audit.products.as_slice(),
        "the products' totals aren't those of the audit"
    );
    ensure!(
        totals.tills.as_slice() == audit.tills.as_slice(),
        "the tills' totals aren't those of the audit"
    );
    Ok(totals)
}
