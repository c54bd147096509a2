//! The unpaid transactions, kept up to date as the book grows.

ghost use Rattle.std.specs.Prelude.{◌≡◌, ◌+◌, ◌≤◌, ◌++◌, ◌∷◌, [], List, take, filter, IfOk, OnOk};
ghost use Rattle.std.specs.Prelude.{OnErr, length};
ghost use Rattle.std.specs.Prelude.{Some, option_and_then, slice_get};
ghost use Rattle.std.specs.List.{cons_option};
ghost use Rattle.site_base.specs.declared.row.Row.{Row as RowFacts};
ghost use Rattle.site_base.specs.Events.{point_named};
ghost use Rattle.written_site.specs.RowWords.{closes_shift, open_after};
ghost use Rattle.written_site.specs.SaleWords.{key_sold, number_sold};
ghost use Rattle.site_book.specs.Book.{Book, site_of_book, with_rows_forgotten};
ghost use Rattle.site_book.specs.BookSales.{sale_named};
ghost use Rattle.site_book.specs.Unpaid.{GoesBy, as_they_stand, is_due, unpaid_sales};

use crate::book::SiteBook;
use crate::named_sale::NamedSale;
use site_base::{Answer, Event, NoMemory, Row, ShiftNo};
use std::alloc::Global;
use std::marker::Model;

/// The transactions of a book that aren't cleared, in the order in which they were sold. Each row
/// of the book is read once, before the book forgets it. So a read costs no more than the new rows
/// and the unpaid transactions.
#[derive(Drop)]
pub struct UnpaidSales {
    // The rows before this place are read.
    place: u64,
    // The shift that is open after these rows.
    shift: ShiftNo,
    sales: Vec<NamedSale>,
}

impl Model for UnpaidSales {
    ghost use Rattle.site_book.specs.Unpaid.{Kept};

    ghost Value = { Kept };

    ghost view = { λ u. record { place = u.place; shift = u.shift; sales = u.sales.items } };
}

impl UnpaidSales {
    /// Returns no transactions, for a book of which no row is read or forgotten. It takes no
    /// memory.
    pub fn new(alloc: Global) -> Self
        ensures { (b : Book) → b.forgotten ≡ 0 → GoesBy result b }
    {
        UnpaidSales {
            place: 0,
            shift: ShiftNo::FIRST,
            sales: Vec::new(alloc),
        }
    }

    /// Reads the rows of the book that aren't read yet, and looks up what was unpaid. If the list
    /// matched the book, it then has all unpaid transactions of the book, in their present state.
    /// After `NoMemory` it still matches the book, with some rows read.
    pub fn read(&mut self, alloc: Global, book: &SiteBook) -> Result<(), NoMemory>
        ensures kept { GoesBy self.old book.now → GoesBy self.new book.now }
        ensures all { OnOk result
            (GoesBy self.old book.now → self.new.sales ≡ unpaid_sales book.now) }
        ensures read { OnOk result
            (GoesBy self.old book.now → length book.now.rows ≤ self.new.place) }
    {
        while let Some(row) = &book.row(self.place) {
            self.read_row(book, row)?;
        }
        self.sales = due_sales(alloc, book, &self.sales)?;
        Ok(())
    }

    /// Reads the rows of the book that aren't read yet, and then lets the book forget all its rows.
    /// After `NoMemory` the book has forgotten none.
    pub fn forget_rows(&mut self, alloc: Global, book: &mut SiteBook) -> Result<(), NoMemory>
        ensures kept { GoesBy self.old book.old → GoesBy self.new book.new }
        ensures forgets { OnOk result (book.new ≡ with_rows_forgotten book.old) }
        ensures err { OnErr result (book.new ≡ book.old) }
    {
        self.read(alloc, book)?;
        book.forget_rows();
        Ok(())
    }

    /// Returns the transactions that were unpaid at the last read of the book.
    pub fn as_slice(&self) -> &[NamedSale]
        ensures { result.now ≡ self.now.sales }
    {
        &self.sales
    }
}

impl UnpaidSales {
    /// Reads the next row: what it sold is kept.
    fn read_row(&mut self, book: &SiteBook, row: &Row) -> Result<(), NoMemory>
        requires { slice_get book.now.rows self.old.place ≡ Some row.now }
        ensures kept { GoesBy self.old book.now → GoesBy self.new book.now }
        ensures place { OnOk result (self.new.place ≡ self.old.place + 1) }
        ensures err { OnErr result (self.new ≡ self.old) }
    {
        // There are fewer rows than numbers.
        book.len();
        push_if(sale_made(book, row, self.shift), &mut self.sales)?;
        self.shift = shift_after(book, self.place, row, self.shift);
        self.place += 1;
        Ok(())
    }
}

/// The sale that this row made, where this shift was open, as it stands.
fn sale_made(book: &SiteBook, row: &Row, shift: ShiftNo) -> Option<NamedSale>
    ensures { (earlier : List RowFacts) → shift ≡ open_after earlier → result
        ≡ option_and_then (sale_named (site_of_book book.now))
        (key_sold earlier (point_named row.now.event) (number_sold row.now.reply)) }
{
    let Ok(Answer::Sold { seq, growth: _ }) = row.reply else {
        return None;
    };
    let point = row.event.point()?;
    let sale = book.sale(point, shift, seq)?;
    Some(NamedSale {
        shift,
        point,
        number: seq,
        sale,
    })
}

/// Adds a sale, if there is one.
fn push_if(sold: Option<NamedSale>, sales: &mut Vec<NamedSale>) -> Result<(), NoMemory>
    ensures ok { OnOk result (sales.new.items ≡ sales.old.items ++ cons_option sold []) }
    ensures err { OnErr result (sales.new.items ≡ sales.old.items) }
{
    if let Some(sale) = sold {
        sales.push(sale)?;
    }
    Ok(())
}

/// The shift that is open after the row at this place, where this one was before it.
fn shift_after(book: &SiteBook, place: u64, row: &Row, shift: ShiftNo) -> ShiftNo
    requires { slice_get book.now.rows place ≡ Some row.now }
    ensures { shift ≡ open_after (take place book.now.rows)
        → result ≡ open_after (take (place + 1) book.now.rows) }
{
    if !closes_shift(row) {
        return shift;
    }
    // As many shifts as the rows open have numbers.
    book.len();
    book.open_shift().get();
    match ShiftNo::new(shift.get() + 1) {
        Some(next) => next,
        None => shift,
    }
}

/// Is it an accepted CloseShift?
fn closes_shift(row: &Row) -> bool
    ensures { result ≡ closes_shift row.now }
{
    row.reply.is_ok() && matches!(row.event, Event::CloseShift)
}

/// Those of these transactions that are unpaid, as they stand.
fn due_sales(
    alloc: Global,
    book: &SiteBook,
    sales: &[NamedSale],
) -> Result<Vec<NamedSale>, NoMemory>
    ensures { IfOk result (λ due. due.items
        ≡ filter is_due (as_they_stand (site_of_book book.now) sales.now)) }
{
    let mut due = Vec::new(alloc);
    for sold in sales {
        add_due(book, sold, &mut due)?;
    }
    Ok(due)
}

/// Adds a transaction as it stands, if it is unpaid.
fn add_due(book: &SiteBook, sold: &NamedSale, due: &mut Vec<NamedSale>) -> Result<(), NoMemory>
    ensures { OnOk result (due.new.items ≡ due.old.items
        ++ filter is_due (as_they_stand (site_of_book book.now) (sold.now ∷ []))) }
{
    if let Some(sale) = book.sale(sold.point, sold.shift, sold.number) {
        if sale.is_unpaid() {
            due.push(NamedSale { sale, ..*sold })?;
        }
    }
    Ok(())
}
