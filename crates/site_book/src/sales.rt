//! The sales of a book, one after another.

ghost use Rattle.std.specs.Prelude.{◌≡◌, ◌+◌, ◌<◌, ◌≤◌, List, length, take, slice_get};
ghost use Rattle.std.specs.Prelude.{option_and_then, Some};
ghost use Rattle.std.specs.List.{cons_option};
ghost use Rattle.site_base.specs.declared.numbers.TheConstants.{GREATEST_SHIFT};
ghost use Rattle.site_base.specs.declared.row.Row.{Row as RowFacts};
ghost use Rattle.site_base.specs.Events.{point_named};
ghost use Rattle.transaction_buffer.specs.Sales.{key, sale_of};
ghost use Rattle.written_site.specs.RowWords.{closes_shift, open_after};
ghost use Rattle.written_site.specs.SaleWords.{key_sold, number_sold};
ghost use Rattle.site_book.specs.Book.{site_of_book};
ghost use Rattle.site_book.specs.BookSales.{book_sales, sale_named, sales_from, AreAllSales};
ghost use Rattle.site_book.specs.BookSales.{IsReadTo};
ghost use Rattle.site_book.specs.Readings.{IsNext};

use crate::book::SiteBook;
use crate::named_sale::NamedSale;
use site_base::{Answer, Event, FpNo, Row, Seq, ShiftNo};
use std::marker::Model;
use transaction_buffer::Sale;

/// The sales of a book that are left to read, in the order in which they were sold. Contracts see
/// their list. In code there is no list, but a place among the rows.
#[derive(Drop)]
pub struct Sales<'a> {
    book: &'a SiteBook,
    // The sales of the rows before this place are read.
    place: u64,
    // The shift that is open after these rows.
    shift: ShiftNo,
}

impl<'a> Model for Sales<'a> {
    ghost use Rattle.std.specs.Prelude.{List};
    ghost use Rattle.site_book.specs.BookSales.{sales_from, IsReadTo};
    ghost use Rattle.site_book.specs.declared.named_sale.NamedSale.{NamedSale as NamedFacts};

    ghost Value = { List NamedFacts };

    ghost view = { λ x. sales_from x.place x.book.now };

    ghost invariant = { λ x. IsReadTo x.place x.shift x.book.now };
}

impl SiteBook {
    /// Returns the sale of this point in this shift with this number, as it was sold, with its
    /// present state; None if there is no such sale.
    pub fn sale(&self, p: FpNo, shift: ShiftNo, number: Seq) -> Option<Sale>
        ensures { result ≡ sale_of (key shift p number) (site_of_book self.now).sales }
    {
        self.site.sale(p, shift, number)
    }

    /// Returns all sales of the site, each once, in the order in which the rows sold them, and in
    /// its state at the end of the rows. The book has to have all its rows in memory.
    pub fn sales(&self) -> Sales<'_>
        requires whole { self.now.forgotten ≡ 0 }
        ensures told { result ≡ book_sales self.now }
        ensures all { AreAllSales result (site_of_book self.now) }
    {
        self.has_all_sales();
        Sales {
            book: self,
            place: 0,
            shift: ShiftNo::FIRST,
        }
    }

    /// The sale that this row made, where so many shifts were closed before it that this one was
    /// open.
    fn sale_made(&self, row: &Row, shift: ShiftNo) -> Option<NamedSale>
        ensures { (earlier : List RowFacts) → shift ≡ open_after earlier → result
            ≡ option_and_then (sale_named (site_of_book self.now))
            (key_sold earlier (point_named row.now.event) (number_sold row.now.reply)) }
    {
        let Ok(Answer::Sold { seq, growth: _ }) = row.reply else {
            return None;
        };
        let point = row.event.point()?;
        let sale = self.sale(point, shift, seq)?;
        Some(NamedSale {
            shift,
            point,
            number: seq,
            sale,
        })
    }

    /// The shift that is open after the row at this place, where this one was before it.
    fn shift_after(&self, place: u64, row: &Row, shift: ShiftNo) -> ShiftNo
        requires row { slice_get self.now.rows place ≡ Some row.now }
        requires shift { shift ≡ open_after (take place self.now.rows) }
        ensures { result ≡ open_after (take (place + 1) self.now.rows) }
    {
        if !closes_shift(row) {
            return shift;
        }
        self.has_shifts();
        match ShiftNo::new(shift.get() + 1) {
            Some(next) => next,
            // The shifts that the rows close are in range.
            None => unreachable!(),
        }
    }

    /// The rows sold all that the site has, each once.
    fn has_all_sales(&self)
        ensures { AreAllSales (book_sales self.now) (site_of_book self.now) }
    {
        self.site.is_sound();
    }

    /// No more shifts were opened than there are numbers for.
    fn has_shifts(&self)
        ensures { open_after self.now.rows ≤ GREATEST_SHIFT }
    {
        self.site.is_sound();
    }
}

impl<'a> Sales<'a> {
    /// Returns the next sale; None if none is left.
    pub fn next(&mut self) -> Option<NamedSale>
        ensures { IsNext self.old result self.new }
    {
        let found = find_sale(self.book, self.place, self.shift);
        self.place = found.place;
        self.shift = found.shift;
        found.sale
    }
}

/// The next sale, if there is one, the place behind the row that made it, and the shift that is
/// open there.
#[derive(Clone, Copy, Drop)]
struct Found {
    sale: Option<NamedSale>,
    place: u64,
    shift: ShiftNo,
}

/// The first sale that the rows from this place on made.
fn find_sale(book: &SiteBook, place: u64, shift: ShiftNo) -> Found
    requires { IsReadTo place shift book.now }
    ensures read { IsReadTo result.place result.shift book.now }
    ensures next { IsNext (sales_from place book.now) result.sale
        (sales_from result.place book.now) }
{
    let mut shift = shift;
    for at in place..book.len() {
        let (sale, next) = read_row(book, at, shift);
        shift = next;
        if sale.is_some() {
            return Found {
                sale,
                place: at + 1,
                shift,
            };
        }
    }
    Found {
        sale: None,
        place: book.len(),
        shift,
    }
}

/// The sale that the row at this place made, if it made one, and the shift that is open after it.
fn read_row(book: &SiteBook, at: u64, shift: ShiftNo) -> (Option<NamedSale>, ShiftNo)
    requires within { at < length book.now.rows }
    requires read { IsReadTo at shift book.now }
    ensures sale { sales_from at book.now ≡ cons_option result.0 (sales_from (at + 1) book.now) }
    ensures read { IsReadTo (at + 1) result.1 book.now }
{
    match &book.row(at) {
        Some(row) => (book.sale_made(row, shift), book.shift_after(at, row, shift)),
        // There is a row at each place before the end.
        None => unreachable!(),
    }
}

/// Is it an accepted CloseShift?
fn closes_shift(row: &Row) -> bool
    ensures { result ≡ closes_shift row.now }
{
    row.reply.is_ok() && matches!(row.event, Event::CloseShift)
}
