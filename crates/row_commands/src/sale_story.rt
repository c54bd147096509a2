//! The rows of one sale, found among those of a history.

ghost use Rattle.std.specs.Prelude.{◌≡◌, [], OnOk, false};
ghost use Rattle.row_commands.specs.Stories.{before_sold, begins, ends, is_at, names, sells};
ghost use Rattle.row_commands.specs.Stories.{story_with, with_row};

use crate::past_row::PastRow;
use sales_table::SaleName;
use site_base::{Answer, Event, FpNo, NoMemory, Row};
use std::alloc::Global;
use std::marker::Model;

/// The story of a sale: the rows from the release of its point to the row that sold it, and the
/// later rows that name it. It is found row by row. Until the sale is sold, only the rows of the
/// fuelling in progress at its point are kept.
#[derive(Drop)]
pub struct SaleStory {
    sale: SaleName,
    rows: Vec<PastRow>,
    is_sold: bool,
}

impl Model for SaleStory {
    ghost use Rattle.row_commands.specs.Stories.{StoryState};

    ghost Value = { StoryState };

    ghost view = { λ s. record { sale = s.sale; rows = s.rows.items; sold = s.is_sold } };
}

impl SaleStory {
    /// Returns the story of this sale, before the first row. It takes no memory.
    pub fn new(alloc: Global, sale: &SaleName) -> SaleStory
        ensures { result ≡ record { sale = sale.now; rows = []; sold = false } }
    {
        SaleStory {
            sale: *sale,
            rows: Vec::new(alloc),
            is_sold: false,
        }
    }

    /// Was the sale sold?
    pub fn is_sold(&self) -> bool
        ensures { result ≡ self.now.sold }
    {
        self.is_sold
    }

    /// Returns the rows that are kept. Once the sale is sold, they are the rows of its story.
    pub fn rows(&self) -> &[PastRow]
        ensures { result.now ≡ self.now.rows }
    {
        &self.rows
    }

    /// Forgets the rows that are kept.
    pub fn forget_rows(&mut self)
        ensures { self.new ≡ record self.old { rows = [] } }
    {
        self.rows.clear();
    }

    /// Takes the next row of the history.
    pub fn take_row(&mut self, row: &PastRow) -> Result<(), NoMemory>
        ensures { OnOk result (self.new ≡ story_with self.old row.now) }
    {
        if !self.is_sold {
            return self.take_before(row);
        }
        if names(&self.sale, row) {
            return self.keep_row(row);
        }
        Ok(())
    }

    /// Keeps a row.
    fn keep_row(&mut self, row: &PastRow) -> Result<(), NoMemory>
        ensures { OnOk result (self.new ≡ with_row self.old row.now) }
    {
        // The error of `push` would hand the row back, which the kit's check can't follow.
        self.rows.extend_from_slice(&[*row])?;
        Ok(())
    }

    /// Takes a row while the sale isn't sold.
    fn take_before(&mut self, row: &PastRow) -> Result<(), NoMemory>
        ensures { OnOk result (self.new ≡ before_sold self.old row.now) }
    {
        if !is_at(self.sale.point, &row.row) {
            return Ok(());
        }
        if begins(&row.row) {
            self.rows.clear();
        } else if self.rows.is_empty() {
            return Ok(());
        }
        self.keep_row(row)?;
        if sells(&self.sale, row) {
            self.is_sold = true;
        } else if ends(&row.row) {
            self.rows.clear();
        }
        Ok(())
    }
}

/// Is the row at this point?
fn is_at(point: FpNo, row: &Row) -> bool
    ensures { result ≡ is_at point row.now }
{
    match row.event.point() {
        Some(named) => named.get() == point.get(),
        None => false,
    }
}

/// Does the row begin a fuelling at its point? It is a release, a prepayment or a test's release,
/// which was accepted.
fn begins(row: &Row) -> bool
    ensures { result ≡ begins row.now }
{
    row.reply.is_ok()
        && matches!(
            row.event,
            Event::Release(_, _) | Event::Prepay(_, _) | Event::TestRelease(_)
        )
}

/// Does the row end what is under way at its point? Its nozzle is put back, or its dispenser isn't
/// reached any more.
fn ends(row: &Row) -> bool
    ensures { result ≡ ends row.now }
{
    row.reply.is_ok() && matches!(row.event, Event::HangUp(_, _, _) | Event::Offline(_))
}

/// Did this row at the sale's point sell it?
fn sells(sale: &SaleName, row: &PastRow) -> bool
    ensures { result ≡ sells sale.now row.now }
{
    match row.row.reply {
        Ok(
            Answer::Sold {
                seq: number,
                growth: _,
            },
        ) => number.get() == sale.number.get() && row.shift.get() == sale.shift.get(),
        _ => false,
    }
}

/// Does the row name the sale?
fn names(sale: &SaleName, row: &PastRow) -> bool
    ensures { result ≡ names sale.now row.now }
{
    let Some(named) = row.row.event.sale() else {
        return false;
    };
    let shift = named.shift.unwrap_or(row.shift);
    is_at(sale.point, &row.row)
        && shift.get() == sale.shift.get()
        && named.seq.get() == sale.number.get()
}
