//! What the site shows after each row of a history.

ghost use Rattle.std.specs.Prelude.{◌≡◌, IfOk, OnErr, OnOk, option_and_then, string_bytes};
ghost use Rattle.transaction_buffer.specs.Sales.{key};
ghost use Rattle.written_site.specs.SiteState.{key_named, opening};
ghost use Rattle.written_site.specs.SiteStep.{site_after};
ghost use Rattle.site_book.specs.BookSales.{sale_named};
ghost use Rattle.row_json.specs.RowObjects.{row_line};
ghost use Rattle.row_json.specs.ToldRows.{key_changed, sale_told, state_at, told_row};

use crate::row_line::row_line;
use crate::told_row::ToldRow;
use site_base::{
    Answer, Event, FpNo, NoMemory, PointState, PointView, Row, SaleId, Seq, ShiftNo, SiteConfig,
};
use site_book::NamedSale;
use site_core::Site;
use stamps::Stamp;
use std::alloc::Global;
use std::marker::Model;

/// Reads the kept rows of a history, one after another, with a site of its own that takes the rows'
/// events. Contracts see that site.
#[derive(Drop)]
pub struct RowReader {
    site: Site,
}

impl Model for RowReader {
    ghost use Rattle.std.specs.Coded.{coded_ℕ, codes};
    ghost use Rattle.std.specs.Ordering.{nat_cmp};
    ghost use Rattle.std.specs.FinMap as finite;
    ghost use Rattle.std.specs.FinSet as set;
    ghost use Rattle.transaction_buffer.specs.Codes.{sales_code};
    ghost use Rattle.written_site.specs.SiteState.{SiteState};

    ghost Value = { SiteState };

    ghost coded = { Prim.hlevel (
      codes,
      finite.code {R = nat_cmp} coded_ℕ coded_ℕ,
      set.code {R = nat_cmp} coded_ℕ,
      sales_code,
    ) };

    ghost view = { λ r. r.site.site };
}

impl RowReader {
    /// Returns a reader at the opening of this site.
    pub fn open(alloc: Global, config: &SiteConfig) -> Result<RowReader, NoMemory>
        ensures { IfOk result (λ reader. reader ≡ opening config.now) }
    {
        let site = Site::try_open(alloc, config)?;
        Ok(RowReader { site })
    }

    /// Takes the next row. After `NoMemory` the row isn't taken.
    pub fn pass(&mut self, row: &Row) -> Result<(), NoMemory>
        ensures site { OnOk result
            (self.new ≡ site_after self.old row.now.actor row.now.event) }
        ensures err { OnErr result (self.new ≡ self.old) }
    {
        self.site.prepare(row.actor, &row.event)?;
        let _ = self.site.step(row.actor, row.event);
        Ok(())
    }

    /// Returns the line of the row that was taken last, with this number and time.
    pub fn line(
        &self,
        alloc: Global,
        number: u64,
        time: Option<Stamp>,
        row: &Row,
    ) -> Result<String, NoMemory>
        ensures { IfOk result (λ line.
            string_bytes line ≡ row_line (told_row self.now number time row.now)) }
    {
        row_line(alloc, &self.told(number, time, row))
    }

    /// The row that was taken last, with this number and time, and what the site shows after it.
    fn told(&self, number: u64, time: Option<Stamp>, row: &Row) -> ToldRow
        ensures { result ≡ told_row self.now number time row.now }
    {
        ToldRow {
            number,
            time,
            row: *row,
            state: self.state(row.event.point()),
            sale: self.sale(row),
        }
    }

    /// The state of a point.
    fn state(&self, point: Option<FpNo>) -> Option<PointState>
        ensures { result ≡ state_at self.now point }
    {
        match self.site.point(point?) {
            None => None,
            Some(view) => Some(state_of(&view)),
        }
    }

    /// The sale that a row made or changed, as it stands after it.
    fn sale(&self, row: &Row) -> Option<NamedSale>
        ensures { result ≡ sale_told self.now row.now }
    {
        match row.reply {
            Ok(Answer::Sold { seq, growth: _ }) => {
                self.sale_named(row.event.point()?, self.site.open_shift(), seq)
            }
            Ok(_) => self.sale_changed(&row.event),
            Err(_) => None,
        }
    }

    /// The sale that such an event, once accepted, has changed.
    fn sale_changed(&self, event: &Event) -> Option<NamedSale>
        ensures { result ≡ option_and_then (sale_named self.now) (key_changed self.now event.now) }
    {
        match event {
            Event::Lock(point, id) => self.sale_of(*point, *id),
            Event::Unlock(point, id) => self.sale_of(*point, *id),
            Event::Clear(point, id) => self.sale_of(*point, *id),
            _ => None,
        }
    }

    /// The sale of a point that a till calls so.
    fn sale_of(&self, point: FpNo, id: SaleId) -> Option<NamedSale>
        ensures { result ≡ sale_named self.now (key_named self.now point id) }
    {
        let shift = id.shift.unwrap_or(self.site.open_shift());
        self.sale_named(point, shift, id.seq)
    }

    /// The sale of this name.
    fn sale_named(&self, point: FpNo, shift: ShiftNo, number: Seq) -> Option<NamedSale>
        ensures { result ≡ sale_named self.now (key shift point number) }
    {
        let sale = self.site.sale(point, shift, number)?;
        Some(NamedSale {
            shift,
            point,
            number,
            sale,
        })
    }
}

/// The state of a point that a read shows so.
fn state_of(view: &PointView) -> PointState
    ensures { result ≡ view.now.state }
{
    view.state
}
