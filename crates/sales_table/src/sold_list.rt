//! Which sales the rows of a history made, and when those were cleared.

ghost use Rattle.std.specs.Prelude.{◌≡◌, ◌++◌, [], List, OnErr, OnOk, option_map};
ghost use Rattle.std.specs.List.{cons_option};
ghost use Rattle.site_base.specs.declared.row.Row.{Row as RowFacts};
ghost use Rattle.site_base.specs.Events.{point_named};
ghost use Rattle.written_site.specs.RowWords.{open_after};
ghost use Rattle.written_site.specs.SaleWords.{key_sold, number_sold};
ghost use Rattle.sales_table.specs.TimedSales.{just_sold, key_cleared, name_of_key, with_clear_of};

use crate::timed_sale::{SaleName, TimedSale};
use site_base::{Actor, Answer, Event, NoMemory, Row, ShiftNo};
use stamps::Stamp;
use std::alloc::Global;
use std::marker::Model;

/// Sales with their times, in the order in which they were sold. Contracts see their list.
#[derive(Drop)]
pub struct SoldList {
    sales: Vec<TimedSale>,
}

impl Model for SoldList {
    ghost use Rattle.std.specs.Prelude.{List};
    ghost use Rattle.sales_table.specs.declared.timed_sale.TimedSale.{TimedSale as SaleFacts};

    ghost Value = { List SaleFacts };

    ghost view = { λ l. l.sales.items };
}

impl SoldList {
    /// Returns no sales. It takes no memory.
    pub fn new(alloc: Global) -> SoldList
        ensures { result ≡ [] }
    {
        SoldList {
            sales: Vec::new(alloc),
        }
    }

    /// Adds the sale that a row made, if it made one, with this time. `shift` is the shift that was
    /// open before the row.
    pub fn add(&mut self, row: &Row, shift: ShiftNo, time: Option<Stamp>) -> Result<(), NoMemory>
        ensures added { (earlier : List RowFacts) → shift ≡ open_after earlier → OnOk result
            (self.new ≡ self.old ++ cons_option (option_map (just_sold time) (key_sold earlier
            (point_named row.now.event) (number_sold row.now.reply))) []) }
        ensures err { OnErr result (self.new ≡ self.old) }
    {
        if let Some(name) = sale_made(row, shift) {
            self.sales.push(TimedSale {
                name,
                sold_at: time,
                cleared_at: None,
            })?;
        }
        Ok(())
    }

    /// Notes that the last sale of this name was cleared at this time. The search begins at the end
    /// of the list: at most two sales of a point are unpaid, so the sale was made not long before.
    /// For a name that isn't there, the whole list is searched.
    pub fn clear(&mut self, name: &SaleName, time: Option<Stamp>)
        ensures { self.new ≡ with_clear_of name.now time self.old }
    {
        let mut at = self.sales.len();
        while at > 0 {
            at -= 1;
            if self.sales[at].is_named(name) {
                self.sales[at].cleared_at = time;
                return;
            }
        }
    }

    /// Returns the sales.
    pub fn as_slice(&self) -> &[TimedSale]
        ensures { result.now ≡ self.now }
    {
        &self.sales
    }
}

/// The name of the sale that a row made, where this shift was open before it.
fn sale_made(row: &Row, shift: ShiftNo) -> Option<SaleName>
    ensures { (earlier : List RowFacts) → shift ≡ open_after earlier → result
        ≡ option_map name_of_key (key_sold earlier (point_named row.now.event)
        (number_sold row.now.reply)) }
{
    let Ok(
        Answer::Sold {
            seq: number,
            growth: _,
        },
    ) = row.reply
    else {
        return None;
    };
    let point = row.event.point()?;
    Some(SaleName {
        shift,
        point,
        number,
    })
}

/// Returns the name of the sale that a row cleared, if it cleared one. `shift` is the shift that
/// was open before the row.
pub fn sale_cleared(row: &Row, shift: ShiftNo) -> Option<SaleName>
    ensures { (earlier : List RowFacts) → shift ≡ open_after earlier
        → result ≡ option_map name_of_key (key_cleared earlier row.now) }
{
    let (Actor::Till(_), Event::Clear(point, id)) = (row.actor, row.event) else {
        return None;
    };
    if row.reply.is_err() {
        return None;
    }
    Some(SaleName {
        shift: id.shift.unwrap_or(shift),
        point,
        number: id.seq,
    })
}
