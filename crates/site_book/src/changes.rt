//! The rows of which dispensers get notices.

ghost use Rattle.std.specs.Prelude.{◌≡◌, ◌≤◌, [], ◌∷◌, ◌++◌, filter, IfOk, OnOk};
ghost use Rattle.site_book.specs.Changes.{changes_from, is_changing};

use crate::book::SiteBook;
use site_base::{
    Actor, Answer, Cents, Event, FpNo, Millilitres, Mills, NoMemory, NozzleNo, PointView,
    ProductNo, ProductView, Refusal, Row, SaleId, Seq, ShiftNo, SiteView, TillNo, TransactionView,
};
use std::alloc::Global;

/// The types that a row tells of. The prover looks for them in a function whose loop carries rows.
type Told = (
    Actor,
    Event,
    SaleId,
    Answer,
    Refusal,
    PointView,
    TransactionView,
    ProductView,
    SiteView,
    FpNo,
    NozzleNo,
    TillNo,
    ProductNo,
    ShiftNo,
    Seq,
    Cents,
    Millilitres,
    Mills,
);

impl SiteBook {
    /// Returns the rows from this place on, counted from 0, that have a change: accepted events of
    /// which the dispenser of their point gets a notice. Returns none if the place is after the
    /// last row.
    pub fn changes_since(&self, alloc: Global, place: u64) -> Result<Vec<Row>, NoMemory>
        requires { self.now.forgotten ≤ place }
        ensures { IfOk result (λ changes. changes.items ≡ changes_from place self.now.rows) }
    {
        let _told: Option<Told> = None;
        let mut changes = Vec::new(alloc);
        for at in place..self.len() {
            match self.row(at) {
                Some(row) => add_change(&mut changes, &row)?,
                None => {}
            }
        }
        Ok(changes)
    }
}

/// Adds the row, if it has a change.
fn add_change(changes: &mut Vec<Row>, row: &Row) -> Result<(), NoMemory>
    ensures { OnOk result (changes.new.items
        ≡ changes.old.items ++ filter is_changing (row.now ∷ [])) }
{
    let _told: Option<Told> = None;
    if is_changing(row) {
        changes.push(*row)?;
    }
    Ok(())
}

/// Does the row have a change, of which a dispenser may get a notice?
pub fn is_changing(row: &Row) -> bool
    ensures { result ≡ is_changing row.now }
{
    row.reply.is_ok() && row.event.has_change()
}
