//! The times that rows tell.

ghost use Rattle.std.specs.Prelude.{◌≡◌, ◌++◌, OnOk};
ghost use Rattle.site_base.specs.Events.{point_named};
ghost use Rattle.row_tally.specs.Moments.{call_told, calls_with, clear_told, last_call};
ghost use Rattle.row_tally.specs.Moments.{moments_after, no_moments, number_sold, sale_of};
ghost use Rattle.row_tally.specs.Moments.{without_cleared};

use crate::shift_times::TimesReader;
use crate::sold_at::{SoldAt, find_sold};
use site_base::{Answer, Event, FpNo, NoMemory, POINT_CELLS, Reply, Row, SaleId, Seq};
use stamps::Stamp;
use std::alloc::Global;
use std::marker::Model;

/// When each point called last, when the transactions that aren't cleared yet were sold, and when
/// shifts were opened and closed.
#[derive(Drop)]
pub struct Moments {
    shifts: TimesReader,
    /// Of each point in its cell.
    calls: [Option<Stamp>; POINT_CELLS],
    /// In the order in which they were sold.
    sold: Vec<SoldAt>,
}

impl Model for Moments {
    ghost use Rattle.row_tally.specs.Moments.{Moments as Told};

    ghost Value = { Told };

    ghost view = { λ m. record { shifts = m.shifts; calls = m.calls; sold = m.sold.items } };
}

impl Moments {
    /// Before the first row. It takes no memory.
    pub(crate) fn new(alloc: Global) -> Moments
        ensures { result ≡ no_moments }
    {
        Moments {
            shifts: TimesReader::new(alloc),
            calls: [None; POINT_CELLS],
            sold: Vec::new(alloc),
        }
    }

    /// Reads the next row, which has this time. After `NoMemory` no further row can be read.
    pub(crate) fn read(&mut self, time: &Option<Stamp>, row: &Row) -> Result<(), NoMemory>
        ensures { OnOk result (self.new ≡ moments_after time.now row.now self.old) }
    {
        let open = self.shifts.open_number();
        note_call(&mut self.calls, time, call_told(&row.event, &row.reply));
        add_sale(&mut self.sold, time, open, row)?;
        remove_cleared(&mut self.sold, open, clear_told(&row.event, &row.reply));
        self.shifts.read(row, time)
    }

    /// Returns when shifts were opened and closed.
    pub fn shifts(&self) -> &TimesReader
        ensures { result.now ≡ self.now.shifts }
    {
        &self.shifts
    }

    /// Returns the time at which a point called last. None if it never did, or if the time isn't
    /// known.
    pub fn last_call(&self, p: FpNo) -> Option<Stamp>
        ensures { result ≡ last_call p self.now }
    {
        self.calls[p.cell()]
    }

    /// Returns the transactions that aren't cleared yet, in the order in which they were sold.
    pub fn sold(&self) -> &[SoldAt]
        ensures { result.now ≡ self.now.sold }
    {
        &self.sold
    }
}

/// The point that a row has begin to call.
fn call_told(event: &Event, reply: &Reply) -> Option<FpNo>
    ensures { result ≡ call_told event.now reply.now }
{
    match (event, reply) {
        (Event::Lift(p, _, _), Ok(Answer::Calling)) => Some(*p),
        _ => None,
    }
}

/// This point, if there is one, called at this time.
fn note_call(calls: &mut [Option<Stamp>; POINT_CELLS], time: &Option<Stamp>, point: Option<FpNo>)
    ensures { calls.new ≡ calls_with time.now point calls.old }
{
    if let Some(p) = point {
        calls[p.cell()] = *time;
    }
}

/// The number of the transaction that a row sells.
fn number_sold(reply: &Reply) -> Option<Seq>
    ensures { result ≡ number_sold reply.now }
{
    match reply {
        Ok(Answer::Sold { seq, growth: _ }) => Some(*seq),
        _ => None,
    }
}

/// The transaction that a row sells, if it sells one, joins these: at this time, in this shift.
fn add_sale(
    sold: &mut Vec<SoldAt>,
    time: &Option<Stamp>,
    shift: u64,
    row: &Row,
) -> Result<(), NoMemory>
    ensures { OnOk result (sold.new.items ≡ sold.old.items
        ++ sale_of time.now shift (point_named row.now.event) (number_sold row.now.reply)) }
{
    if let (Some(point), Some(number)) = (row.event.point(), number_sold(&row.reply)) {
        sold.push(SoldAt {
            shift,
            point,
            number,
            at: *time,
        })?;
    }
    Ok(())
}

/// The transaction that a row clears, and its point.
fn clear_told(event: &Event, reply: &Reply) -> Option<(FpNo, SaleId)>
    ensures { result ≡ clear_told event.now reply.now }
{
    match (event, reply) {
        (Event::Clear(p, sale), Ok(_)) => Some((*p, *sale)),
        _ => None,
    }
}

/// The transaction that is cleared while this shift is open, if one is, leaves these.
fn remove_cleared(sold: &mut Vec<SoldAt>, current: u64, cleared: Option<(FpNo, SaleId)>)
    ensures { sold.new.items ≡ without_cleared current cleared sold.old.items }
{
    let Some((point, sale)) = cleared else {
        return;
    };
    let shift = match sale.shift {
        Some(shift) => u64::from(shift.get()),
        None => current,
    };
    if let Some(place) = find_sold(sold, shift, point, sale.seq) {
        let _ = sold.remove(place);
    }
}
