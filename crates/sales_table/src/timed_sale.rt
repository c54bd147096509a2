//! The sales of a history with their times.

ghost use Rattle.std.specs.Prelude.{◌≡◌};
ghost use Rattle.sales_table.specs.TimedSales.{is_asked, is_cleared_in, is_named, time_field};

use site_base::{FpNo, Seq, ShiftNo};
use stamps::{Stamp, TimeSpan};

/// The name of a sale.
#[derive(Clone, Copy, Debug, PartialEq, Eq)]
pub struct SaleName {
    /// The shift in which it was sold.
    pub shift: ShiftNo,
    /// Its fuelling point.
    pub point: FpNo,
    /// Its number at the point, in that shift.
    pub number: Seq,
}

/// A sale of a history, with the times of the rows that sold and cleared it.
#[derive(Clone, Copy, Debug, PartialEq, Eq)]
pub struct TimedSale {
    /// Its name.
    pub name: SaleName,
    /// When it was sold, if that is known.
    pub sold_at: Option<Stamp>,
    /// When it was cleared, if it was and the time is known.
    pub cleared_at: Option<Stamp>,
}

impl TimedSale {
    /// Is it the sale of this name?
    pub fn is_named(&self, name: &SaleName) -> bool
        ensures { result ≡ is_named name.now self.now }
    {
        self.name.point == name.point
            && self.name.shift == name.shift
            && self.name.number == name.number
    }

    /// Is it asked for? Without a span each sale is; with one, a sale that was cleared in it.
    pub fn is_asked(&self, span: &Option<TimeSpan>) -> bool
        ensures { result ≡ is_asked span.now self.now }
    {
        match span {
            None => true,
            Some(span) => is_cleared_in(span, &self.cleared_at),
        }
    }
}

/// Was a sale that was cleared at this time cleared in the span?
fn is_cleared_in(span: &TimeSpan, cleared_at: &Option<Stamp>) -> bool
    ensures { result ≡ is_cleared_in span.now cleared_at.now }
{
    match cleared_at {
        None => false,
        Some(time) => span.contains(time),
    }
}

/// The octets of a time; without one none.
pub(crate) fn time_field(time: &Option<Stamp>) -> &[u8]
    ensures { result.now ≡ time_field time.now }
{
    match time {
        None => b"",
        Some(time) => time.as_octets(),
    }
}
