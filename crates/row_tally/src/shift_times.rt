//! When the shifts of a history were opened and closed.

ghost use Rattle.std.specs.Prelude.{◌≡◌, OnOk};
ghost use Rattle.written_site.specs.RowWords.{closes_shift};
ghost use Rattle.row_tally.specs.ShiftTimes.{no_times, open_number, times_after};
ghost use Rattle.row_tally.specs.ShiftTimes.{times_of_shift};

use site_base::{Event, NoMemory, Row, ShiftNo};
use stamps::Stamp;
use std::alloc::Global;
use std::marker::Model;

/// When a shift was opened and closed, if that is known.
#[derive(Clone, Copy, Debug, PartialEq, Eq)]
pub struct ShiftTimes {
    /// The time of its first row.
    pub opened: Option<Stamp>,
    /// The time of the row that closed it.
    pub closed: Option<Stamp>,
}

/// Reads from the rows of a history, one after another, when shifts were opened and closed.
#[derive(Drop)]
pub struct TimesReader {
    /// The shifts that are closed, from shift 1 on.
    closed: Vec<ShiftTimes>,
    /// The open shift, once it has a row.
    current: Option<ShiftTimes>,
}

impl Model for TimesReader {
    ghost use Rattle.row_tally.specs.ShiftTimes.{TimesRead};

    ghost Value = { TimesRead };

    ghost view = { λ r. record { closed = r.closed.items; current = r.current } };
}

impl TimesReader {
    /// Returns a reader at the opening of a history. It takes no memory.
    pub fn new(alloc: Global) -> TimesReader
        ensures { result ≡ no_times }
    {
        TimesReader {
            closed: Vec::new(alloc),
            current: None,
        }
    }

    /// Reads the next row, which was at this time, if it is known.
    pub fn read(&mut self, row: &Row, time: &Option<Stamp>) -> Result<(), NoMemory>
        ensures { OnOk result (self.new ≡ times_after row.now time.now self.old) }
    {
        let mut times = self.current.unwrap_or(ShiftTimes {
            opened: *time,
            closed: None,
        });
        if closes_shift(row) {
            times.closed = *time;
            self.closed.push(times)?;
            self.current = None;
        } else {
            self.current = Some(times);
        }
        Ok(())
    }

    /// The number of the open shift.
    pub(crate) fn open_number(&self) -> u64
        ensures { result ≡ open_number self.now }
    {
        self.closed.len() as u64 + 1
    }

    /// Returns when the shift of this number was opened and closed. A shift that isn't closed is
    /// the open one.
    pub fn times(&self, number: ShiftNo) -> ShiftTimes
        ensures { result ≡ times_of_shift number self.now }
    {
        let unknown = ShiftTimes {
            opened: None,
            closed: None,
        };
        match self.closed.get(usize::from(number.get()) - 1) {
            Some(times) => *times,
            None => self.current.unwrap_or(unknown),
        }
    }
}

/// Is it an accepted CloseShift?
fn closes_shift(row: &Row) -> bool
    ensures { result ≡ closes_shift row.now }
{
    row.reply.is_ok() && matches!(row.event, Event::CloseShift)
}
