//! The first row of the open shift.

ghost use Rattle.std.specs.Prelude.{◌≡◌};
ghost use Rattle.written_site.specs.RowWords.{closes_shift};
ghost use Rattle.chapters.specs.OpenShift.{first_after, open_since};

use site_base::{Event, Row};
use stamps::Stamp;

/// The first row of a shift.
#[derive(Clone, Copy, Debug, PartialEq, Eq)]
pub struct FirstRow {
    /// Its time, if it is known.
    pub time: Option<Stamp>,
}

/// The first row of the open shift behind this row, which was at this time: an accepted CloseShift
/// ends its shift.
pub(crate) fn first_after(
    row: &Row,
    time: Option<Stamp>,
    first: Option<FirstRow>,
) -> Option<FirstRow>
    ensures { result ≡ first_after row.now time first }
{
    if closes_shift(row) {
        return None;
    }
    Some(first.unwrap_or(FirstRow { time }))
}

/// The time of a shift's first row, if it has one and its time is known.
pub(crate) fn open_since(first: Option<FirstRow>) -> Option<Stamp>
    ensures { result ≡ open_since first }
{
    first?.time
}

/// Is it an accepted CloseShift?
pub fn closes_shift(row: &Row) -> bool
    ensures { result ≡ closes_shift row.now }
{
    row.reply.is_ok() && matches!(row.event, Event::CloseShift)
}
