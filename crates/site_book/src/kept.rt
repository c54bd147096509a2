//! Which rows a history keeps, and how many.

ghost use Rattle.std.specs.Prelude.{◌≡◌, ◌<◌, ◌^◌};
ghost use Rattle.kept_history.specs.KeptRows.{is_kept, is_read};
ghost use Rattle.site_book.specs.KeptCounts.{kept_after};

use site_base::{Event, Row};

/// Is the row kept? Each row is, accepted or refused, except those of reads.
pub fn is_kept(row: &Row) -> bool
    ensures { result ≡ is_kept row.now }
{
    !is_read(&row.event)
}

/// So many rows are kept, with a row of this event behind so many.
#[inline(always)]
pub(crate) fn kept_with(event: &Event, kept: u64) -> u64
    requires { kept < 2 ^ 63 }
    ensures { result ≡ kept_after event.now kept }
{
    if is_read(event) { kept } else { kept + 1 }
}

/// Does the event only read?
pub fn is_read(event: &Event) -> bool
    ensures { result ≡ is_read event.now }
{
    matches!(
        event,
        Event::ReadSite | Event::ReadPoint(_) | Event::ReadProduct(_) | Event::ReadTransaction(_, _)
    )
}
