//! The tally of the stored rows.

ghost use Rattle.std.specs.Prelude.{◌≡◌, ◌∷◌, [], OnOk};
ghost use Rattle.chapters.specs.RowText.{kept_behind};
ghost use Rattle.kept_history.specs.KeptRows.{kept_rows};
ghost use Rattle.row_tally.specs.Tally.{with_all};
ghost use Rattle.peer_connections.specs.Sending.{HasSeen};
ghost use Rattle.peer_connections.specs.Tallied.{AreTallied};

use row_tally::RowTally;
use site_base::{NoMemory, Row};
use site_book::{SiteBook, is_kept};
use stamps::Stamp;

/// The kept rows of a book from this place on, of which none is forgotten, join the tally, if there
/// is one, with this time. Where memory is wanting it ends.
pub(crate) fn tally_stored(
    tally: &mut Option<RowTally>,
    book: &SiteBook,
    first: u64,
    time: &Option<Stamp>,
)
    requires { HasSeen first book.now }
    ensures { AreTallied time.now (kept_behind first book.now.rows) tally.old tally.new }
{
    let Some(rows) = tally else {
        return;
    };
    if tally_rows(rows, book, first, time).is_err() {
        *tally = None;
    }
}

/// The kept rows of a book from this place on join a tally. After `NoMemory` no further row can.
fn tally_rows(
    tally: &mut RowTally,
    book: &SiteBook,
    first: u64,
    time: &Option<Stamp>,
) -> Result<(), NoMemory>
    requires { HasSeen first book.now }
    ensures { OnOk result
        (tally.new ≡ with_all time.now (kept_behind first book.now.rows) tally.old) }
{
    for place in first..book.len() {
        let Some(row) = book.row(place) else {
            unreachable!();
        };
        tally_row(tally, time, &row)?;
    }
    Ok(())
}

/// A row joins a tally, if it is kept.
fn tally_row(tally: &mut RowTally, time: &Option<Stamp>, row: &Row) -> Result<(), NoMemory>
    ensures { OnOk result
        (tally.new ≡ with_all time.now (kept_rows (row.now ∷ [])) tally.old) }
{
    if !is_kept(row) {
        return Ok(());
    }
    tally.read(time, row)
}
