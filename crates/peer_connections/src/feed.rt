//! The feed of a station, while there is one.

ghost use Rattle.std.specs.Prelude.{◌≡◌, None, OnOk, Some, option_copied};
ghost use Rattle.chapters.specs.RowText.{kept_behind};
ghost use Rattle.peer_connections.specs.Fed.{AreRead, BeginsChapter, with_rows};
ghost use Rattle.peer_connections.specs.Sending.{HasSeen};

use crate::fed_rows::FedRows;
use site_base::NoMemory;
use site_book::SiteBook;
use stamps::Stamp;
use std::marker::Model;

/// What a feed's peers are told, while there is a feed. Contracts see that. Where memory is wanting
/// the feed ends for good: then the lines of its rows are let go, and nothing is moved. So its end
/// needs no more room on the stack than a row does.
#[derive(Drop)]
pub(crate) struct Feed {
    rows: Option<FedRows>,
    has_ended: bool,
}

impl Model for Feed {
    ghost use Rattle.std.specs.Prelude.{None, Option, if◌then◌else◌};
    ghost use Rattle.std.specs.Coded.{coded_ℕ, codes};
    ghost use Rattle.std.specs.Ordering.{nat_cmp};
    ghost use Rattle.std.specs.FinMap as finite;
    ghost use Rattle.std.specs.FinSet as set;
    ghost use Rattle.transaction_buffer.specs.Codes.{sales_code};
    ghost use Rattle.peer_connections.specs.declared.fed_rows.FedRows.{FedRows};

    ghost Value = { Option FedRows };

    ghost coded = { Prim.hlevel (
      codes,
      finite.code {R = nat_cmp} coded_ℕ coded_ℕ,
      set.code {R = nat_cmp} coded_ℕ,
      sales_code,
    ) };

    ghost view = { λ f. if f.has_ended then None else f.rows };
}

impl Feed {
    /// No feed.
    pub(crate) fn none() -> Feed
        ensures { result ≡ None }
    {
        Feed {
            rows: None,
            has_ended: false,
        }
    }

    /// A feed of these rows.
    pub(crate) fn of(rows: FedRows) -> Feed
        ensures { result ≡ Some rows }
    {
        Feed {
            rows: Some(rows),
            has_ended: false,
        }
    }

    /// What its peers are told, if there is a feed.
    pub(crate) fn rows(&self) -> Option<&FedRows>
        ensures { option_copied result ≡ self.now }
    {
        if self.has_ended {
            None
        } else {
            self.rows.as_ref()
        }
    }

    /// The rows of a book from this place on, of which none is forgotten, are read, with this time,
    /// if there is a feed. Where memory is wanting it ends.
    pub(crate) fn read(&mut self, book: &SiteBook, first: u64, time: &Option<Stamp>)
        requires { HasSeen first book.now }
        ensures { AreRead time.now (kept_behind first book.now.rows) self.old self.new }
    {
        if self.has_ended {
            return;
        }
        let Some(rows) = &mut self.rows else {
            return;
        };
        if read_rows(rows, book, first, time).is_err() {
            rows.forget_lines();
            self.has_ended = true;
        }
    }

    /// A chapter begins behind the rows that were read, if there is a feed. Where memory is wanting
    /// it ends.
    pub(crate) fn begin_chapter(&mut self)
        ensures { BeginsChapter self.old self.new }
    {
        if self.has_ended {
            return;
        }
        let Some(rows) = &mut self.rows else {
            return;
        };
        if rows.begin_chapter().is_err() {
            rows.forget_lines();
            self.has_ended = true;
        }
    }
}

/// The rows of a book from this place on, of which none is forgotten, are read, with this time.
/// After `NoMemory` no further row can be read.
fn read_rows(
    fed: &mut FedRows,
    book: &SiteBook,
    first: u64,
    time: &Option<Stamp>,
) -> Result<(), NoMemory>
    requires { HasSeen first book.now }
    ensures rows { OnOk result
        (fed.new.rows ≡ with_rows time.now (kept_behind first book.now.rows) fed.old.rows) }
    ensures starts { OnOk result (fed.new.starts ≡ fed.old.starts) }
{
    for place in first..book.len() {
        let Some(row) = book.row(place) else {
            unreachable!();
        };
        fed.read(time, &row)?;
    }
    Ok(())
}
