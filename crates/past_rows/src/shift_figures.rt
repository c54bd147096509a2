//! The figures of some shifts of a history, taken while its rows are read.

ghost use Rattle.std.specs.Prelude.{◌≡◌, ◌+◌, ◌∷◌, ◌++◌, [], IfOk, IfNone, IfSome, None, OnOk};
ghost use Rattle.std.specs.Prelude.{length};
ghost use Rattle.site_base.specs.declared.row.Row.{Row as RowFacts};
ghost use Rattle.site_book.specs.Book.{Book};
ghost use Rattle.past_rows.specs.ShiftFigures.{AreOfShifts, HasTaken, IsBefore, IsNextBook};
ghost use Rattle.past_rows.specs.ShiftFigures.{IsTaken};

use crate::figures::figures_between;
use crate::shifts::ShiftRange;
use site_base::{NoMemory, Totals};
use site_book::SiteBook;
use std::alloc::Global;
use std::marker::Model;

/// The figures of some shifts of a history. They are taken while its rows are read: it looks at the
/// book before the first row, and after each row.
#[derive(Drop)]
pub struct ShiftFigures {
    shifts: ShiftRange,
    /// The totals when the first of the shifts was opened.
    before: Option<Totals>,
    /// The totals when the last of them was closed.
    after: Option<Totals>,
}

impl Model for ShiftFigures {
    ghost use Rattle.past_rows.specs.ShiftFigures.{FiguresState};

    ghost Value = { FiguresState };

    ghost view = { λ f. record { shifts = f.shifts; before = f.before; after = f.after } };
}

impl ShiftFigures {
    /// Returns the figures of these shifts before it has looked at a book.
    pub fn new(shifts: ShiftRange) -> ShiftFigures
        ensures { result ≡ record { shifts = shifts; before = None; after = None } }
    {
        ShiftFigures {
            shifts,
            before: None,
            after: None,
        }
    }

    /// Looks at the present book, and takes its totals if one of the two moments has come.
    pub fn take_moment(&mut self, alloc: Global, book: &SiteBook) -> Result<(), NoMemory>
        ensures first { OnOk result (book.now.rows ≡ [] → self.old.before ≡ None
            → self.old.after ≡ None → HasTaken self.new book.now) }
        ensures next { OnOk result ((earlier : Book) → HasTaken self.old earlier
            → IsNextBook earlier book.now → HasTaken self.new book.now) }
        ensures shifts { self.new.shifts ≡ self.old.shifts }
    {
        take_totals(alloc, book, self.shifts.first.get(), &mut self.before)?;
        take_totals(alloc, book, self.shifts.last.get() + 1, &mut self.after)
    }

    /// Returns the figures of the shifts, for a history that ends with this book. If the last shift
    /// is open, they go up to the history's end. None if the first shift hasn't begun.
    pub fn totals(&self, alloc: Global, book: &SiteBook) -> Result<Option<Totals>, NoMemory>
        ensures figures { IfOk result (λ found. HasTaken self.now book.now
            → IfSome found (AreOfShifts self.now.shifts book.now)) }
        ensures products { IfOk result (λ found. HasTaken self.now book.now → IfSome found
            (λ totals. length totals.products ≡ length book.now.config.products)) }
        ensures none { IfOk result (λ found. HasTaken self.now book.now
            → IfNone found (IsBefore self.now.shifts book.now)) }
    {
        let Some(before) = &self.before else {
            return Ok(None);
        };
        let totals = match &self.after {
            Some(after) => figures_between(alloc, before, after)?,
            None => figures_between(alloc, before, &book.totals(alloc)?)?,
        };
        Ok(Some(totals))
    }
}

/// Takes the totals of the book as it stands, if the shift of this number is open, or a later one,
/// and they aren't taken yet.
fn take_totals(
    alloc: Global,
    book: &SiteBook,
    shift: u16,
    taken: &mut Option<Totals>,
) -> Result<(), NoMemory>
    ensures first { OnOk result (book.now.rows ≡ [] → taken.old ≡ None
        → IsTaken shift book.now taken.new) }
    ensures next { OnOk result ((earlier : Book) → IsTaken shift earlier taken.old
        → IsNextBook earlier book.now → IsTaken shift book.now taken.new) }
{
    // The rows are a legal history.
    book.len();
    if taken.is_none() && book.open_shift().get() >= shift {
        *taken = Some(book.totals(alloc)?);
    }
    Ok(())
}
