//! What a reader of the book may ask of its site, besides points, sales and totals.

ghost use Rattle.std.specs.Prelude.{◌≡◌};
ghost use Rattle.meters.specs.Nozzles.{last_of};
ghost use Rattle.site_core.specs.Accounts.{shift_row};
ghost use Rattle.written_site.specs.SiteState.{is_signed_on, open_shift};
ghost use Rattle.site_book.specs.Book.{site_of_book};

use crate::book::SiteBook;
use shift_ledger::ShiftRow;
use site_base::{FpNo, Millilitres, NozzleNo, ShiftNo, TillNo};

impl SiteBook {
    /// Is this till signed on?
    pub fn is_signed_on(&self, t: TillNo) -> bool
        ensures { result ≡ is_signed_on (site_of_book self.now) t }
    {
        self.site.signed_on(t)
    }

    /// Returns the number of the open shift.
    pub fn open_shift(&self) -> ShiftNo
        ensures { result ≡ open_shift (site_of_book self.now) }
    {
        self.site.open_shift()
    }

    /// Returns the figures of a shift, also of the open one: for each till its clears and their
    /// cents; for each product the millilitres that were cleared, their cents, and the millilitres
    /// that tests drew. None for a shift to come.
    pub fn shift(&self, n: ShiftNo) -> Option<ShiftRow>
        ensures { result ≡ shift_row n (site_of_book self.now).sales (site_of_book self.now).drawn }
    {
        self.site.shift(n)
    }

    /// Returns the last reading of nozzle n of point p; None if the site has no such nozzle.
    pub fn reading(&self, p: FpNo, n: NozzleNo) -> Option<Millilitres>
        ensures { result ≡ last_of p n (site_of_book self.now).nozzles }
    {
        self.site.reading(p, n)
    }
}
