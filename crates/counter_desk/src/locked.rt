//! What is under the site's lock: the book, and the ledger of the calls that made its rows.

ghost use Rattle.std.specs.Prelude.{◌≡◌, ◌+◌, ◌-◌, ◌≤◌, [], ◌∷◌, ◌++◌, false, true, is_some};
ghost use Rattle.std.specs.Prelude.{length, slice_get, slice_set, Ok, IfOk, IfSome, IsErrOf};
ghost use Rattle.std.specs.Prelude.{IsTrue, ◌↔◌, OnErr, IfNone};
ghost use Rattle.site_base.specs.declared.limits.TheConstants.{TILLS};
ghost use Rattle.site_base.specs.declared.config.TheConstants.{GREATEST_ROWS};
ghost use Rattle.written_site.specs.SiteRun.{IsLegal};
ghost use Rattle.written_site.specs.SiteState.{is_signed_on, opening, view_point};
ghost use Rattle.written_site.specs.SiteStep.{reply_to};
ghost use Rattle.site_book.specs.Book.{is_full, site_at, whole_book};
ghost use Rattle.site_book.specs.Figures.{AddUp, AreFiguresOf};
ghost use Rattle.counter_desk.specs.Receipts.{receipt_of, receipted_row, StandsAt};
ghost use Rattle.counter_desk.specs.Roots.{calls_in};
ghost use Rattle.counter_desk.specs.Shares.{owed_after, owes, receipts_asked, IsAsBefore};

use crate::naming::Naming;
use crate::receipt::Receipt;
use crate::root::Root;
use crate::share::Share;
use site_base::{
    Actor, Answer, Event, FpNo, NoMemory, NoRow, Placed, PointView, Row, SiteConfig, TillNo, Totals,
};
use site_book::SiteBook;
use std::alloc::Global;
use std::marker::{Model, PhantomData};
use std::sync::ledger::{Book, Ledger};

/// The book under the lock, with the ledger that counts the calls which made its rows. Contracts
/// see the rows. Whenever the lock is free they are a legal history of the desk's configuration,
/// and the ledger has counted just as many calls.
#[derive(Drop)]
pub(crate) struct Locked<L: Ledger, C: Naming> {
    book: SiteBook,
    calls: Book<L>,
    of: PhantomData<C>,
}

impl<L: Ledger, C: Naming> Model for Locked<L, C> {
    ghost use Rattle.std.specs.Prelude.{List};
    ghost use Rattle.site_base.specs.declared.row.Row.{Row};
    ghost use Rattle.counter_desk.specs.KeptHistories.{IsKept};

    ghost Value = { List Row };

    ghost view = { λ d. d.book.rows };

    ghost invariant = { λ d. IsKept C.config d.book d.calls.total };
}

impl<L: Ledger, C: Naming> Locked<L, C> {
    /// A book without rows, and a ledger without calls.
    pub(crate) fn new(book: SiteBook, calls: Book<L>) -> Self
        requires book { book ≡ whole_book C.config [] }
        requires calls { calls.total ≡ 0 }
        ensures { result ≡ [] }
    {
        Locked {
            book,
            calls,
            of: PhantomData,
        }
    }

    /// One event of one actor, as one row behind the others, with its receipt in the share.
    /// `BookFull` comes exactly where there are as many rows as the configuration allows, or more.
    /// Where there is no row, nothing has changed.
    pub(crate) fn submit(
        &mut self,
        share: &mut Share<L, C>,
        actor: &Actor,
        event: &Event,
    ) -> Result<Placed, NoRow>
        requires { receipts_asked event.now ≤ share.old.room }
        ensures row { IfOk result (λ placed.
            self.new ≡ self.old ++ receipted_row (receipt_of placed actor.now event.now) ∷ []) }
        ensures reply { IfOk result (λ placed.
            placed.reply ≡ reply_to (site_at C.config self.old) actor.now event.now) }
        ensures place { IfOk result (λ placed. placed.place ≡ length self.old) }
        ensures receipt { IfOk result (λ placed.
            share.new.receipts ≡ share.old.receipts ++ receipt_of placed actor.now event.now ∷ []) }
        ensures owed { IfOk result (λ placed.
            share.new.owed ≡ owed_after actor.now event.now placed.reply share.old.owed) }
        ensures stands { IfOk result (λ placed. StandsAt self.new
            (receipt_of placed actor.now event.now)) }
        ensures full { IsErrOf result NoRow.BookFull
            → is_full (whole_book C.config self.old) ≡ true }
        ensures told_full { is_full (whole_book C.config self.old) ≡ true
            → IsErrOf result NoRow.BookFull }
        ensures rows_stay { OnErr result (self.new ≡ self.old) }
        ensures share_stays { OnErr result (IsAsBefore share.old share.new) }
        ensures legal { IsLegal (opening C.config) self.new }
    {
        let placed = &self.book.apply(*actor, *event)?;
        let _few = self.book.len();
        let row = Row {
            actor: *actor,
            event: *event,
            reply: placed.reply,
        };
        share.note(&mut self.calls, placed.place, &row);
        Ok(*placed)
    }

    /// Signs off a till that the share owes, as one row, with its receipt in the share. None,
    /// without a row, where the till isn't signed on.
    pub(crate) fn leave(&mut self, share: &mut Share<L, C>, t: TillNo) -> Option<Placed>
        requires { owes share.old t ≡ true }
        ensures row { IfSome result (λ placed. self.new
            ≡ self.old ++ receipted_row (receipt_of placed (Actor.Till t) Event.SignOff) ∷ []) }
        ensures reply { IfSome result (λ placed. placed.reply ≡ Ok Answer.Done) }
        ensures place { IfSome result (λ placed. placed.place ≡ length self.old) }
        ensures receipt { IfSome result (λ placed. share.new.receipts
            ≡ share.old.receipts ++ receipt_of placed (Actor.Till t) Event.SignOff ∷ []) }
        ensures stands { IfSome result (λ placed.
            StandsAt self.new (receipt_of placed (Actor.Till t) Event.SignOff)) }
        ensures signed_on { is_some result ≡ is_signed_on (site_at C.config self.old) t }
        ensures rows_stay { IfNone result (self.new ≡ self.old) }
        ensures receipts_stay { IfNone result (share.new.receipts ≡ share.old.receipts) }
        ensures owed { share.new.owed ≡ slice_set share.old.owed (t - 1) false }
        ensures legal { IsLegal (opening C.config) self.new }
    {
        match &self.book.sign_off(t) {
            Some(placed) => {
                let _few = self.book.len();
                let row = Row {
                    actor: Actor::Till(t),
                    event: Event::SignOff,
                    reply: placed.reply,
                };
                share.note(&mut self.calls, placed.place, &row);
                Some(*placed)
            }
            None => {
                share.forgive(t);
                None
            }
        }
    }

    /// How many rows there are. They are a legal history.
    pub(crate) fn len(&self) -> u64
        ensures rows { result ≡ length self.now }
        ensures few { length self.now ≤ GREATEST_ROWS + TILLS }
        ensures legal { IsLegal (opening C.config) self.now }
    {
        self.book.len()
    }

    /// Is the receipt the row at its place?
    pub(crate) fn has(&self, receipt: &Receipt) -> bool
        ensures { IsTrue result ↔ StandsAt self.now receipt.now }
    {
        match &self.book.row(receipt.place) {
            Some(row) => receipt.is_of(row),
            None => false,
        }
    }

    /// The point as a read shows it.
    pub(crate) fn point(&self, p: FpNo) -> Option<PointView>
        ensures point { result ≡ view_point (site_at C.config self.now) p }
        ensures legal { IsLegal (opening C.config) self.now }
    {
        self.book.point(p)
    }

    /// The figures of the rows, which add up to what the rows tell.
    pub(crate) fn totals(&self, alloc: Global) -> Result<Totals, NoMemory>
        ensures totals { IfOk result (λ totals.
            AreFiguresOf (whole_book C.config self.now) totals) }
        ensures products { IfOk result (λ totals.
            length totals.products ≡ length C.config.products) }
        ensures sums { IfOk result (λ totals. AddUp (whole_book C.config self.now) totals) }
        ensures legal { IsLegal (opening C.config) self.now }
    {
        self.book.totals(alloc)
    }

    /// Where no share is out, the shares that came back tell as many calls as there are rows.
    pub(crate) fn audit(&mut self, root: &mut Root<L, C>)
        requires { root.old.out ≡ 0 }
        ensures rows { self.new ≡ self.old }
        ensures root { root.new ≡ root.old }
        ensures counted { calls_in root.old.lists ≡ length self.old }
    {
        root.audit(&mut self.calls);
    }
}
