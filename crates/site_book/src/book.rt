//! The book: its rows and its site, how a row is added, and how rows are forgotten.

ghost use Rattle.std.specs.Prelude.{◌≡◌, ◌+◌, ◌<◌, ◌≤◌, [], ◌∷◌, ◌++◌, length, slice_get, true};
ghost use Rattle.std.specs.Prelude.{false, Ok, IfOk, IfSome, OnOk, OnErr, OnSome, IsErrOf, is_some};
ghost use Rattle.std.specs.Prelude.{None};
ghost use Rattle.site_base.specs.declared.limits.TheConstants.{TILLS};
ghost use Rattle.site_base.specs.declared.config.TheConstants.{GREATEST_ROWS};
ghost use Rattle.site_base.specs.declared.amounts.TheConstants.{GROWTH_LIMIT};
ghost use Rattle.site_base.specs.Events.{growth_in_reply};
ghost use Rattle.kept_history.specs.KeptRows.{kept_rows};
ghost use Rattle.site_core.specs.Views.{HasRoom};
ghost use Rattle.written_site.specs.SiteRun.{IsLegal};
ghost use Rattle.written_site.specs.SiteState.{is_signed_on, opening, view_point};
ghost use Rattle.written_site.specs.SiteStep.{Steps};
ghost use Rattle.written_site.specs.Sound.{InRange};
ghost use Rattle.site_book.specs.SignedOn.{IsTillActor};
ghost use Rattle.site_book.specs.Book.{AreRowsInRange, book_reply, is_full, site_of_book};
ghost use Rattle.site_book.specs.Book.{whole_book, with_row_of, with_rows_forgotten};

use crate::kept::kept_with;
use crate::rows::Rows;
use crate::tills::tills_with;
use http_server::Log;
use site_base::{
    Actor, Answer, Event, FpNo, NoMemory, NoRow, Placed, PointView, Reply, Row, SignChange,
    SiteConfig, TillNo, sign_change,
};
use site_core::Site;
use std::alloc::Global;
use std::marker::Model;

/// So many rows can be forgotten: places are numbers of 64 bits.
const FORGOTTEN_ROWS: u64 = 1 << 62;

/// The history of a site, and the site that its rows lead to from the opening site. The rows are a
/// legal history: each reply is that of the written step. The book may forget its first rows. Then
/// they exist only in proofs, and in the site, which continues from them.
#[derive(Drop)]
pub struct SiteBook {
    pub(crate) config: SiteConfig,
    pub(crate) site: Site,
    // The rows behind the forgotten ones.
    pub(crate) rows: Rows,
    // The forgotten rows, list after list. It takes no memory.
    earlier: Log<Rows, ()>,
    // So many rows are forgotten.
    forgotten: u64,
    // So many rows, forgotten ones included, aren't those of reads.
    kept: u64,
    // How many tills are signed on. A row is reserved for the sign-off of each.
    on: usize,
}

impl Model for SiteBook {
    ghost use Rattle.std.specs.Prelude.{◌++◌, length};
    ghost use Rattle.site_book.specs.Book.{Book, IsBook};
    ghost use Rattle.site_book.specs.RowLists.{rows_forgotten};

    ghost Value = { Book };

    ghost view = { λ b. record {
      config = b.config;
      rows = rows_forgotten b.earlier.items ++ b.rows.rows;
      forgotten = length (rows_forgotten b.earlier.items);
    } };

    ghost invariant = { λ b. IsBook b.config (rows_forgotten b.earlier.items) b.rows.rows
        b.site.site b.on b.rows.room b.forgotten b.kept };
}

impl SiteBook {
    /// Returns the book of the opening site of this configuration, without rows.
    pub fn try_open(alloc: Global, config: &SiteConfig) -> Result<SiteBook, NoMemory>
        ensures { IfOk result (λ b. b ≡ whole_book config.now []) }
    {
        let site = Site::try_open(alloc, config)?;
        let config = config.copy(alloc)?;
        Ok(SiteBook {
            config,
            site,
            rows: Rows::new(alloc),
            earlier: Log::new(),
            forgotten: 0,
            kept: 0,
            on: 0,
        })
    }

    /// Adds one event of one actor as one row. The row has the reply of the written step, and is
    /// returned with its place. `BookFull` comes exactly if the book has as many rows in memory as
    /// its configuration allows, or more; otherwise `NoMemory` if an allocation fails. Neither
    /// makes a row or changes the site. An accepted SignOn reserves the row of the till's sign-off.
    #[inline(always)]
    pub fn apply(&mut self, actor: Actor, event: Event) -> Result<Placed, NoRow>
        ensures row { OnOk result (self.new ≡ with_row_of self.old actor event) }
        ensures reply { IfOk result (λ placed. placed.reply ≡ book_reply self.old actor event) }
        ensures place { IfOk result (λ placed. placed.place ≡ length self.old.rows) }
        ensures growth { IfOk result (λ placed. growth_in_reply placed.reply ≤ GROWTH_LIMIT) }
        ensures room { OnOk result (is_full self.old ≡ false) }
        ensures full { IsErrOf result NoRow.BookFull → is_full self.old ≡ true }
        ensures told_full { is_full self.old ≡ true → IsErrOf result NoRow.BookFull }
        ensures err { OnErr result (self.new ≡ self.old) }
    {
        let place = self.len();
        let mut row = Row {
            actor,
            event,
            reply: Ok(Answer::Done),
        };
        self.answer(&mut row)?;
        Ok(Placed {
            place,
            reply: row.reply,
        })
    }

    /// Does the same for the actor and the event of this row, and fills in the step's reply. If no
    /// row is made, `row` stays as it is.
    #[inline(always)]
    pub fn answer(&mut self, row: &mut Row) -> Result<(), NoRow>
        ensures added { OnOk result (self.new ≡ with_row_of self.old row.old.actor row.old.event) }
        ensures answered { OnOk result (row.new ≡ record row.old {
          reply = book_reply self.old row.old.actor row.old.event;
        }) }
        ensures growth { OnOk result (growth_in_reply row.new.reply ≤ GROWTH_LIMIT) }
        ensures room { OnOk result (is_full self.old ≡ false) }
        ensures full { IsErrOf result NoRow.BookFull → is_full self.old ≡ true }
        ensures told_full { is_full self.old ≡ true → IsErrOf result NoRow.BookFull }
        ensures err { OnErr result (self.new ≡ self.old) }
        ensures kept { OnErr result (row.new ≡ row.old) }
    {
        if self.rows.len() >= self.config.rows() as usize {
            return Err(NoRow::BookFull);
        }
        // What can fail comes first: the rows of this event and of each sign-off, then the room of
        // the step.
        self.rows.reserve(self.on + 2)?;
        self.site.prepare(row.actor, &row.event)?;
        add_row(&mut self.site, &mut self.rows, row);
        self.on = tills_with(&sign_change(&row.actor, &row.event, &row.reply), self.on);
        self.kept = kept_with(&row.event, self.kept);
        Ok(())
    }

    /// Signs off a till, as one row, on a full book too. Returns None, without a row, if the till
    /// isn't signed on. It takes no memory.
    pub fn sign_off(&mut self, t: TillNo) -> Option<Placed>
        ensures row { OnSome result (self.new ≡ with_row_of self.old (Actor.Till t) Event.SignOff) }
        ensures reply { IfSome result (λ placed. placed.reply ≡ Ok Answer.Done) }
        ensures place { IfSome result (λ placed. placed.place ≡ length self.old.rows) }
        ensures signed_on { is_some result ≡ is_signed_on (site_of_book self.old) t }
        ensures none { is_some result ≡ false → self.new ≡ self.old }
    {
        if !self.site.signed_on(t) {
            return None;
        }
        let place = self.len();
        let reply = add_sign_off(&mut self.site, &mut self.rows, &t);
        self.on = tills_with(&Some(SignChange::Off(t)), self.on);
        self.kept = kept_with(&Event::SignOff, self.kept);
        Some(Placed { place, reply })
    }

    /// Forgets the rows that are in memory, so that the book isn't full any more. The site stays,
    /// and so does the room for the sign-off of each till that is signed on. It takes no memory. If
    /// there are more than 2^62 rows, it forgets none.
    pub fn forget_rows(&mut self)
        ensures { self.new ≡ with_rows_forgotten self.old }
    {
        let count = self.len();
        if count <= FORGOTTEN_ROWS {
            self.earlier = self.earlier.and(&self.rows, &());
            self.rows.clear();
            self.forgotten = count;
        }
    }

    /// Returns the number of rows, forgotten ones included. In memory are at most as many as the
    /// configuration allows, and one more for each till that was signed off beyond that. The rows
    /// are a legal history of the configuration's site.
    pub fn len(&self) -> u64
        ensures rows { result ≡ length self.now.rows }
        ensures legal { IsLegal (opening self.now.config) self.now.rows }
        ensures few { length self.now.rows
            ≤ self.now.forgotten + self.now.config.rows + TILLS }
        ensures forgotten { self.now.forgotten ≤ length self.now.rows }
        ensures countable { self.now.forgotten ≤ FORGOTTEN_ROWS }
        ensures allowed { self.now.config.rows ≤ GREATEST_ROWS }
        ensures ranges { AreRowsInRange self.now.rows }
    {
        let _ = self.config.rows();
        self.forgotten + self.rows.len() as u64
    }

    /// Returns how many of all rows a history keeps: each except those of reads.
    pub fn kept_len(&self) -> u64
        ensures { result ≡ length (kept_rows self.now.rows) }
    {
        self.kept
    }

    /// Returns the number of rows in memory: those that aren't forgotten.
    pub fn rows_in_memory(&self) -> usize
        ensures { self.now.forgotten + result ≡ length self.now.rows }
    {
        self.rows.len()
    }

    /// Returns the configuration of the site.
    pub fn config(&self) -> &SiteConfig
        ensures { result.now ≡ self.now.config }
    {
        &self.config
    }

    /// Returns the row at a place, counted from 0; None for a forgotten row.
    pub fn row(&self, place: u64) -> Option<Row>
        ensures kept { self.now.forgotten ≤ place → result ≡ slice_get self.now.rows place }
        ensures forgotten { place < self.now.forgotten → result ≡ None }
    {
        if place < self.forgotten {
            return None;
        }
        self.rows.get((place - self.forgotten) as usize)
    }

    /// Returns the point as a read shows it; None if the site has no such point.
    pub fn point(&self, p: FpNo) -> Option<PointView>
        ensures { result ≡ view_point (site_of_book self.now) p }
    {
        self.site.point(p)
    }
}

/// Takes the written step of the row's actor and event, and adds the row with the step's reply.
/// Room for both was made; it takes no memory.
#[inline(always)]
fn add_row(site: &mut Site, rows: &mut Rows, row: &mut Row)
    requires step { HasRoom site.old.room row.old.event }
    requires place { 0 < rows.old.room }
    ensures actor { row.new.actor ≡ row.old.actor }
    ensures event { row.new.event ≡ row.old.event }
    ensures step { Steps site.old.site row.new.actor row.new.event site.new.site row.new.reply }
    ensures rows { rows.new.rows ≡ rows.old.rows ++ row.new ∷ [] }
    ensures room { rows.new.room + 1 ≡ rows.old.room }
    ensures range { InRange row.new.event }
    ensures till { IsTillActor row.new.actor }
{
    // The ranges of the numbers that the event and its actor carry.
    let _ = row.event.reading();
    if let Actor::Till(t) = &row.actor {
        let _ = t.get();
    }
    row.reply = site.step(row.actor, row.event);
    rows.push(row);
}

/// Signs off a till that is signed on, and adds the row: its reply. Room for it was made; it takes
/// no memory.
fn add_sign_off(site: &mut Site, rows: &mut Rows, t: &TillNo) -> Reply
    requires on { is_signed_on site.old.site t.now ≡ true }
    requires row { 0 < rows.old.room }
    ensures step { Steps site.old.site (Actor.Till t.now) Event.SignOff site.new.site result }
    ensures rows { rows.new.rows ≡ rows.old.rows
        ++ record { actor = Actor.Till t.now; event = Event.SignOff; reply = result } ∷ [] }
    ensures room { rows.new.room + 1 ≡ rows.old.room }
    ensures reply { result ≡ Ok Answer.Done }
    ensures till { (1 ≤ t.now) × (t.now ≤ TILLS) }
{
    let _ = t.get();
    site.sign_off(*t);
    let signing_off = &Row {
        actor: Actor::Till(*t),
        event: Event::SignOff,
        reply: Ok(Answer::Done),
    };
    rows.push(signing_off);
    signing_off.reply
}
