//! The draws of tests in a book, one after another.

ghost use Rattle.std.specs.Prelude.{◌≡◌, ◌+◌, ◌<◌, [], ◌∷◌, ◌++◌, List, length, IfOk, OnOk, OnErr};
ghost use Rattle.std.specs.List.{cons_option};
ghost use Rattle.site_base.specs.Configured.{Configured};
ghost use Rattle.site_base.specs.declared.row.Row.{Row as RowFacts};
ghost use Rattle.written_site.specs.Histories.{Moment};
ghost use Rattle.written_site.specs.SiteRun.{site_of_rows, IsLegal};
ghost use Rattle.written_site.specs.SiteState.{opening};
ghost use Rattle.site_book.specs.BookDraws.{book_draws, draw_made, draws_from, IsReplayedTo};
ghost use Rattle.site_book.specs.Readings.{IsNext};

use crate::book::SiteBook;
use crate::draw::Draw;
use site_base::{Answer, Millilitres, NoMemory, Row};
use site_core::Site;
use std::alloc::Global;
use std::marker::Model;

/// The draws of a book that are left to read, in the order in which they were drawn. Contracts see
/// their list. In code there is no list, but a site of its own that takes the rows' events one
/// after another.
#[derive(Drop)]
pub struct Draws<'a> {
    book: &'a SiteBook,
    // The rows before this place are replayed.
    place: u64,
    // The site that they led to.
    site: Site,
}

impl<'a> Model for Draws<'a> {
    ghost use Rattle.std.specs.Prelude.{List};
    ghost use Rattle.site_book.specs.BookDraws.{draws_from, IsReplayedTo};
    ghost use Rattle.site_book.specs.declared.draw.Draw.{Draw as DrawFacts};

    ghost Value = { List DrawFacts };

    ghost view = { λ x. draws_from x.place x.book.now };

    ghost invariant = { λ x. IsReplayedTo x.place x.site.site x.book.now };
}

impl SiteBook {
    /// Returns all draws of the book, in the order in which they were drawn. The book has to have
    /// all its rows in memory.
    pub fn draws(&self, alloc: Global) -> Result<Draws<'_>, NoMemory>
        requires whole { self.now.forgotten ≡ 0 }
        ensures { IfOk result (λ draws. draws ≡ book_draws self.now) }
    {
        let site = Site::try_open(alloc, &self.config)?;
        Ok(Draws {
            book: self,
            place: 0,
            site,
        })
    }
}

impl<'a> Draws<'a> {
    /// Returns the next draw; None if none is left. After `NoMemory` none is lost.
    pub fn next(&mut self) -> Result<Option<Draw>, NoMemory>
        ensures next { IfOk result (λ draw. IsNext self.old draw self.new) }
        ensures err { OnErr result (self.new ≡ self.old) }
    {
        find_draw(self.book, &mut self.site, &mut self.place)
    }
}

/// The first draw that the rows from this place on tell. The site takes the events of the rows up
/// to it, and the place moves behind them.
fn find_draw(book: &SiteBook, site: &mut Site, place: &mut u64) -> Result<Option<Draw>, NoMemory>
    requires { IsReplayedTo place.old site.old.site book.now }
    ensures replayed { IsReplayedTo place.new site.new.site book.now }
    ensures next { IfOk result (λ draw.
        IsNext (draws_from place.old book.now) draw (draws_from place.new book.now)) }
    ensures err { OnErr result
        (draws_from place.new book.now ≡ draws_from place.old book.now) }
{
    for at in *place..book.len() {
        let draw = replay_row(book, site, at)?;
        *place = at + 1;
        if draw.is_some() {
            return Ok(draw);
        }
    }
    Ok(None)
}

/// The draw that the row at this place tells, if it tells one. The site takes the row's event.
fn replay_row(book: &SiteBook, site: &mut Site, at: u64) -> Result<Option<Draw>, NoMemory>
    requires within { at < length book.now.rows }
    requires replayed { IsReplayedTo at site.old.site book.now }
    ensures draw { IfOk result (λ draw.
        draws_from at book.now ≡ cons_option draw (draws_from (at + 1) book.now)) }
    ensures replayed { OnOk result (IsReplayedTo (at + 1) site.new.site book.now) }
    ensures err { OnErr result (site.new.site ≡ site.old.site) }
{
    // The rows are a legal history.
    book.len();
    match &book.row(at) {
        Some(row) => {
            site.prepare(row.actor, &row.event)?;
            let draw = draw_made(site, row);
            let _ = site.step(row.actor, row.event);
            Ok(draw)
        }
        // There is a row at each place before the end.
        None => unreachable!(),
    }
}

/// What a row draws, by what the point shows at the site before the row: where it is answered
/// Drawn, the millilitres of the fuelling until then, and those that flowed in the row.
fn draw_made(site: &Site, row: &Row) -> Option<Draw>
    ensures { (c : Configured) (earlier : List RowFacts)
        → IsLegal (opening c) (earlier ++ row.now ∷ [])
        → site.now.site ≡ site_of_rows (opening c) earlier
        → result ≡ draw_made c
        (record { earlier = earlier; before = site.now.site; row = row.now }) }
{
    // What the site keeps is sound, and the row's reading in its range.
    site.is_sound();
    let _ = row.event.reading();
    let Ok(Answer::Drawn { growth }) = row.reply else {
        return None;
    };
    let point = row.event.point()?;
    let view = site.point(point)?;
    let product = site.product_out(point)?;
    let volume = Millilitres::new(view.volume.saturating_add(growth))?;
    Some(Draw {
        shift: site.open_shift(),
        point,
        product,
        volume,
    })
}
