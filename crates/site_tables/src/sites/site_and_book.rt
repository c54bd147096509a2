//! The site that a table runs, and its book.

use crate::sites::book::{apply_alone, apply_beside, audit, leave, open_book, print_changes};
use crate::sites::printing::{ensure_counted, print_point, print_sale, print_shift, print_totals};
use crate::sites::run::{Replies, open_site, print_rows, replies_to};
use crate::words::Line;
use anyhow::{bail, ensure};
use site_base::{Actor, Event, FpNo, ShiftNo, SiteConfig, TillNo};
use site_book::SiteBook;
use site_core::Site;
use std::alloc::Global;

/// A site and its book, which have to answer alike; or only the book, beside a site that isn't run.
#[derive(Drop)]
pub struct SiteAndBook {
    alloc: Global,
    alone: bool,
    site: Site,
    book: SiteBook,
}

impl SiteAndBook {
    /// Opens both.
    pub fn open(
        rt: &impl Eprint,
        alloc: Global,
        config: &SiteConfig,
        alone: bool,
    ) -> anyhow::Result<SiteAndBook> {
        let site = open_site(rt, alloc, config)?;
        let book = open_book(rt, alloc, config)?;
        Ok(SiteAndBook {
            alloc,
            alone,
            site,
            book,
        })
    }

    /// Runs the events, and prints the last rows.
    pub fn run(
        &mut self,
        rt: &(impl Print + Eprint),
        events: &[(Actor, Event)],
        last: usize,
    ) -> anyhow::Result<()> {
        if self.alone {
            return apply_all(rt, &mut self.book, events, last);
        }
        let replies = replies_to(rt, self.alloc, &mut self.site, events)?;
        apply_all_beside(rt, &mut self.book, events, &replies)?;
        print_rows(rt, events, &replies, last)
    }

    /// Prints what a line asks.
    pub fn show(&mut self, rt: &impl Print, line: &Line) -> anyhow::Result<()> {
        match line {
            Line::Totals => self.totals(rt),
            Line::Changes(place) => print_changes(rt, self.alloc, &self.book, *place),
            Line::Leave(t) => self.leave(rt, *t),
            Line::Show(p) => self.point(rt, *p),
            Line::Shift(n) => self.shift(rt, *n),
            Line::Sale(p, id) => {
                ensure!(!self.alone, "a book doesn't show it");
                print_sale(rt, *p, id, self.site.transaction(*p, *id))
            }
            _ => bail!("nothing is shown"),
        }
    }

    fn totals(&self, rt: &impl Print) -> anyhow::Result<()> {
        let totals = &audit(self.alloc, &self.book)?;
        if !self.alone {
            let rows = self.book.len();
            ensure_counted(totals, &self.site.totals(self.alloc, rows)?)?;
        }
        print_totals(rt, totals)
    }

    fn leave(&mut self, rt: &impl Print, t: TillNo) -> anyhow::Result<()> {
        if self.alone {
            return leave(rt, &mut self.book, t);
        }
        let was = self.site.signed_on(t);
        if was {
            self.site.sign_off(t);
        }
        let row = self.book.sign_off(t);
        ensure!(row.is_some() == was, "the book says otherwise");
        println!(rt; "leave {}: {was}", t.get())?;
        Ok(())
    }

    fn point(&self, rt: &impl Print, p: FpNo) -> anyhow::Result<()> {
        let shown = self.book.point(p);
        if !self.alone {
            ensure!(shown == self.site.point(p), "the book shows another point");
        }
        print_point(rt, p, shown)
    }

    fn shift(&self, rt: &impl Print, n: ShiftNo) -> anyhow::Result<()> {
        ensure!(!self.alone, "a book doesn't show it");
        let row = self.site.shift(n);
        ensure!(
            row == self.site.counted_shift(n),
            "the shift's figures aren't those counted"
        );
        print_shift(rt, n, row)
    }
}

/// Applies the events to a book that is kept alone, and prints the last rows.
fn apply_all(
    rt: &(impl Print + Eprint),
    book: &mut SiteBook,
    events: &[(Actor, Event)],
    last: usize,
) -> anyhow::Result<()> {
    let first = events.len().saturating_sub(last);
    for place in 0..events.len() {
        apply_alone(rt, book, events.get(place), place >= first)?;
    }
    Ok(())
}

/// Applies the events to the book beside the site, which answered so.
fn apply_all_beside(
    rt: &impl Eprint,
    book: &mut SiteBook,
    events: &[(Actor, Event)],
    replies: &Replies,
) -> anyhow::Result<()> {
    for place in 0..events.len() {
        apply_beside(rt, book, events.get(place), replies.at(place))?;
    }
    Ok(())
}
