//! The audit: every figure of a history, computed again only from the configuration and the rows.

ghost use Rattle.std.specs.Prelude.{◌≡◌, ◌∷◌, [], IfOk, OnOk};
ghost use Rattle.written_site.specs.SiteRun.{site_of_rows};
ghost use Rattle.site_book.specs.Book.{whole_book};
ghost use Rattle.site_book.specs.Figures.{AreFiguresOf};

use crate::rows::Rows;
use site_base::{NoMemory, Row, SiteConfig, Totals};
use site_core::Site;
use std::alloc::Global;

/// Returns the figures of these rows, computed only from the configuration and the rows: it opens a
/// site, lets that take each row's event, and counts what it then has. It has no other site to read
/// from.
pub fn audit_rows(alloc: Global, config: &SiteConfig, rows: &Rows) -> Result<Totals, NoMemory>
    ensures { IfOk result (λ totals.
        AreFiguresOf (whole_book config.now rows.now.rows) totals) }
{
    let mut site = Site::try_open(alloc, config)?;
    run_again(&mut site, rows)?;
    site.count_totals(alloc, rows.len() as u64)
}

/// Takes the written step for the event of each row in turn.
fn run_again(site: &mut Site, rows: &Rows) -> Result<(), NoMemory>
    ensures { OnOk result (site.new.site ≡ site_of_rows site.old.site rows.now.rows) }
{
    for place in 0..rows.len() {
        match &rows.get(place) {
            Some(row) => take_step(site, row)?,
            None => {}
        }
    }
    Ok(())
}

/// Takes the written step for the event of a row.
fn take_step(site: &mut Site, row: &Row) -> Result<(), NoMemory>
    ensures { OnOk result (site.new.site ≡ site_of_rows site.old.site (row.now ∷ [])) }
{
    site.prepare(row.actor, &row.event)?;
    let _ = site.step(row.actor, row.event);
    Ok(())
}
