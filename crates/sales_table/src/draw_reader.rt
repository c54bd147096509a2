//! Reads what tests drew from the rows of a history.

use site_base::{Answer, Millilitres, NoMemory, Row, SiteConfig};
use site_book::Draw;
use site_core::Site;
use std::alloc::Global;

/// Reads draws from the rows of a history, one after another, with a site of its own that takes the
/// rows' events.
#[derive(Drop)]
pub struct DrawReader {
    site: Site,
}

impl DrawReader {
    /// Returns a reader at the opening of this site.
    pub fn open(alloc: Global, config: &SiteConfig) -> Result<DrawReader, NoMemory> {
        let site = Site::try_open(alloc, config)?;
        Ok(DrawReader { site })
    }

    /// Reads the next row, and returns the draw that it made, if it made one.
    pub fn read(&mut self, row: &Row) -> Result<Option<Draw>, NoMemory> {
        self.site.prepare(row.actor, &row.event)?;
        let draw = draw_made(&self.site, row);
        let _ = self.site.step(row.actor, row.event);
        Ok(draw)
    }
}

/// What a row draws, by what the point shows at the site before the row: where it is answered
/// Drawn, the millilitres of the fuelling until then, and those that flowed in the row.
fn draw_made(site: &Site, row: &Row) -> Option<Draw> {
    let Ok(Answer::Drawn { growth }) = row.reply else {
        return None;
    };
    let point = row.event.point()?;
    let view = site.point(point)?;
    let product = site.product_out(point)?;
    let volume = Millilitres::new(view.volume.saturating_add(growth))?;
    Some(Draw {
        shift: site.open_shift(),
        point,
        product,
        volume,
    })
}
