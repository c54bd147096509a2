//! A site as a table writes it, line by line.

use site_base::{PointEntry, ProductEntry, SiteConfig, TillNo};
use std::alloc::Global;

/// The lines of a site so far.
#[derive(Drop)]
pub struct Draft {
    pub rows: u32,
    pub managers: Vec<TillNo>,
    pub products: Vec<ProductEntry>,
    pub points: Vec<PointEntry>,
}

impl Draft {
    /// Returns a site that begins, with the most rows of its history.
    pub fn new(alloc: Global, rows: u32) -> Draft {
        Draft {
            rows,
            managers: Vec::new(alloc),
            products: Vec::new(alloc),
            points: Vec::new(alloc),
        }
    }

    /// Returns the configuration, if the site is fit.
    pub fn into_config(self) -> Option<SiteConfig> {
        SiteConfig::try_new(self.rows, self.managers, self.products, self.points)
    }
}
