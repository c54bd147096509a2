//! The meters of a site's nozzles: the last reading of each, what a report of a dispenser must
//! read, and how much of each product was metered since the site opened. A report that is refused
//! moves no meter.
#![tactic(auto)]

mod laws;
mod meter;
mod meters;
mod place;
mod recount;
mod report;

pub use laws::{
    growth_raises_one_total, reports_are_metered, stays_within_bounds, totals_are_metered,
};
pub use meter::REPLACEMENT_LIMIT;
pub use meters::Meters;
pub use report::Report;
