//! One fuelling point: the machine of its nine states. It takes what tills and its dispenser do in
//! turn, refuses what the point table doesn't list, and keeps what a fuelling needs until it ends.
//! It takes no memory. Besides it the crate has the holds of a site: which till holds which point,
//! with at most one till for a point. Taking and giving back a hold takes no memory.
#![tactic(auto)]

mod claims;
mod delivery;
mod event;
mod laws;
mod point;
mod step;
mod table;

pub use claims::Claims;
pub use event::PointEvent;
pub use laws::{
    kept_from_the_start, nothing_is_never_sold, sold_as_started, sold_at_the_end,
    sold_by_the_lifted_nozzle, stays_whole, terminated_stays_suspended, tests_are_drawn,
    volume_is_conserved,
};
pub use point::Point;
pub use step::PointStep;
