//! The transactions of a site's fuelling points, from the sale until the clear: which are payable,
//! which a till has locked, and which a till has cleared in which shift. A transaction is cleared
//! only once, and only by the till that has locked it.
#![tactic(auto)]

mod buffer;
mod figure;
mod found_sale;
mod laws;
mod locked_points;
mod recount;
mod request;
mod sale;
mod shelf;
mod span;
mod standing;
mod sums;
mod unpaid_places;

pub use buffer::Buffer;
pub use figure::Figure;
pub use found_sale::FoundSale;
pub use laws::{
    cleared_by_its_locker, cleared_for_good, counted_after, one_locker, read_after, replies_tell,
    summed_after, volumes_add_up, volumes_move,
};
pub use request::Request;
pub use sale::Sale;
pub use shelf::UNPAID_LIMIT;
pub use standing::Standing;
