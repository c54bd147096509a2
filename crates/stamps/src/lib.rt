//! The times of a history. A stamp is the time on a line, and times never fall. The crate also has
//! times as an operator types them, and spans of time.
#![tactic(auto)]

mod clock;
mod laws;
mod span;
mod stamp;
mod typed;

pub use clock::StampClock;
pub use laws::times_never_fall;
pub use span::TimeSpan;
pub use stamp::{AT_MARK, Stamp, is_later, later, stamp_in, time_after};
pub use typed::{first_time, last_time};
