//! The commands that read a history and print about its shifts: `shifts`, their table, and `next`,
//! the site file with which the next history begins.
#![tactic(auto)]

mod next;
mod printing;
mod shifts;

pub use next::run_next;
pub use shifts::run_shifts;
