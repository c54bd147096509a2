//! The table of a history's shifts: a line for each, as text or as JSON. For each shift it has when
//! it was opened and closed, what all tills cleared, and for each product the millilitres that were
//! cleared and those that tests drew.
#![tactic(auto)]

mod form;
mod json;
mod sums;
mod table;
mod text;

pub use form::Form;
pub use table::{SHIFTS_AT_ONCE, shifts_from, shifts_text};
