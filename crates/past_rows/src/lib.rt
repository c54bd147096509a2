//! What is printed of the rows of a history, row after row: their replies as lines of hexadecimal,
//! and their words, with or without their times; and the figures of some of its shifts.
#![tactic(auto)]

mod figures;
mod replies;
mod shift_figures;
mod shifts;
mod words;

pub use replies::ReplyLines;
pub use shift_figures::ShiftFigures;
pub use shifts::ShiftRange;
pub use words::{put_timed_words, put_words};
