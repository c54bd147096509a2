//! The figures of a site's shifts, closed and open: for each till the clears and their cents; for
//! each product the millilitres cleared, their cents, and the millilitres drawn by tests.
#![tactic(auto)]

mod book;
mod laws;
mod row;

pub use book::ShiftBook;
pub use laws::{
    a_clear_counts, a_draw_adjusts, closed_shifts_stay, figures_are_sums, has_every_figure,
    shifts_open_empty,
};
pub use row::ShiftRow;
