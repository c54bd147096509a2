//! The written one-thread site: the site's rules, without code. To audit them, read this crate's
//! `specs/`: the site state, the checks in their order, what an accepted event changes, runs over
//! lists of events, what rows say of holds, and what a site always keeps. The laws that the rules
//! obey are the contracts of the functions here, whose bodies are empty. The crate `site_core` has
//! the code that follows the rules.
#![tactic(auto)]

mod laws;

pub use laws::{
    books_held_by_one, cleared_once, clears_are_counted, clears_are_told, draws_are_counted,
    every_figure_fits, figures_fit, figures_move, finds_room, held_by_one, holds_are_unended_takes,
    legal_histories_are_runs, locked_by_one, meters_by_rows, passes_each_check,
    points_are_their_own, priced_at_start, products_add_up, refusals_leave_the_site,
    runs_stay_sound, sales_are_kept, sales_are_numbered, shift_by_rows, signed_on_by_rows,
    stays_sound, tests_are_apart, volumes_add_up, volumes_are_conserved,
    volumes_cleared_are_counted,
};
