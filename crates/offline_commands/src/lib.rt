//! The commands that open no site for a day: `check`, `replay`, `report`, `sales`, `meters`,
//! `explain` and `spell`. They read a site file or standard input, print, and end.
//!
//! Each `run_..` takes what the command line says and returns the exit status. What a command does
//! is in `forecourt_engines`, `day_report`, `sales_table` and `meter_table`.
#![tactic(auto)]

mod book_text;
mod check;
mod counters;
mod explain;
mod history_option;
mod named_site;
mod output;
mod replay;
mod report;
mod sales;
mod silent;
mod spell;

pub use check::run_check;
pub use counters::run_meters;
pub use explain::run_explain;
pub use replay::{run_replay, run_replay_here};
pub use report::run_report;
pub use sales::run_sales;
pub use spell::run_spell;
