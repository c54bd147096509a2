//! The command that opens a station for a day: `station`.
//!
//! `run_station` takes what the command line says, reads the site file, opens the history, runs the
//! day and returns the exit status. What a day does is in `station_days`, and the folder of a
//! history in `history_files`.
#![tactic(auto)]

mod command;
mod doors;
mod ends;
mod error_lines;
mod feed_start;
mod found;
mod histories;
mod input_watch;
mod line_tally;
mod station_site;

pub use command::{StationHost, run_station};
