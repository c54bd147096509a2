//! The days of a station, from its first listening to the report of its book.
//!
//! `station_day` lets a station serve until its day's end, and writes the report of its book.
//! `specs/StationDays.antt` says what is written.
#![tactic(auto)]

mod day;
mod fault;

pub use day::station_day;
pub use fault::to_day_fault;
