//! `forecourt ask`: sends requests to a running station, and prints its replies, both in words.
#![tactic(auto)]

mod asking;
mod lines;
mod run;

pub use run::run_ask;
