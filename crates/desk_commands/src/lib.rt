//! The commands that open a desk for a day: `serve` and `demo`.
//!
//! Each `run_..` takes what the command line says, reads the site file, runs the day and returns
//! the exit status. What a day does is in `desk_days`.
#![tactic(auto)]

mod demo_command;
mod ends;
mod serve;

pub use demo_command::run_demo;
pub use serve::run_serve;
