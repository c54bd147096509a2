//! What no clause says.

mod base;
mod claims;
mod days;
mod files;
mod replays;
mod scripts;
mod turns;
