//! What the commands of the program share: how they read a file or a line of standard input, what
//! they print on standard error, and the status that the program exits with.
#![tactic(auto)]

mod exit;
mod files;
mod lines;

pub use exit::{
    COMMAND_LINE, FAULT, NO_MEMORY, exit_fault, exit_no_memory, exit_replay, exit_unwritten,
    exit_with,
};
pub use files::{
    exit_unread, exit_unstored, is_folder, read_file, read_site, read_site_file, words_of,
};
pub use lines::read_line;

/// The most read calls and interrupted write calls that a command makes.
pub const TURNS: u64 = 1_000_000_000;
