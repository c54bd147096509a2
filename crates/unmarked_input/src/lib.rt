//! A text without the byte order mark that some editors write before it. A reader passes over the
//! mark at the very beginning of its input, and gives every other octet as it is.
#![tactic(auto)]

#[cfg(test)]
mod tests;
mod unmarked;

pub use unmarked::{Unmarked, skip_mark};
