//! The tests of memory_disk, and of a journal on it. The day of a station is cut at each call of
//! its disk, and a start after the cut has to find each row that was sent. They are a crate of
//! their own, so that memory_disk is proved once.
#![tactic(auto)]

#[cfg(test)]
mod tests;
