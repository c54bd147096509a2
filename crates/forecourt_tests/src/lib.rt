//! The tests of site_base, site_file, demo, forecourt_engines and day_base: what no clause says of
//! them, and states that the program can't reach from outside. They are a crate of their own, so
//! that those crates are proved once.
#![tactic(auto)]

#[cfg(test)]
mod tests;
