//! The tests of row_feed, and of the last rows that row_json keeps. They are a crate of their own,
//! so that those crates are proved once.
#![tactic(auto)]

#[cfg(test)]
mod tests;
