//! The tests of counter_desk and of demo's dispensers: days of one share, and of several workers in
//! threads. They are a crate of their own, so that those crates are proved once.
#![tactic(auto)]

#[cfg(test)]
mod tests;
