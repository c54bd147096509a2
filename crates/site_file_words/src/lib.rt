//! What is wrong with a site file, in words for people: where each fault is, what was found there
//! and what was expected.
#![tactic(auto)]

mod explanation;
mod findings;
mod lines;
mod places;
mod rules;
mod shown;
mod spots;
mod tokens;
mod words;

pub use explanation::explain_fault;
