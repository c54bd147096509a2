//! What no clause says: after a cut a start succeeds, and finds the rows that were sent.

mod crash;
mod cut_days;
mod cut_starts;
mod day;
mod expected;
mod message;
mod starts;
