//! The tests of till_session (sessions in memory, whole and cut short, and the server in memory),
//! of the station (moves of a till and a dispenser, by octets), and of messages and replies as a
//! session meets them. They are a crate of their own, so that those crates are proved once.
#![tactic(auto)]

#[cfg(test)]
mod tests;
