//! A conversation, message by message: it finds what a message means, asks that, and writes what is
//! answered.
//!
//! The replay, the sessions over a connection and the station use it. Each asks something else
//! (`Asks`), and sends in its own way what is answered. A journal that is read back asks its book
//! for each request too.
#![tactic(auto)]

mod asks;
mod hearing;
mod said;

pub use asks::{Asks, NoReply, fill};
pub use hearing::{ask, hear, hear_anyone};
pub use said::Said;
