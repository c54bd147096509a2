//! The talk with one peer, without its connection: who speaks, which till is signed on, what a
//! message means, and the messages that go back. Sessions over a connection, the station and the
//! replay use it.
//!
//! `specs/Text.antt` defines what is said to a peer, and `specs/Exchanges.antt` what is asked and
//! answered.
#![tactic(auto)]

mod fault;
mod reply_writer;
mod talk;

pub use fault::{ORIGINATOR_CHANGED, TalkFault};
pub use reply_writer::ReplyWriter;
pub use talk::{Meaning, Talk};
