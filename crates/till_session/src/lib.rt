//! Sessions of tills and dispensers: they read octets and write replies.
//!
//! A `Session` reads the messages of one peer, asks a `Counter` for each request, and writes the
//! reply before it asks for the next one. `peer_talk` defines the text that it writes for what it
//! read. The counter's record has a row for each request that was answered with one. A till that
//! the session signed on and didn't sign off is signed off at its end.
#![tactic(auto)]

mod accept;
mod asking;
mod counter;
mod desk_counter;
mod fault;
mod server;
mod session;
mod teller;
pub mod testing;

pub use accept::{Accept, NoConnection};
pub use counter::Counter;
pub use desk_counter::DeskCounter;
pub use fault::SessionFault;
pub use server::{SESSIONS, serve};
pub use session::{Session, SessionEnd};
