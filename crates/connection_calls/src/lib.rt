//! The calls of connections, each made when its connection is ready: what became of a call, who
//! waits at a listener, and how much is done before others are served.
#![tactic(auto)]

mod accepting;
mod call;
mod sizes;

pub use accepting::{Caller, accept, accept_at_door};
pub use call::{Call, both_ways};
pub use sizes::{ACCEPTS_A_TURN, CALLS_A_TURN, PIECE_OCTETS};
