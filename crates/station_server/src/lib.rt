//! The station over sockets: connections on 127.0.0.1, up to 1,024 at once, and those of doors, on
//! one thread.
//!
//! `StationServer` waits until connections are ready (`mio`, edge-triggered). In a round the
//! station processes what the ready peers sent. Then the server sends pending output, also to peers
//! that get notices (`peer_connections`). Last, it serves the connections of the page and of the
//! feed (`page_connections`, `feed_connections`). It changes the station only by the station's own
//! moves, so each law of `station` holds for what it serves. Readiness and the clock are the
//! system's.
#![tactic(auto)]

mod arrivals;
mod doors;
mod fault;
mod listeners;
mod onlookers;
mod round_clock;
mod server;
mod sessions;
mod sizes;

pub use doors::Doors;
pub use fault::ServerFault;
pub use server::StationServer;
