//! Days at a desk: a server's and a demo's, from their first line to the report of what was
//! settled.
//!
//! `serve_day` opens a desk, serves a number of sessions by a number of workers over a `Loopback`,
//! settles the desk, and writes the report: `specs/Days.antt` says what is written. `demo` runs a
//! whole site in one call. First one worker works through a setup. Then the sections of a script
//! are worked through in parallel: a till's as a session, a dispenser's by a simulated dispenser.
//! At the end the desk is settled: `specs/Demos.antt`, `specs/Sections.antt`. `demo_day` writes its
//! report too.
#![tactic(auto)]

mod client;
mod demo_fault;
mod demos;
mod listener;
mod over_loopback;
mod over_memory;
mod section;
mod server;
mod workers;

pub use demo_fault::DemoFault;
pub use demos::{DemoEnd, DemoPlan, demo, demo_day};
pub use listener::{Loopback, ReadHalf, WriteHalf};
pub use server::serve_day;
