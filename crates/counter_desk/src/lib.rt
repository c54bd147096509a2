//! The counter desk: one site for several workers. The site and its history are under one lock.
//! Each worker has a share, which keeps a receipt for each of its calls. Once all shares are handed
//! in, a settlement shows that they add up to the history.
#![tactic(auto)]

mod crews;
mod debts;
mod desk;
mod gate;
mod laws;
mod locked;
mod marks;
mod naming;
mod receipt;
mod root;
mod settlement;
mod settling;
mod share;
pub mod testing;
mod worker;

pub use crews::{WORKERS, crew};
pub use desk::Desk;
pub use gate::{Gate, OpenGate};
pub use laws::kept_histories_are_sound;
pub use naming::Naming;
pub use receipt::Receipt;
pub use root::Root;
pub use settlement::{SettleFault, Settled, Unsettled};
pub use settling::settle_all;
pub use share::Share;
pub use worker::{ListEnd, WorkFault, work};
