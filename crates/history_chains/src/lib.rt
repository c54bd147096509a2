//! Histories one after another: the law that a nozzle's litres add up over all of them. It has no
//! code.
#![tactic(auto)]

mod laws;

pub use laws::litres_add_up;
