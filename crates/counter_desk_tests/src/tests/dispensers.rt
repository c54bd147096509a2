//! Simulated dispensers at a desk: that a run has a result if there is memory, and what it leaves.

mod out_of_memory;
mod runs;
mod site;
