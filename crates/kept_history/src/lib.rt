//! Which rows of a history have to be kept, and that they are enough: laws, no code.
//!
//! A station's history keeps each row except those of reads. A read changes nothing, whether it is
//! accepted or refused. So the kept rows are a legal history too, and lead to the same site.
#![tactic(auto)]

mod laws;

pub use laws::reads_can_be_left_out;
