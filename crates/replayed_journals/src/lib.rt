//! A chapter as a replay reads it: the law that joins a chapter's text to the replay's. It has no
//! code. The crate is above both, so that neither depends on the other.
#![tactic(auto)]

mod laws;

pub use laws::journals_are_replayed;
