//! A configuration as the text of a site file, and whether two configurations are the same.
#![tactic(auto)]

mod check;
mod same;
mod text;

pub use check::{TextFault, checked_text};
pub use same::is_same_site;
pub use text::site_text;
