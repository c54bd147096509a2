//! The site file: which site a TOML text configures, or its first fault.
//!
//! `read_config` returns exactly the configuration in the text, or the first fault in the order of
//! the site file's table. `specs/SiteFile.antt` says line for line which that is.
#![tactic(auto)]

mod by_number;
mod fault;
mod key;
mod laws;
mod managers;
mod points;
mod printable;
mod products;
mod reading;
mod site;
mod unknown_keys;
mod values;

pub use fault::ConfigFault;
pub use key::Key;
pub use laws::{accepts_the_fit_sites, tells_the_text_apart};
pub use printable::PrintedKey;
pub use reading::read_config;
