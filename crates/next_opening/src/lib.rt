//! Where the next history begins: the configuration that continues a book, and what prevents a
//! history from ending.
#![tactic(auto)]

mod found_obstacles;
mod next_site;
mod obstacle;

pub use found_obstacles::obstacles;
pub use next_site::next_config;
pub use obstacle::Obstacle;
