//! The words of tables: sites and events in words, read into what a site is given, in order.
//! docs/PROGRAM.md has the grammar.

mod draft;
mod event;
mod line;
mod table;

pub use line::Line;
pub use table::{Step, TableReader};
