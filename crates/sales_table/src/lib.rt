//! The tables of a day: its sales and the draws of its tests, as comma-separated values or as JSON.
//! Each line is one sale or draw of the book, in the order in which they were made. For a history
//! whose book forgets its rows, a `SoldList` and a `DrawReader` read the same as the rows come. A
//! history's sales have their times, and one can ask for those that were cleared in a span of time.
#![tactic(auto)]

mod csv_fields;
mod draw_lines;
mod draw_reader;
mod fault;
mod form;
mod json_line;
mod names;
mod sale_lines;
mod sold_list;
mod sold_tables;
mod status_words;
mod tables;
mod timed_sale;

pub use csv_fields::csv_line;
pub use draw_lines::{draw_line, draw_titles};
pub use draw_reader::DrawReader;
pub use fault::TableFault;
pub use form::Form;
pub use json_line::{draw_object, sale_object};
pub use names::name_of;
pub use sale_lines::{sale_line, sale_titles};
pub use sold_list::{SoldList, sale_cleared};
pub use sold_tables::{drawn_table, sold_table};
pub use tables::{write_draws, write_sales};
pub use timed_sale::{SaleName, TimedSale};
