//! A kept row of a history as a JSON object, one line for each row: who asked what, the reply, the
//! row's number and time, and what the site shows after it: the state of the point that the row
//! names, and the sale that it makes or changes. A `RowReader` finds these, row after row, with a
//! site of its own. `LastRows` keeps the last rows in memory.
#![tactic(auto)]

mod last_rows;
mod laws;
mod reply_words;
mod row_line;
mod row_object;
mod row_reader;
mod sizes;
mod told_row;

pub use last_rows::LastRows;
pub use laws::json_tells_the_row;
pub use row_reader::RowReader;
pub use sizes::{GREATEST_ROW, LAST_ROWS};
pub use told_row::ToldRow;
