//! A history as chapters: the lines of its rows, the lines that name a chapter, its times and its
//! seals; how they are read; and the laws that chapters tell the history, and that seals bind it.
#![tactic(auto)]

mod chapter_begin;
mod fault;
mod first_lines;
mod history_end;
mod laws;
mod line_read;
mod open_shift;
mod reader;
mod request_line;
mod round;
mod row_line;
mod seal;

pub use chapter_begin::{CHAPTER_ROWS, ChapterBegin};
pub use fault::HistoryFault;
pub use first_lines::site_name;
pub use history_end::{HistoryEnd, MOST_CHAPTERS, SEAL_ROWS};
pub use laws::{
    chapters_tell_their_history, comments_say_nothing, seals_bind_their_texts, times_are_read,
};
pub use open_shift::{FirstRow, closes_shift};
pub use reader::{HistoryReader, ROWS_IN_MEMORY, ReadHistory, RowRead};
