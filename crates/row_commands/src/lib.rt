//! The commands that print the rows of a history: `replay`, `explain`, `sales`, `meters` and
//! `report` of a folder, for all its shifts or for some; `story` of one sale
//! (`specs/Stories.antt`); and `verify`, which reads each row and says where the history ends.
#![tactic(auto)]

mod asked_rows;
mod counters;
mod gap_rows;
mod meter_rows;
mod options;
mod output;
mod past_row;
mod people_report;
mod report;
mod row_count;
mod row_form;
mod rows;
mod sale_story;
mod sale_word;
mod sales;
mod seal_word;
mod story;
mod times;
mod verify;

pub use counters::run_meters_folder;
pub use report::run_report_folder;
pub use rows::{run_explain_folder, run_replay_folder};
pub use sales::run_sales_folder;
pub use story::run_story;
pub use verify::run_verify;
