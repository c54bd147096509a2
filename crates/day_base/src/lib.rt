//! What the days of a desk and of a station share.
//!
//! `ServerPlan::read`, `StationPlan::read` and `HousePlan::read` read what the command line asks of
//! them: `specs/Plans.antt`, `HousePlans.antt`. `put_listening` and `put_places` write where a day
//! listens, `put_report` writes the report of a settled day, and `put_book_report` that of a book:
//! `specs/Texts.antt`. `DayFault` says why a day ends with a fault, and `exit_day` ends the program
//! with it: `specs/Ends.antt`.
#![tactic(auto)]

mod book_report;
mod ends;
mod fault;
mod house_plan;
mod options;
mod plan;
mod writing;

pub use book_report::{json_report_of_book, put_book_report};
pub use ends::exit_day;
pub use fault::DayFault;
pub use house_plan::HousePlan;
pub use options::OptionFault;
pub use plan::{ReportForm, ServerPlan, StationPlan};
pub use writing::{put_listening, put_places, put_report};
