//! The counters of a day or a history, nozzle by nozzle. A `MeterReader` reads rows one after
//! another. For each nozzle it counts what its meter metered, what was sold and drawn, and by how
//! much replaced meters jumped. A `GapReader` notes each replaced meter and each run of refused
//! readings. Both become a table: for people, as comma-separated values or as JSON. A report for
//! people has lines on gaps too (`specs/ReportLines.antt`). The lines add up, and no gap is lost
//! (`specs/Laws.antt`).
#![tactic(auto)]

mod figure_lines;
mod figures;
mod form;
mod gap;
mod gap_lines;
mod gap_list;
mod gap_reader;
mod laws;
mod meter_reader;
mod people;
mod report_lines;
mod tables;
mod words;

pub use figures::NozzleFigures;
pub use form::Form;
pub use gap::Replacement;
pub use gap_list::GapList;
pub use gap_reader::GapReader;
pub use laws::{
    each_line_adds_up, each_refused_reading_has_a_run, each_replacement_has_a_line,
    each_whole_line_adds_up, no_gap_is_lost,
};
pub use meter_reader::MeterReader;
pub use report_lines::gap_words;
pub use tables::{figures_table, gaps_table};
