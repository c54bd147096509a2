//! What rows tell that their site doesn't, read row after row: how many rows were refused, by the
//! number of the refusal; which runs of refused readings are open; how far readings jumped when a
//! meter was replaced; and when points called, sales were sold and shifts were opened and closed. A
//! running station forgets its rows, and keeps this of them. The tally is defined in
//! `specs/Tally.antt`, a run of refused readings in `specs/Runs.antt`, a jump in
//! `specs/Jumps.antt`, the times in `specs/Moments.antt`.
#![tactic(auto)]

mod meter_jumps;
mod meter_reading;
mod moments;
mod open_runs;
mod refused_run;
mod row_tally;
mod shift_times;
mod sold_at;

pub use meter_jumps::MeterJumps;
pub use meter_reading::MeterReading;
pub use moments::Moments;
pub use open_runs::OpenRuns;
pub use refused_run::{RefusedRun, RowPlace};
pub use row_tally::{REFUSAL_CELLS, RowTally};
pub use shift_times::{ShiftTimes, TimesReader};
pub use sold_at::SoldAt;
