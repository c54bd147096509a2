//! A site's figures as OpenMetrics text, for programs that watch many stations: rows, connections,
//! points, unpaid transactions, shifts, refused rows, open gaps, and what the station itself
//! counts. The texts are those of `specs/Metrics.antt`.
#![tactic(auto)]

mod counts;
mod families;
mod figures;
mod kinds;
mod tallied;

pub use counts::{StationCounts, StoreTimes, VERSION};
pub use figures::metrics_text;
