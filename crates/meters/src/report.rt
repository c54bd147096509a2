//! What a report of a meter may read.

/// What a report of a meter may read.
#[derive(Clone, Copy, Debug, PartialEq, Eq)]
pub enum Report {
    /// No fuel has flowed: it reads the meter's last reading.
    Still,
    /// Fuel may have flowed: it reads the meter's last reading, or up to `GROWTH_LIMIT` above it.
    Growing,
}
