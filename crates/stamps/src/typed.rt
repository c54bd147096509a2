//! Times as an operator types them: a date, or a date and a time, UTC or with an offset.

use crate::stamp::Stamp;
use jiff::Timestamp;
use std::alloc::{AllocError, Global};

/// A date alone has so many octets: 2026-11-27.
const DATE_OCTETS: usize = 10;

/// Returns the time that was typed; for a date alone its first millisecond. None if it isn't a
/// time.
pub fn first_time(alloc: Global, typed: &str) -> Result<Option<Stamp>, AllocError> {
    typed_time(alloc, typed, "T00:00:00.000Z")
}

/// Returns the time that was typed; for a date alone its last millisecond. None if it isn't a time.
pub fn last_time(alloc: Global, typed: &str) -> Result<Option<Stamp>, AllocError> {
    typed_time(alloc, typed, "T23:59:59.999Z")
}

/// The time that is typed, where a date alone stands for this time of it. Without an offset it is
/// UTC. Digits finer than milliseconds are cut.
fn typed_time(alloc: Global, typed: &str, of_date: &str) -> Result<Option<Stamp>, AllocError> {
    let is_date = typed.len() == DATE_OCTETS;
    let missing = if is_date { of_date } else { "Z" };
    let whole = format!(in alloc; "{typed}{missing}")?;
    if let Ok(time) = whole.as_str().parse::<Timestamp>() {
        return Stamp::of_time(alloc, time);
    }
    match typed.parse::<Timestamp>() {
        Ok(time) => Stamp::of_time(alloc, time),
        Err(_) => Ok(None),
    }
}
