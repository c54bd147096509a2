//! A clock that gives times as stamps.

use crate::stamp::Stamp;
use jiff::Timestamp;
use std::alloc::Global;
use std::time::{Clock, SystemTime};

/// A clock that gives times as stamps. The stamp of one millisecond is written only once.
#[derive(Clone, Copy, Debug)]
pub struct StampClock {
    millisecond: Option<i64>,
    stamp: Option<Stamp>,
}

impl StampClock {
    /// Returns a clock that hasn't been read.
    pub fn new() -> StampClock {
        StampClock {
            millisecond: None,
            stamp: None,
        }
    }

    /// Returns the current time, cut to milliseconds; None if the system's clock doesn't tell it,
    /// the year doesn't have four digits, or memory runs out.
    pub fn read<C: Clock>(&mut self, alloc: Global, clock: &C) -> Option<Stamp> {
        let now = SystemTime::now(clock).ok()?;
        let time = Timestamp::try_from(now).ok()?;
        let millisecond = time.as_millisecond();
        if self.millisecond != Some(millisecond) {
            self.stamp = Stamp::of_time(alloc, time).ok()?;
            self.millisecond = Some(millisecond);
        }
        self.stamp
    }
}
