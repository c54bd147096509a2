//! The time of the rounds.

use crate::sizes::ROUND_SECONDS;
use std::time::{Clock, Duration, Instant};

/// What time it is, and the time by which peers are waited for. While the station is stopped, or
/// waits for the disk, it hears nobody and sends nothing. So of each round one second counts at
/// most: nobody is late by what passed before it could be heard.
#[derive(Clone, Copy, Debug)]
pub(crate) struct RoundClock {
    now: Instant,
    waited: Instant,
}

impl RoundClock {
    /// A clock that shows this time.
    pub(crate) fn new(now: Instant) -> RoundClock {
        RoundClock { now, waited: now }
    }

    /// A round begins. Where the system's clock doesn't tell the time, none has passed.
    pub(crate) fn begin_round<R: Clock>(&mut self, rt: &R) {
        let Ok(now) = Instant::now(rt) else {
            return;
        };
        let mut passed = now.duration_since(self.now);
        let most = Duration::from_secs(ROUND_SECONDS);
        if passed > most {
            passed = most;
        }
        self.now = now;
        if let Some(waited) = self.waited.checked_add(passed) {
            self.waited = waited;
        }
    }

    /// What time it was as the round began.
    pub(crate) fn now(&self) -> Instant {
        self.now
    }

    /// The time by which peers are waited for.
    pub(crate) fn waited(&self) -> Instant {
        self.waited
    }
}

/// The lesser of two times, where there are both.
pub(crate) fn sooner(one: Option<Duration>, other: Option<Duration>) -> Option<Duration> {
    match (one, other) {
        (Some(one), Some(other)) if other < one => Some(other),
        (None, other) => other,
        (one, _) => one,
    }
}
