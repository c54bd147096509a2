//! Spans of time.

ghost use Rattle.std.specs.Prelude.{◌≡◌};
ghost use Rattle.stamps.specs.Stamps.{is_between, is_not_after, is_not_before};

use crate::stamp::Stamp;

/// A span of time, both ends included. A missing end leaves it open.
#[derive(Clone, Copy, Debug, PartialEq, Eq)]
pub struct TimeSpan {
    /// Its first time.
    pub from: Option<Stamp>,
    /// Its last time.
    pub to: Option<Stamp>,
}

impl TimeSpan {
    /// Is this time in it?
    pub fn contains(&self, time: &Stamp) -> bool
        ensures { result ≡ is_between self.now.from self.now.to time.now }
    {
        is_not_before(time, &self.from) && is_not_after(time, &self.to)
    }
}

/// Is the time not before the first one, if there is one?
fn is_not_before(time: &Stamp, first: &Option<Stamp>) -> bool
    ensures { result ≡ is_not_before first.now time.now }
{
    match first {
        None => true,
        Some(first) => !time.is_before(first),
    }
}

/// Is the time not after the last one, if there is one?
fn is_not_after(time: &Stamp, last: &Option<Stamp>) -> bool
    ensures { result ≡ is_not_after last.now time.now }
{
    match last {
        None => true,
        Some(last) => !last.is_before(time),
    }
}
