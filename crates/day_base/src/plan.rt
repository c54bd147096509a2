//! What is asked of a server, and of a station.

ghost use Rattle.std.specs.Prelude.{◌≤◌};
ghost use Rattle.counter_desk.specs.declared.crews.TheConstants.{WORKERS};
ghost use Rattle.till_session.specs.declared.server.TheConstants.{SESSIONS};

use counter_desk::WORKERS;
use till_session::SESSIONS;

/// The port on which a server listens, the number of its workers and that of the sessions, within
/// their limits.
#[derive(Clone, Copy, Debug, PartialEq, Eq)]
pub struct ServerPlan {
    /// The port, 0 for a free one.
    pub port: u16,
    /// How many workers serve in parallel.
    pub workers: usize,
    /// How many sessions are served in all.
    pub sessions: usize,
    ghost some_workers: { 1 ≤ workers },
    ghost few_workers: { workers ≤ WORKERS },
    ghost some_sessions: { 1 ≤ sessions },
    ghost few_sessions: { sessions ≤ SESSIONS },
}

/// The most seconds after which a silent session may be ended.
pub const IDLE_SECONDS: u64 = 86_400;

/// The most requests a second that a station may hear of a session.
pub const GREATEST_RATE: u64 = 1_000_000;

/// The requests a second that a station hears of a session, unless the command line gives others.
pub const USUAL_RATE: u64 = 1_000;

/// The ports on which a station listens, how long a peer may be silent, and how much is heard.
#[derive(Clone, Copy, Debug, PartialEq, Eq)]
pub struct StationPlan {
    /// The port, 0 for a free one; without one it listens only at doors.
    pub port: Option<u16>,
    /// The page's port, 0 for a free one; without one there is no page.
    pub page: Option<u16>,
    /// The feed's port, 0 for a free one; without one there is none.
    pub feed: Option<u16>,
    /// The seconds after which a silent session ends; without a number none does.
    pub idle: Option<u64>,
    /// The most requests a second that are heard of a session; 0 means any number.
    pub rate: u64,
}

/// How a day's report is written.
#[derive(Clone, Copy, Debug, PartialEq, Eq)]
pub enum ReportForm {
    /// A line for each figure.
    Text,
    /// One object of JSON, on one line.
    Json,
}
