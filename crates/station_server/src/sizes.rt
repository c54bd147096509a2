//! The sizes of the server, each written once.

/// The most events that a round looks at.
pub const EVENTS_A_ROUND: usize = 256;

/// The most connections that a round accepts over TCP.
pub const ACCEPTS_A_ROUND: usize = 256;

/// The seconds between two sweeps. A sweep retries a failed accept, and looks for sessions that are
/// idle or don't close.
pub const SWEEP_SECONDS: u64 = 1;

/// The most seconds that a round adds to the time by which peers are waited for, however long it
/// takes.
pub const ROUND_SECONDS: u64 = 1;

/// The most rounds that are heard from the time of a sweep on until it is swept. In them everybody
/// who was ready has a turn.
pub const ROUNDS_BEFORE_A_SWEEP: usize = 16;
