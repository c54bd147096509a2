//! The sizes of a feed's connections, each written once.

/// The seconds that a peer has for its first line.
pub const ASKING_SECONDS: u64 = 10;

/// The seconds after which a peer that takes nothing is closed.
pub const TAKING_SECONDS: u64 = 60;

/// The seconds after which a peer without a row is told which row is next.
pub const ALIVE_SECONDS: u64 = 10;

/// The most octets of a peer that one read takes.
pub const HEARD_OCTETS: usize = 256;

/// The most peers that are fed at once.
pub const FEEDS: usize = 64;

/// The least milliseconds between two feeds of new rows to the peers that wait for them. Each feed
/// costs a write for each of them, for which the tills wait.
pub const FEED_MILLISECONDS: u64 = 50;

/// The seconds between two looks for peers that are late, or that have to hear that the feed is
/// alive.
pub const FEED_SWEEP_SECONDS: u64 = 1;
