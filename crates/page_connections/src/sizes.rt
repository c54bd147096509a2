//! The sizes of the page's connections, each written once.

/// The most connections of the page at once.
pub const PAGE_CONNECTIONS: usize = 64;

/// The least milliseconds between two turns of the page's connections. Each request makes a text of
/// the site, for which the tills wait.
pub const TURN_MILLISECONDS: u64 = 100;

/// The most connections with a turn at once. The others have theirs the next time.
pub const LINKS_A_TURN: usize = 8;

/// The seconds that a peer of the page has after an answer, to make the next request and take its
/// answer.
pub const PAGE_SECONDS: u64 = 10;

/// The most octets that one read takes of what a peer of the page sends and nobody hears.
pub const IGNORED_OCTETS: usize = 1_024;
