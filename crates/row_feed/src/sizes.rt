//! The sizes of a feed, each written once.

/// The most octets of lines that are made at once.
pub const FEED_OCTETS: usize = 65_536;

/// The most octets of a peer's first line, without its line feed.
pub const LINE_OCTETS: usize = 64;
