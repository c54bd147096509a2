//! How much is done before others are served, each number written once.

/// The most octets that one read takes.
pub const PIECE_OCTETS: usize = 4_096;

/// The most reads from a peer, or writes to it, before others are served.
pub const CALLS_A_TURN: usize = 16;

/// The most connections that are accepted before others are served.
pub const ACCEPTS_A_TURN: usize = 64;
