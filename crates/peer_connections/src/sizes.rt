//! How long the station waits for a peer.

/// The seconds that a peer has for its first whole message.
pub const FIRST_MESSAGE_SECONDS: u64 = 10;

/// The milliseconds after which a session is read again that may not be read for now.
pub const HOLD_MILLISECONDS: u64 = 100;

/// The milliseconds after which such a session is read again if it has brought no whole message.
pub const FIRST_HOLD_MILLISECONDS: u64 = 10;

/// The seconds after which a session ends that is no longer read, because its peer takes nothing,
/// if sessions have no idle time.
pub const TAKING_SECONDS: u64 = 60;

/// After a session has ended, the seconds that its peer has for each step: to take more of its
/// pending output, and last to hang up.
pub const CLOSING_SECONDS: u64 = 5;
