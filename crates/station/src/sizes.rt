//! The station's sizes, each written once.

use app_message::{HEADER, LONGEST_BODY};
use site_base::{POINT_CELLS, TILL_CELLS};

/// The number of places for peers that come through no door.
pub const FREE_PLACES: usize = 1_024;

/// The most sessions that a node has at once, at its door or without one.
pub const NODE_SESSIONS: usize = 4;

/// The most doors: one for each till and each dispenser.
pub const DOORS: usize = TILL_CELLS + POINT_CELLS;

/// The most peers at once. After the free places come those of each door.
pub const PEERS: usize = FREE_PLACES + DOORS * NODE_SESSIONS;

/// A peer with this many pending octets, or more, isn't read.
pub const READ_LIMIT: usize = 65_536;

/// If a peer has more pending octets than this, a notice ends its session instead.
pub const NOTICE_LIMIT: usize = 131_072;

/// The most octets that one read takes of a peer.
pub const HEARD_OCTETS: usize = 4_096;

/// The most rows that come of one read: a message takes at least eight octets, and at most 1,031
/// octets wait for the rest of their message.
pub const PIECE_ROWS: usize = 640;

/// The most octets of a notice: those of the longest message.
pub const NOTICE_OCTETS: usize = HEADER + LONGEST_BODY;

/// The marks of two subnets are so far apart: those of tills are 121 to 152, those of dispensers
/// 181 to 244.
pub(crate) const SUBNET_MARKS: u16 = 60;
