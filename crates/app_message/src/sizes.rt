//! The sizes of a message and of its parts, in octets.

/// The octets of a header: recipient, originator, code, status, and the length of the body.
pub const HEADER: usize = 8;

/// The octets of the shortest body: the length of an address, and its one octet.
pub const SHORTEST_BODY: usize = 2;

/// The octets of the longest body.
pub const LONGEST_BODY: usize = 1024;

/// The octets of the longest database address.
pub const LONGEST_ADDRESS: usize = 8;

/// The octets of an item's longest content.
pub const LONGEST_CONTENT: usize = 254;
