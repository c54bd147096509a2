//! Octets that were read from a connection, some of which aren't heard yet.

ghost use Rattle.std.specs.Prelude.{◌≡◌, ◌≤◌, length};
ghost use Rattle.connection_calls.specs.declared.sizes.TheConstants.{PIECE_OCTETS};

use connection_calls::PIECE_OCTETS;
use site_base::NoMemory;
use std::alloc::Global;

/// A piece of what a peer sent. Its reading is in `piece_reading.rt`.
#[derive(Drop)]
pub(crate) struct Piece {
    pub(crate) octets: Vec<u8>,
    /// What stands from here on isn't heard.
    pub(crate) from: usize,
    /// What was read ends here.
    pub(crate) to: usize,
    ghost size: { length octets.items ≡ PIECE_OCTETS },
    ghost order: { from ≤ to },
    ghost within: { to ≤ length octets.items },
}

impl Piece {
    /// Nothing was read yet.
    pub(crate) fn new(alloc: Global) -> Result<Piece, NoMemory> {
        Ok(Piece {
            octets: Vec::from_elem(alloc, 0, PIECE_OCTETS)?,
            from: 0,
            to: 0,
        })
    }
}
