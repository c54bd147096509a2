//! How many rows stay in memory.

ghost use Rattle.std.specs.Prelude.{◌≡◌};
ghost use Rattle.journal.specs.Memory.{most_in_memory};

use chapters::ROWS_IN_MEMORY;
use site_base::SiteConfig;
use station::PIECE_ROWS;

/// The fewest rows that a site file may allow a station's book. They leave room for the rows of one
/// read.
pub const LEAST_ROWS: usize = 1_024;

/// With so many rows in memory, or more, the next read of a peer may fill the book: they are
/// forgotten first.
pub(crate) fn most_in_memory(config: &SiteConfig) -> usize
    ensures { result ≡ most_in_memory config.now.rows }
{
    let room = (config.rows() as usize).saturating_sub(PIECE_ROWS) + 1;
    if room < ROWS_IN_MEMORY {
        room
    } else {
        ROWS_IN_MEMORY
    }
}
