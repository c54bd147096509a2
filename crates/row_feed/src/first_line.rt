//! The first line of a peer.

ghost use Rattle.row_feed.specs.FirstLines.{AsksFrom};

use forecourt_engines::number::{is_word, number_behind};

/// The row from which on a peer asks to be fed, where this row is next. None where the line says
/// none.
pub(crate) fn row_asked(line: &[u8], next: u64) -> Option<u64>
    ensures { AsksFrom next line.now result }
{
    if is_word(line, b"from end") {
        return Some(next);
    }
    number_behind(b"from ", line, 0, u64::MAX)
}
