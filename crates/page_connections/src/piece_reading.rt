//! Reads a piece, and hears it.

ghost use Rattle.std.specs.Prelude.{◌≡◌, ◌≤◌, [], drop, length};
ghost use Rattle.page_connections.specs.Pieces.{ReadsPiece, unheard_of};

use crate::piece::Piece;
use connection_calls::Call;
use std::io::Read;

impl Piece {
    /// What isn't heard yet.
    pub(crate) fn unheard(&self) -> &[u8]
        ensures { result.now ≡ unheard_of self.now }
    {
        &self.octets[self.from..self.to]
    }

    /// So many octets more are heard, the first ones.
    pub(crate) fn pass(&mut self, n: usize)
        requires { n ≤ length (unheard_of self.old) }
        ensures { unheard_of self.new ≡ drop n (unheard_of self.old) }
    {
        self.from += n;
    }

    /// Reads once, where each octet is heard.
    pub(crate) fn read_from<R: Read>(&mut self, reader: &mut R) -> Call
        requires { unheard_of self.old ≡ [] }
        ensures { ReadsPiece result (R.remaining reader.old) (R.remaining reader.new)
            (unheard_of self.new) }
    {
        self.from = 0;
        self.to = 0;
        match reader.read(&mut self.octets) {
            Ok(0) => Call::Ended,
            Ok(n) => {
                self.to = n;
                Call::Passed(n)
            }
            Err(error) => Call::of_error(&error),
        }
    }
}
