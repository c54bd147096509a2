//! One call of a connection: it hears octets that a peer sent, or sends octets that were made for
//! it.

ghost use Rattle.std.specs.Prelude.{◌<◌, IfOk, length};
ghost use Rattle.feed_connections.specs.FeedCalls.{HearsFeed, SendsFeed};

use connection_calls::Call;
use row_feed::Feed;
use site_base::NoMemory;
use std::io::{Read, Write};

/// Reads once, and has the peer's feed hear what came, while this is the number of the next row.
pub(crate) fn hear_once<R: Read>(
    reader: &mut R,
    feed: &mut Feed,
    next: u64,
    piece: &mut [u8],
) -> Result<Call, NoMemory>
    requires { 0 < length piece.old }
    ensures { IfOk result (λ call. HearsFeed call next (R.remaining reader.old)
        (R.remaining reader.new) feed.old feed.new) }
{
    match reader.read(piece) {
        Ok(0) => Ok(Call::Ended),
        Ok(n) => {
            feed.hear(&piece[..n], next)?;
            Ok(Call::Passed(n))
        }
        Err(error) => Ok(Call::of_error(&error)),
    }
}

/// Writes once what is pending. What was taken is pending no more.
pub(crate) fn send_once<W: Write>(writer: &mut W, feed: &mut Feed) -> Call
    ensures { SendsFeed result (W.contents writer.old) (W.contents writer.new) feed.old feed.new }
{
    match writer.write(feed.pending()) {
        Ok(0) => Call::Failed,
        Ok(n) => {
            feed.take(n);
            Call::Passed(n)
        }
        Err(error) => Call::of_error(&error),
    }
}
