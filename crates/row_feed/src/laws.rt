//! The laws of feeds. They have no code: each is proved for the definitions that the contracts of
//! `Feed` and `LastRows` cite.

ghost use Rattle.row_feed.specs.FeedLaws.{GoesOnOverACut, IsFedWhatItAskedFor};

/// A peer is fed the rows that it asked for. Over any calls, what was made for it are the lines of
/// rows N, N+1, .. of the stored ones, in order, from the row N on that it asked for. Among them
/// are lines that say which row is next, and after them at most the line of a fault.
pub fn a_peer_is_fed_the_rows_that_it_asked_for()
    ensures { IsFedWhatItAskedFor }
{}

/// If a peer is cut off, and asks for the row after the last whole line that it has, its feed
/// continues: both parts together are what it would have been fed without a cut.
pub fn a_cut_feed_goes_on()
    ensures { GoesOnOverACut }
{}
