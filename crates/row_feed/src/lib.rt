//! A feed of a history's rows, without its socket. A peer sends one line, `from N` or `from end`,
//! and is sent the line of each stored row from that one on. The feed is a cursor and not an
//! outbox: lines are made when the peer can take some, at most 64 KiB at once.
#![tactic(auto)]

mod chapter_starts;
mod fault;
mod feed;
mod first_line;
mod laws;
mod sizes;
mod stage;

pub use chapter_starts::ChapterStarts;
pub use fault::FeedFault;
pub use feed::Feed;
pub use laws::{a_cut_feed_goes_on, a_peer_is_fed_the_rows_that_it_asked_for};
pub use sizes::{FEED_OCTETS, LINE_OCTETS};
pub use stage::Stage;
