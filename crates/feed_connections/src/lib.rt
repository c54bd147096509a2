//! The connections of a feed's peers. A `FeedLink` is the connection of one peer, over any kind of
//! stream. In turns it hears what the peer sends, and sends what is made for the peer. A turn makes
//! only a few calls. `Feeds` has the listeners, and up to 64 links over sockets.
#![tactic(auto)]

mod calls;
mod feed_link;
mod feed_place;
mod feed_stream;
mod feeds;
mod progress;
mod sizes;

pub use feed_link::FeedLink;
pub use feed_stream::FeedStream;
pub use feeds::Feeds;
pub use progress::Progress;
pub use sizes::{ALIVE_SECONDS, ASKING_SECONDS, TAKING_SECONDS};
