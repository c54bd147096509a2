//! The engines of the forecourt program: what it does with octets, rows and texts, apart from its
//! command line.
//!
//! `replay` answers lines of messages over the opening site of a configuration. `specs/Text.antt`
//! defines octet by octet the text that it writes for what it read. The laws join that text to
//! lines and to one stream of messages. `replay_to_report` writes the report of the rows that
//! `replay` would make, which `day_report` makes from their figures. `Trace` reads such lines, and
//! `explain` puts each message into words. `words` reads such words back, and writes them as
//! messages.
#![tactic(auto)]

mod answers;
mod engine;
pub mod explain;
mod fault;
mod laws;
pub mod number;
pub mod replay;
pub mod reporting;
mod sink;
mod sites;
mod sizes;
mod stream;
mod trace;
pub mod words;

pub use fault::{ReplayFault, TextFault};
pub use laws::{
    a_last_line_says, a_line_asks_for_one_thing, a_line_is_spelled_in_one_way, a_line_says,
    a_long_line_says, nothing_follows, one_stream_of_lines,
};
pub use site_book::SiteBook;
pub use sites::{known_site, known_site_of};
pub use sizes::Sizes;
pub use trace::{Explained, Trace};
