//! The page for the person at the counter, over HTTP/1.1: the state of the forecourt, read anew
//! each second. The page changes nothing: it is lent the book, and answers with what it reads.
//!
//! A `PageConnection` is the connection of one peer, as steps over octets: it hears octets, has
//! pending octets, and is over. Its caller moves them.
#![tactic(auto)]

mod connection;
mod html;
mod page;
mod policy;
mod query;
mod texts;

pub use connection::PageConnection;
pub use html::PAGE;
pub use page::Page;
pub use policy::POLICY;
