//! The page's listener and its connections, which are served in turns.
//!
//! A turn answers a request only by the page that it is lent, which is that of the book
//! (`specs/Pages.antt`). The connections are lent the book, and can't change it.
#![tactic(auto)]

mod page_link;
mod pages;
mod piece;
mod piece_reading;
mod sizes;

pub use pages::Pages;
