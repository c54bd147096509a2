//! Lines in words, which say who asks the site for what.

mod asked;
mod behind_name;
mod event;
mod event_name;
mod nearest;
mod parts;
mod places;
mod spell;
mod splitting;
mod word_fault;
mod wrong_word;

pub use app_message::Token;
pub use asked::{Asked, read_asked, read_request};
pub use spell::spell_line;
pub use splitting::split_words;
pub use word_fault::WordFault;
pub use wrong_word::{LineFault, Wanted, WrongWord};
