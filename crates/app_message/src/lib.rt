//! Application messages: from octets to messages, and from messages to octets.
//!
//! A `Message` is valid by its type: it is exactly what can be spelled. `encode` writes its one
//! spelling. A `Decoder` takes a stream in any pieces, and returns the messages in it, up to the
//! first fault. What it returns doesn't depend on how the stream was cut.
//!
//! Worked messages, faults and parts, by their octets, are theorems of the definitions that the
//! contracts cite: `proofs/WorkedMessages.antt`.
#![tactic(auto)]

mod decoder;
mod draft;
mod fault;
mod item;
mod items;
mod kind;
mod laws;
mod message;
mod messages;
mod parts;
mod reading;
mod sizes;
mod spelled_message;
mod token;
mod writing;

pub use decoder::{Decoder, Fed};
pub use draft::Draft;
pub use fault::{GrammarFault, MessageFault, StreamFault};
pub use item::Item;
pub use items::Items;
pub use kind::Kind;
pub use laws::{any_cutting, no_prefix, octets_are_spelled, one_stream, read_again};
pub use message::Message;
pub use messages::Messages;
pub use sizes::{HEADER, LONGEST_ADDRESS, LONGEST_BODY, LONGEST_CONTENT, SHORTEST_BODY};
pub use spelled_message::SpelledMessage;
pub use token::Token;
pub use writing::{encode, encode_into};
