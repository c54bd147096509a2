//! Messages and events: which event a message asks for, and which message answers with a reply.
//!
//! `request_of` returns the actor and the event that a request means, or its first fault.
//! `encode_request` makes the one request that asks for an event. `reply_of`, `refusal_of` and
//! `stream_refusal` make the message that goes back, `change_of` the notice to a dispenser.
//!
//! The requests are in one table, `specs/Commands.antt`, each with the shape of what it carries:
//! `request.rt` has an arm for each request, `further_items.rt` a function for each shape. Worked
//! messages, by their octets, are theorems of the definitions that the contracts cite:
//! `proofs/WorkedRequests.antt`, `WorkedReplies.antt` and `WorkedChanges.antt`.
#![tactic(auto)]

mod address;
mod change;
mod decimal;
mod decoding;
mod encoding;
mod fault;
mod further_items;
mod ids;
mod item_writing;
mod laws;
mod node;
mod reply;
mod request;
mod way;

pub use change::{change_of, decode_change};
pub use decoding::{decode_number, decode_reply};
pub use encoding::encode_request;
pub use fault::MapFault;
pub use laws::{changes_are_told, changes_repeat_requests, one_request};
pub use node::{dispenser, till};
pub use reply::{refusal_in, refusal_of, reply_in, reply_of, stream_refusal};
pub use request::{request_in, request_of};
