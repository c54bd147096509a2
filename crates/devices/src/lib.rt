//! Readers and writers whose failed calls are counted, and the two ways in which they are called: a
//! bounded read of one piece, and a write of a whole text. What is read and written is known if the
//! type of the device shows its octets (memory), and unknown otherwise (files, sockets).
#![tactic(auto)]

mod counted;
mod transfer;

pub use counted::Counted;
pub use transfer::{PIECE_OCTETS, ReadFault, WriteFault, read_piece, write_whole};
