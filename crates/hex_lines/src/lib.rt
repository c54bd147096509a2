//! Lines of hexadecimal, read and written: those of a replay, of a trace, of a journal and of a
//! demo's script. Plain digits, as most lines have, are read and written eight octets at a time.
//! The crate `hex` does the rest.
#![tactic(auto)]

mod line_reading;
mod line_writing;
mod plain_digits;

pub use line_reading::{LINE_OCTETS, LineText, decode, read_octets, skips, text_of};
pub use line_writing::put_line;
