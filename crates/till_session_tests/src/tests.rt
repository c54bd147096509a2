//! What no clause says, by octets.

mod calls;
mod decoding;
mod failing_devices;
mod notices;
mod noting;
mod order;
mod out_of_memory;
mod peers;
mod replies;
mod serving;
mod sessions;
mod spelling;
mod streams;
