//! A till's client over a socket.

use app_message::{Decoder, Messages, encode};
use devices::{Counted, PIECE_OCTETS, read_piece, write_whole};
use site_base::NoMemory;
use std::alloc::Global;
use std::net::TcpStream;

/// Sends each message, and reads its reply before it sends the next one. It ends early if the
/// connection does.
pub fn send_all(alloc: Global, stream: TcpStream, messages: &Messages, turns: u64) {
    let mut stream = Counted::new(stream);
    let mut turns = turns;
    for message in messages.as_slice() {
        let told = match encode(alloc, message) {
            Ok(octets) => is_answered(alloc, &mut stream, &octets, &mut turns),
            Err(NoMemory) => false,
        };
        if !told {
            return;
        }
    }
}

/// Sends a message, and reads up to the end of its reply. Did one come?
fn is_answered(
    alloc: Global,
    stream: &mut Counted<TcpStream>,
    octets: &[u8],
    turns: &mut u64,
) -> bool {
    if write_whole(stream, octets, turns).is_err() {
        return false;
    }
    let mut decoder = Decoder::new(alloc);
    let mut piece = [0u8; PIECE_OCTETS];
    for _ in 0..*turns {
        let Ok(read) = read_piece(stream, &mut piece, turns) else {
            return false;
        };
        if read == 0 {
            return false;
        }
        match decoder.feed(&piece[..read]) {
            Ok(fed) => {
                if !fed.messages.is_empty() {
                    return true;
                }
                if fed.fault.is_some() {
                    return false;
                }
            }
            Err(_) => return false,
        }
    }
    false
}
