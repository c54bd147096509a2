//! Text on standard output, printed by one call.

use devices::{Counted, write_whole};
use forecourt_engines::ReplayFault;
use program_io::TURNS;
use std::io;

/// Prints a text. Returns the fault if its write fails.
pub fn print_text(rt: &impl Print, text: &[u8]) -> Option<ReplayFault> {
    let (mut writer, mut turns) = (Counted::new(io::writer(rt)), TURNS);
    match write_whole(&mut writer, text, &mut turns) {
        Ok(()) => None,
        Err(fault) => Some(ReplayFault::Write(fault)),
    }
}
