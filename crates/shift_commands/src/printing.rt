//! Texts on standard output.

use devices::{Counted, write_whole};
use program_io::{TURNS, exit_unwritten};
use std::io;
use std::process::ExitCode;

/// Prints a text, and returns status 0. If standard output takes no more, prints that and returns
/// its status.
pub fn exit_printed(rt: &(impl Print + Eprint), text: &str) -> ExitCode {
    let (mut writer, mut turns) = (Counted::new(io::writer(rt)), TURNS);
    match write_whole(&mut writer, text.as_bytes(), &mut turns) {
        Ok(()) => ExitCode::SUCCESS,
        Err(_) => exit_unwritten(rt),
    }
}
