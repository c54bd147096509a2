//! Text on standard output, printed in pieces.

ghost use Rattle.std.specs.Prelude.{◌≡◌, ◌≤◌, ◌<◌, [], IfErr, length};
ghost use Rattle.std.specs.Process.{exit_status};
ghost use Rattle.program_io.specs.declared.exit.TheConstants.{FAULT};

use devices::{Counted, PIECE_OCTETS, write_whole};
use program_io::{TURNS, exit_no_memory, exit_unwritten};
use site_base::NoMemory;
use std::io;
use std::process::ExitCode;

/// Prints a text, and empties it, so that nothing is written twice. If standard output takes no
/// more, prints that and returns the exit status. The text is empty then too.
pub fn print_text(rt: &(impl Print + Eprint), text: &mut Vec<u8>) -> Result<(), ExitCode>
    ensures empty { text.new.items ≡ [] }
    ensures failed { IfErr result (λ status. exit_status status ≡ FAULT) }
{
    let (mut writer, mut turns) = (Counted::new(io::writer(rt)), TURNS);
    let written = write_whole(&mut writer, text, &mut turns);
    text.clear();
    match written {
        Ok(()) => Ok(()),
        Err(_) => Err(exit_unwritten(rt)),
    }
}

/// Prints and empties a text if it has grown to a piece. A shorter one stays.
pub fn print_piece(rt: &(impl Print + Eprint), text: &mut Vec<u8>) -> Result<(), ExitCode>
    ensures kept { length text.old.items < PIECE_OCTETS → text.new.items ≡ text.old.items }
    ensures empty { PIECE_OCTETS ≤ length text.old.items → text.new.items ≡ [] }
    ensures failed { IfErr result (λ status. exit_status status ≡ FAULT) }
{
    if text.len() < PIECE_OCTETS {
        return Ok(());
    }
    print_text(rt, text)
}

/// Prints a table. If there was no memory for it, prints that and returns the exit status.
pub fn print_table(
    rt: &(impl Print + Eprint),
    table: Result<Vec<u8>, NoMemory>,
) -> Result<(), ExitCode> {
    match table {
        Ok(mut text) => print_text(rt, &mut text),
        Err(NoMemory) => Err(exit_no_memory(rt)),
    }
}
