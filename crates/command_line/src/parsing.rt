//! From words to a command.

ghost use Rattle.std.specs.Prelude.{◌≡◌, ◌≤◌, IfOk, Ok, length, map, string_bytes};
ghost use Rattle.clap.specs.Words.{fault_of, subcommand_of};
ghost use Rattle.command_line.specs.Commands.{IsSaidBy};
ghost use Rattle.command_line.specs.Endings.{EndsBy};
ghost use Rattle.command_line.specs.Program.{program};

use crate::command::Command;
use crate::no_command::{NoCommand, explain_error};
use crate::program::build_program;
use crate::reading::read_command;
use std::alloc::Global;

/// Returns the command that the words name, or what is printed instead. The first word is the
/// program's own name.
pub fn parse<'a>(alloc: Global, words: &'a [String]) -> Result<Command<'a>, NoCommand>
    ensures alone { length words.entry.now ≤ 1 → result ≡ Ok Command.ReplayHere }
    ensures said { 2 ≤ length words.entry.now → IfOk result
        (IsSaidBy (subcommand_of program (map string_bytes words.entry.now))) }
    ensures ends { 2 ≤ length words.entry.now
        → EndsBy (fault_of program (map string_bytes words.entry.now)) result }
{
    if words.len() <= 1 {
        return Ok(Command::ReplayHere);
    }
    parse_some(alloc, words)
}

/// The same where there are words after the program's name.
fn parse_some<'a>(alloc: Global, words: &'a [String]) -> Result<Command<'a>, NoCommand>
    ensures said { IfOk result
        (IsSaidBy (subcommand_of program (map string_bytes words.entry.now))) }
    ensures ends { EndsBy (fault_of program (map string_bytes words.entry.now)) result }
{
    let commands = match build_program(alloc) {
        Ok(commands) => commands,
        Err(_) => return Err(NoCommand::NoMemory),
    };
    match commands.try_get_matches_from(words) {
        Ok(matches) => Ok(read_command(&matches)),
        Err(error) => Err(explain_error(alloc, &error)),
    }
}
