//! The commands that read or write words.

ghost use Rattle.std.specs.Prelude.{◌≡◌, ◌∷◌, [], IfOk, codes};
ghost use Rattle.clap.specs.Words.{app_of, new_rule};
ghost use Rattle.command_line.specs.Program.{HasShape, command, flag_rule, option_rule};
ghost use Rattle.command_line.specs.Program.{with_commands, word_shapes};

use crate::arguments::{flag, option, shift, what};
use crate::building::{add_argument, add_command, start};
use clap::Command;
use std::alloc::{AllocError, Global};

/// Adds these commands to the program.
pub fn add_commands<'a>(alloc: Global, program: Command<'a>) -> Result<Command<'a>, AllocError>
    ensures { IfOk result (λ p. app_of p ≡ with_commands (app_of program.entry) word_shapes) }
{
    let program = add_command(program, explain(alloc)?)?;
    let program = add_command(program, spell(alloc))?;
    add_command(program, ask(alloc)?)
}

fn explain<'a>(alloc: Global) -> Result<Command<'a>, AllocError>
    ensures { IfOk result (HasShape (command (codes "explain")
        (new_rule (codes "WHAT") ∷ option_rule (codes "shift") ∷ flag_rule (codes "times")
        ∷ []))) }
{
    let about = "Prints the messages of standard input in words, or the rows of a history, or \
                 what a number means";
    let example = "Examples: forecourt explain < examples/day.hex; forecourt explain history; \
                   forecourt explain 20\n";
    let times = "Print the time of each row of the history before the row";
    let command = start(alloc, "explain", about, example);
    let command = add_argument(command, what(alloc))?;
    let command = add_argument(command, shift(alloc))?;
    add_argument(command, flag(alloc, "times", times))
}

fn spell<'a>(alloc: Global) -> Command<'a>
    ensures { HasShape (command (codes "spell") []) result }
{
    let about = "Turns requests in words on standard input into messages in hexadecimal";
    let example = "Example: forecourt spell < examples/paying_day.words\n";
    start(alloc, "spell", about, example)
}

fn ask<'a>(alloc: Global) -> Result<Command<'a>, AllocError>
    ensures { IfOk result (HasShape (command (codes "ask")
        (option_rule (codes "port") ∷ option_rule (codes "door") ∷ flag_rule (codes "strict")
        ∷ []))) }
{
    let about = "Sends the requests in words on standard input to a running station, and prints \
                 its replies";
    let example = "Example: echo 't1 SignOn' | forecourt ask --port 4001\n";
    let port = "The port of the station on 127.0.0.1, 1 to 65535; this or --door is needed";
    let door = "The door of the till or dispenser that asks: its socket, or its folder";
    let strict = "End at the first refusal, with status 1";
    let command = start(alloc, "ask", about, example);
    let command = add_argument(command, option(alloc, "port", "N", port))?;
    let command = add_argument(command, option(alloc, "door", "PATH", door))?;
    add_argument(command, flag(alloc, "strict", strict))
}
