//! The steps in which `clap`'s commands are built.

ghost use Rattle.std.specs.Prelude.{◌≡◌, IfOk, false};
ghost use Rattle.clap.specs.Simple.{new_shape};
ghost use Rattle.clap.specs.Words.{app_of, rule_of, shape_of, with_subcommand};
ghost use Rattle.command_line.specs.Program.{HasShape, with_argument};

use clap::{Arg, Command};
use std::alloc::{AllocError, Global};

/// Returns the command of this name, without arguments, with this text at the top of its help and
/// this example at the end.
pub fn start<'a>(alloc: Global, name: &'a str, about: &'a str, example: &'a str) -> Command<'a>
    ensures { HasShape (new_shape name.entry.now) result }
{
    Command::new(alloc, name).about(about).after_help(example)
}

/// Adds an argument to the command.
pub fn add_argument<'a>(command: Command<'a>, arg: Arg<'a>) -> Result<Command<'a>, AllocError>
    requires local { arg.global ≡ false }
    ensures { (s : _) (r : _) → HasShape s command.entry → rule_of arg.entry ≡ r
        → IfOk result (HasShape (with_argument s r)) }
{
    command.arg(arg)
}

/// Adds a command to the program.
pub fn add_command<'a>(
    program: Command<'a>,
    command: Command<'a>,
) -> Result<Command<'a>, AllocError>
    ensures { (a : _) (s : _) → app_of program.entry ≡ a → HasShape s command.entry
        → IfOk result (λ p. app_of p ≡ with_subcommand a s) }
{
    program.subcommand(command)
}
