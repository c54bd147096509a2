//! The program as `clap` knows it, with its commands.

ghost use Rattle.std.specs.Prelude.{◌≡◌, IfOk};
ghost use Rattle.clap.specs.Words.{app_of};
ghost use Rattle.command_line.specs.Program.{bare_program, program};

use crate::{day_commands, history_commands, replay_commands, word_commands};
use clap::Command;
use std::alloc::{AllocError, Global};

/// Returns the program with all its commands.
pub fn build_program<'a>(alloc: Global) -> Result<Command<'a>, AllocError>
    ensures { IfOk result (λ p. app_of p ≡ program) }
{
    let bare = build_bare(alloc);
    let replays = replay_commands::add_commands(alloc, bare)?;
    let days = day_commands::add_commands(alloc, replays)?;
    let histories = history_commands::add_commands(alloc, days)?;
    word_commands::add_commands(alloc, histories)
}

/// The program before it has a command.
fn build_bare<'a>(alloc: Global) -> Command<'a>
    ensures { app_of result ≡ bare_program }
{
    Command::new(alloc, "forecourt")
        .version("0.1.0")
        .subcommand_required(true)
        .about(
            "Runs a filling station's forecourt, and reads what it kept. Without a command it \
             replays the messages on standard input with a site of its own",
        )
}
