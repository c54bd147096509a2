//! The commands that read the folder of a history.

ghost use Rattle.std.specs.Prelude.{◌≡◌, ◌∷◌, [], IfOk, codes};
ghost use Rattle.clap.specs.Words.{app_of};
ghost use Rattle.command_line.specs.Program.{HasShape, command, flag_rule, folder_rule};
ghost use Rattle.command_line.specs.Program.{history_shapes, option_rule, sale_rule};
ghost use Rattle.command_line.specs.Program.{with_commands};

use crate::arguments::{flag, history_folder, option, sale};
use crate::building::{add_argument, add_command, start};
use clap::Command;
use std::alloc::{AllocError, Global};

/// Adds these commands to the program.
pub fn add_commands<'a>(alloc: Global, program: Command<'a>) -> Result<Command<'a>, AllocError>
    ensures { IfOk result (λ p. app_of p ≡ with_commands (app_of program.entry) history_shapes) }
{
    let program = add_command(program, shifts(alloc)?)?;
    let program = add_command(program, next(alloc)?)?;
    let program = add_command(program, verify(alloc)?)?;
    add_command(program, story(alloc)?)
}

fn shifts<'a>(alloc: Global) -> Result<Command<'a>, AllocError>
    ensures { IfOk result (HasShape (command (codes "shifts")
        (folder_rule ∷ flag_rule (codes "json") ∷ []))) }
{
    let about = "Prints what each shift of a history cleared, one line for each";
    let example = "Example: forecourt shifts history\n";
    let json = "Print one JSON object on each line, also with what each till cleared";
    let command = start(alloc, "shifts", about, example);
    let command = add_argument(command, history_folder(alloc))?;
    add_argument(command, flag(alloc, "json", json))
}

fn next<'a>(alloc: Global) -> Result<Command<'a>, AllocError>
    ensures { IfOk result (HasShape (command (codes "next") (folder_rule ∷ []))) }
{
    let about = "Prints the site file with which a new history continues this one, or what has to \
                 be settled first";
    let example = "Example: forecourt next history > site.toml\n";
    let command = start(alloc, "next", about, example);
    add_argument(command, history_folder(alloc))
}

fn verify<'a>(alloc: Global) -> Result<Command<'a>, AllocError>
    ensures { IfOk result (HasShape (command (codes "verify")
        (folder_rule ∷ option_rule (codes "seal") ∷ []))) }
{
    let about = "Reads a whole history, and prints its last seal, or the first fault in it";
    let example = "Example: forecourt verify history\n";
    let seal = "A seal that was noted earlier: also print where it is in the history";
    let command = start(alloc, "verify", about, example);
    let command = add_argument(command, history_folder(alloc))?;
    add_argument(command, option(alloc, "seal", "HEX", seal))
}

fn story<'a>(alloc: Global) -> Result<Command<'a>, AllocError>
    ensures { IfOk result (HasShape (command (codes "story")
        (folder_rule ∷ sale_rule ∷ []))) }
{
    let about = "Prints the rows of one sale of a history in words, from its release to its clear";
    let example = "Example: forecourt story history 3/2/17\n";
    let command = start(alloc, "story", about, example);
    let command = add_argument(command, history_folder(alloc))?;
    add_argument(command, sale(alloc))
}
