//! The commands that read a site file, and what is recorded.

ghost use Rattle.std.specs.Prelude.{◌≡◌, ◌∷◌, [], IfOk, codes};
ghost use Rattle.clap.specs.Words.{app_of};
ghost use Rattle.command_line.specs.Program.{HasShape, command, flag_rule, option_rule};
ghost use Rattle.command_line.specs.Program.{replay_shapes, site_file_rule, with_commands};

use crate::arguments::{flag, from, option, shift, site_file, site_or_history, to};
use crate::building::{add_argument, add_command, start};
use clap::Command;
use std::alloc::{AllocError, Global};

/// Adds these commands to the program.
pub fn add_commands<'a>(alloc: Global, program: Command<'a>) -> Result<Command<'a>, AllocError>
    ensures { IfOk result (λ p. app_of p ≡ with_commands (app_of program.entry) replay_shapes) }
{
    let program = add_command(program, check(alloc)?)?;
    let program = add_command(program, replay(alloc)?)?;
    let program = add_command(program, report(alloc)?)?;
    let program = add_command(program, sales(alloc)?)?;
    add_command(program, meters(alloc)?)
}

fn check<'a>(alloc: Global) -> Result<Command<'a>, AllocError>
    ensures { IfOk result (HasShape (command (codes "check") (site_file_rule ∷ []))) }
{
    let about = "Reads a site file, and prints its faults, or how large the site is";
    let example = "Example: forecourt check examples/five_points.toml\n";
    let command = start(alloc, "check", about, example);
    add_argument(command, site_file(alloc))
}

fn replay<'a>(alloc: Global) -> Result<Command<'a>, AllocError>
    ensures { IfOk result (HasShape (command (codes "replay")
        (site_file_rule ∷ flag_rule (codes "changes") ∷ option_rule (codes "shift")
        ∷ flag_rule (codes "json") ∷ option_rule (codes "from") ∷ []))) }
{
    let about = "Prints the replies of a history, or those to messages on standard input, with \
                 the site of a file";
    let example = "Example: forecourt replay examples/five_points.toml < examples/day.hex\n";
    let changes = "Also print the notices that are sent to dispensers";
    let json = "Print each row of a history as one JSON object on a line";
    let from = "The first row of the history that is printed (default: 0, the first row of all)";
    let command = start(alloc, "replay", about, example);
    let command = add_argument(command, site_or_history(alloc))?;
    let command = add_argument(command, flag(alloc, "changes", changes))?;
    let command = add_argument(command, shift(alloc))?;
    let command = add_argument(command, flag(alloc, "json", json))?;
    add_argument(command, option(alloc, "from", "N", from))
}

fn report<'a>(alloc: Global) -> Result<Command<'a>, AllocError>
    ensures { IfOk result (HasShape (command (codes "report")
        (site_file_rule ∷ flag_rule (codes "human") ∷ flag_rule (codes "json")
        ∷ option_rule (codes "shift") ∷ []))) }
{
    let about = "Prints the report of a history, or of recorded messages on standard input, with \
                 the site of a file";
    let example = "Examples: forecourt report examples/five_points.toml < examples/day.hex; \
                   forecourt report history --shift 3 --human\n";
    let human = "Print litres and money in columns, for people";
    let command = start(alloc, "report", about, example);
    let command = add_argument(command, site_or_history(alloc))?;
    let command = add_argument(command, flag(alloc, "human", human))?;
    let command = add_argument(command, flag(alloc, "json", "Print one JSON object"))?;
    add_argument(command, shift(alloc))
}

fn sales<'a>(alloc: Global) -> Result<Command<'a>, AllocError>
    ensures { IfOk result (HasShape (command (codes "sales")
        (site_file_rule ∷ flag_rule (codes "draws") ∷ flag_rule (codes "json")
        ∷ option_rule (codes "shift") ∷ option_rule (codes "from") ∷ option_rule (codes "to")
        ∷ []))) }
{
    let about = "Prints as CSV the sales of a history, or of recorded messages on standard input, \
                 with the site of a file";
    let example = "Examples: forecourt sales examples/five_points.toml < examples/paying_day.hex; \
                   forecourt sales history --shift 3..5\n";
    let draws = "Print the fuel drawn for tests instead of the sales";
    let json = "Print one JSON object on each line";
    let command = start(alloc, "sales", about, example);
    let command = add_argument(command, site_or_history(alloc))?;
    let command = add_argument(command, flag(alloc, "draws", draws))?;
    let command = add_argument(command, flag(alloc, "json", json))?;
    let command = add_argument(command, shift(alloc))?;
    let command = add_argument(command, from(alloc))?;
    add_argument(command, to(alloc))
}

fn meters<'a>(alloc: Global) -> Result<Command<'a>, AllocError>
    ensures { IfOk result (HasShape (command (codes "meters")
        (site_file_rule ∷ flag_rule (codes "gaps") ∷ flag_rule (codes "csv")
        ∷ flag_rule (codes "json") ∷ option_rule (codes "shift") ∷ []))) }
{
    let about = "Prints what each nozzle metered in a history, or in recorded messages on \
                 standard input, with the site of a file";
    let example = "Examples: forecourt meters examples/five_points.toml < examples/day.hex; \
                   forecourt meters history --shift 3 --gaps\n";
    let gaps = "Print the replaced meters and the refused readings instead of the nozzles";
    let command = start(alloc, "meters", about, example);
    let command = add_argument(command, site_or_history(alloc))?;
    let command = add_argument(command, flag(alloc, "gaps", gaps))?;
    let command = add_argument(command, flag(alloc, "csv", "Print comma-separated values"))?;
    let command = add_argument(
        command,
        flag(alloc, "json", "Print one JSON object on each line"),
    )?;
    add_argument(command, shift(alloc))
}
