//! The commands that open a site for a day.

ghost use Rattle.std.specs.Prelude.{◌≡◌, ◌∷◌, [], IfOk, codes};
ghost use Rattle.clap.specs.Words.{app_of, new_rule};
ghost use Rattle.command_line.specs.Program.{HasShape, command, day_shapes, flag_rule};
ghost use Rattle.command_line.specs.Program.{option_rule, required_rule, script_rule};
ghost use Rattle.command_line.specs.Program.{site_file_rule, with_arguments, with_commands};

use crate::arguments::{flag, option, optional_site_file, required, script, site_file};
use crate::building::{add_argument, add_command, start};
use clap::Command;
use std::alloc::{AllocError, Global};

/// The port of a server.
const SERVER_PORT: &str = "The port on 127.0.0.1, 1 to 65535; 0 is a free one";

/// The port of a station.
const STATION_PORT: &str =
    "The port for tills and dispensers on 127.0.0.1, 1 to 65535; 0 is a free one; this or \
     --doors is needed";

/// Adds these commands to the program.
pub fn add_commands<'a>(alloc: Global, program: Command<'a>) -> Result<Command<'a>, AllocError>
    ensures { IfOk result (λ p. app_of p ≡ with_commands (app_of program.entry) day_shapes) }
{
    let program = add_command(program, serve(alloc)?)?;
    let program = add_command(program, station(alloc)?)?;
    add_command(program, demo(alloc)?)
}

fn serve<'a>(alloc: Global) -> Result<Command<'a>, AllocError>
    ensures { IfOk result (HasShape (command (codes "serve")
        (site_file_rule ∷ required_rule (codes "port") ∷ required_rule (codes "workers")
        ∷ required_rule (codes "sessions") ∷ []))) }
{
    let about =
        "Serves tills and dispensers on 127.0.0.1, settles, and prints the report of the day";
    let example = "Example: forecourt serve examples/five_points.toml --port 4001 --workers 4 \
                   --sessions 100\n";
    let workers = "How many sessions are served at the same time, 1 to 16";
    let sessions = "How many sessions are served in all, 1 to 10000";
    let command = start(alloc, "serve", about, example);
    let command = add_argument(command, site_file(alloc))?;
    let command = add_argument(command, required(alloc, "port", "N", SERVER_PORT))?;
    let command = add_argument(command, required(alloc, "workers", "N", workers))?;
    add_argument(command, required(alloc, "sessions", "N", sessions))
}

fn station<'a>(alloc: Global) -> Result<Command<'a>, AllocError>
    ensures { IfOk result (HasShape (command (codes "station")
        (new_rule (codes "FILE") ∷ option_rule (codes "port") ∷ option_rule (codes "doors")
        ∷ option_rule (codes "history") ∷ option_rule (codes "page") ∷ option_rule (codes "name")
        ∷ option_rule (codes "feed") ∷ option_rule (codes "idle") ∷ option_rule (codes "rate")
        ∷ option_rule (codes "house") ∷ option_rule (codes "release-age")
        ∷ option_rule (codes "lost") ∷ flag_rule (codes "detached") ∷ flag_rule (codes "json")
        ∷ []))) }
{
    let about = "Serves every till and dispenser of a site on 127.0.0.1 until standard input ends, \
                 and prints the report of the day, or of the whole history";
    let example = "Example: forecourt station examples/five_points.toml --port 4001 \
                   --history history\n";
    let command = start(alloc, "station", about, example);
    let doors = "A folder with one for each till and dispenser (till-01, dispenser-01), in which \
                 the station makes its socket";
    let command = add_argument(command, optional_site_file(alloc))?;
    let command = add_argument(command, option(alloc, "port", "N", STATION_PORT))?;
    let command = add_argument(command, option(alloc, "doors", "FOLDER", doors))?;
    add_station_options(alloc, command)
}

/// The station's command with what it may be given.
fn add_station_options<'a>(alloc: Global, command: Command<'a>) -> Result<Command<'a>, AllocError>
    ensures { (s : _) → HasShape s command.entry → IfOk result (HasShape (with_arguments s
        (option_rule (codes "history") ∷ option_rule (codes "page") ∷ option_rule (codes "name")
        ∷ option_rule (codes "feed") ∷ option_rule (codes "idle") ∷ option_rule (codes "rate")
        ∷ option_rule (codes "house") ∷ option_rule (codes "release-age")
        ∷ option_rule (codes "lost") ∷ flag_rule (codes "detached") ∷ flag_rule (codes "json")
        ∷ []))) }
{
    let history =
        "Store each row in this folder before its reply is sent, and continue it at the next \
         start (default: nothing is kept)";
    let page = "Port on 127.0.0.1 of the page that shows the site; 0 is a free one (default: no \
                page)";
    let name = "The site's name on the page (default: Forecourt)";
    let feed = "Port on 127.0.0.1 of the feed, which sends each stored row as JSON; 0 is a free \
                one (default: no port; a folder feed among the doors makes a feed, too)";
    let idle = "End a session after this many seconds without input, 1 to 86400 (default: never)";
    let rate = "Requests a second for each session, up to 1000000; 0 is no limit (default: 1000)";
    let detached =
        "Run until the system stops it, also if standard input ends; no report is printed";
    let json = "Print the report as one JSON object";
    let command = add_argument(command, option(alloc, "history", "FOLDER", history))?;
    let command = add_argument(command, option(alloc, "page", "N", page))?;
    let command = add_argument(command, option(alloc, "name", "TEXT", name))?;
    let command = add_argument(command, option(alloc, "feed", "N", feed))?;
    let command = add_argument(command, option(alloc, "idle", "SECONDS", idle))?;
    let command = add_argument(command, option(alloc, "rate", "N", rate))?;
    let command = add_house_options(alloc, command)?;
    let command = add_argument(command, flag(alloc, "detached", detached))?;
    add_argument(command, flag(alloc, "json", json))
}

/// .. of what it does by itself.
fn add_house_options<'a>(alloc: Global, command: Command<'a>) -> Result<Command<'a>, AllocError>
    ensures { (s : _) → HasShape s command.entry → IfOk result (HasShape (with_arguments s
        (option_rule (codes "house") ∷ option_rule (codes "release-age")
        ∷ option_rule (codes "lost") ∷ []))) }
{
    let house =
        "A manager's till, 1 to 32, as which the station ends unused releases (default: none)";
    let age = "Seconds after which --house ends an unused release, 10 to 3600 (default: 120)";
    let lost =
        "Make a point inoperative if its dispenser is gone for this many seconds, 0 to 86400; 0 is \
         never (default: 60)";
    let command = add_argument(command, option(alloc, "house", "T", house))?;
    let command = add_argument(command, option(alloc, "release-age", "SECONDS", age))?;
    add_argument(command, option(alloc, "lost", "SECONDS", lost))
}

fn demo<'a>(alloc: Global) -> Result<Command<'a>, AllocError>
    ensures { IfOk result (HasShape (command (codes "demo")
        (site_file_rule ∷ script_rule ∷ flag_rule (codes "loopback") ∷ []))) }
{
    let about = "Runs the tills and dispensers of a script, and prints the report of the day";
    let example = "Example: forecourt demo examples/five_points.toml examples/saturday.demo\n";
    let loopback = "Run the tills' sessions over sockets on 127.0.0.1";
    let command = start(alloc, "demo", about, example);
    let command = add_argument(command, site_file(alloc))?;
    let command = add_argument(command, script(alloc))?;
    add_argument(command, flag(alloc, "loopback", loopback))
}
