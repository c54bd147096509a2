//! The arguments that several commands have, as `clap` knows them.

ghost use Rattle.std.specs.Prelude.{◌≡◌, codes, false};
ghost use Rattle.clap.specs.Words.{new_rule, rule_of};
ghost use Rattle.command_line.specs.Program.{flag_rule, folder_rule, option_rule, required_rule};
ghost use Rattle.command_line.specs.Program.{sale_rule, script_rule, site_file_rule};

use clap::{Arg, ArgAction};
use std::alloc::Global;

/// The site file that a command reads.
pub fn site_file<'a>(alloc: Global) -> Arg<'a>
    ensures rule { rule_of result ≡ site_file_rule }
    ensures local { result.global ≡ false }
{
    Arg::new(alloc, "FILE").help("The site file").required(true)
}

/// The site file that a command reads, or the folder of a history.
pub fn site_or_history<'a>(alloc: Global) -> Arg<'a>
    ensures rule { rule_of result ≡ site_file_rule }
    ensures local { result.global ≡ false }
{
    Arg::new(alloc, "FILE")
        .help("The site file, for the messages on standard input; or the folder of a history")
        .required(true)
}

/// The shifts of a history that a command reads.
pub fn shift<'a>(alloc: Global) -> Arg<'a>
    ensures rule { rule_of result ≡ option_rule (codes "shift") }
    ensures local { result.global ≡ false }
{
    option(
        alloc,
        "shift",
        "A[..B]",
        "The shifts of the history, as 3 or 3..5 (default: all)",
    )
}

/// The time from which on the sales that a command prints were cleared.
pub fn from<'a>(alloc: Global) -> Arg<'a>
    ensures rule { rule_of result ≡ option_rule (codes "from") }
    ensures local { result.global ≡ false }
{
    let help = "Only the history's sales that were cleared at this time or later, as 2026-11-27 or \
                2026-11-27T08:00+01:00 (UTC without an offset)";
    option(alloc, "from", "T", help)
}

/// The time up to which the sales that a command prints were cleared.
pub fn to<'a>(alloc: Global) -> Arg<'a>
    ensures rule { rule_of result ≡ option_rule (codes "to") }
    ensures local { result.global ≡ false }
{
    option(
        alloc,
        "to",
        "T",
        "Only the history's sales that were cleared up to this time; a date alone is its whole day",
    )
}

/// The site file that a command may be given.
pub fn optional_site_file<'a>(alloc: Global) -> Arg<'a>
    ensures rule { rule_of result ≡ new_rule (codes "FILE") }
    ensures local { result.global ≡ false }
{
    Arg::new(alloc, "FILE").help("The site file; a history that has begun has its own copy")
}

/// The folder of the history that a command reads.
pub fn history_folder<'a>(alloc: Global) -> Arg<'a>
    ensures rule { rule_of result ≡ folder_rule }
    ensures local { result.global ≡ false }
{
    Arg::new(alloc, "FOLDER")
        .help("The folder of a station's history")
        .required(true)
}

/// The sale whose story a command tells.
pub fn sale<'a>(alloc: Global) -> Arg<'a>
    ensures rule { rule_of result ≡ sale_rule }
    ensures local { result.global ≡ false }
{
    Arg::new(alloc, "SALE")
        .help("The sale: its POINT/SHIFT/NUMBER, as 3/2/17")
        .required(true)
}

/// The script that a demo runs.
pub fn script<'a>(alloc: Global) -> Arg<'a>
    ensures rule { rule_of result ≡ script_rule }
    ensures local { result.global ≡ false }
{
    Arg::new(alloc, "SCRIPT")
        .help("The script: a setup, and the sections of tills and dispensers")
        .required(true)
}

/// What is to be explained.
pub fn what<'a>(alloc: Global) -> Arg<'a>
    ensures rule { rule_of result ≡ new_rule (codes "WHAT") }
    ensures local { result.global ≡ false }
{
    Arg::new(alloc, "WHAT").help("A refusal's or fault's number, as 20, or the folder of a history")
}

/// A word that is there or not.
pub fn flag<'a>(alloc: Global, name: &'a str, help: &'a str) -> Arg<'a>
    ensures rule { rule_of result ≡ flag_rule name.entry.now }
    ensures local { result.global ≡ false }
{
    Arg::new(alloc, name)
        .long(name)
        .help(help)
        .action(ArgAction::SetTrue)
}

/// An option that a command requires. Help shows its value under this name.
pub fn required<'a>(alloc: Global, name: &'a str, value: &'a str, help: &'a str) -> Arg<'a>
    ensures rule { rule_of result ≡ required_rule name.entry.now }
    ensures local { result.global ≡ false }
{
    option(alloc, name, value, help).required(true)
}

/// An option that a command may be given.
pub fn option<'a>(alloc: Global, name: &'a str, value: &'a str, help: &'a str) -> Arg<'a>
    ensures rule { rule_of result ≡ option_rule name.entry.now }
    ensures local { result.global ≡ false }
{
    Arg::new(alloc, name)
        .long(name)
        .value_name(value)
        .help(help)
}
