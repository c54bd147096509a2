//! From `clap`'s matches to plain values.

ghost use Rattle.std.specs.Prelude.{◌≡◌, codes};
ghost use Rattle.clap.specs.Words.{found_of, rows_of, subcommand_rows_of};
ghost use Rattle.command_line.specs.Commands.{HasFlag, IsOption, IsSaid, IsSaidBy, text_in};

use crate::command::{
    AskOptions, Command, DemoOptions, ExplainOptions, MetersForm, MetersOptions, ReplayOptions,
    ReportForm, ReportOptions, SalesOptions, ServeOptions, ShiftsOptions, StationOptions,
    StoryOptions, VerifyOptions,
};
use clap::ArgMatches;

/// Returns the command of these matches, with what was written after its name.
pub fn read_command<'a>(matches: &ArgMatches<'a>) -> Command<'a>
    ensures { IsSaidBy (subcommand_rows_of matches.now) result }
{
    match matches.subcommand() {
        Some((name, words)) => read_named(name, words),
        None => Command::ReplayHere,
    }
}

/// The command of this name.
fn read_named<'a>(name: &str, words: &ArgMatches<'a>) -> Command<'a>
    ensures { IsSaid name.now (rows_of (found_of words.now)) result }
{
    match name {
        "check" => Command::Check(read_text(words, "FILE")),
        "replay" => Command::Replay(read_replay(words)),
        "report" => Command::Report(read_report(words)),
        "sales" => Command::Sales(read_sales(words)),
        "meters" => Command::Meters(read_meters(words)),
        "serve" => Command::Serve(read_serve(words)),
        "station" => Command::Station(read_station(words)),
        "demo" => Command::Demo(read_demo(words)),
        "shifts" => Command::Shifts(read_shifts(words)),
        "next" => Command::Next(read_text(words, "FOLDER")),
        "verify" => Command::Verify(read_verify(words)),
        "story" => Command::Story(read_story(words)),
        "explain" => Command::Explain(read_explain(words)),
        "spell" => Command::Spell,
        "ask" => Command::Ask(read_ask(words)),
        _ => Command::ReplayHere,
    }
}

fn read_replay<'a>(words: &ArgMatches<'a>) -> ReplayOptions<'a>
    ensures { IsSaid (codes "replay") (rows_of (found_of words.now)) (Command.Replay result) }
{
    ReplayOptions {
        site: read_text(words, "FILE"),
        changes: is_given(words, "changes"),
        shift: find_text(words, "shift"),
        json: is_given(words, "json"),
        from: find_text(words, "from"),
    }
}

fn read_report<'a>(words: &ArgMatches<'a>) -> ReportOptions<'a>
    ensures { IsSaid (codes "report") (rows_of (found_of words.now)) (Command.Report result) }
{
    let form = if is_given(words, "human") {
        ReportForm::People
    } else if is_given(words, "json") {
        ReportForm::Json
    } else {
        ReportForm::Lines
    };
    ReportOptions {
        site: read_text(words, "FILE"),
        form,
        shift: find_text(words, "shift"),
    }
}

fn read_sales<'a>(words: &ArgMatches<'a>) -> SalesOptions<'a>
    ensures { IsSaid (codes "sales") (rows_of (found_of words.now)) (Command.Sales result) }
{
    SalesOptions {
        site: read_text(words, "FILE"),
        draws: is_given(words, "draws"),
        json: is_given(words, "json"),
        shift: find_text(words, "shift"),
        from: find_text(words, "from"),
        to: find_text(words, "to"),
    }
}

fn read_meters<'a>(words: &ArgMatches<'a>) -> MetersOptions<'a>
    ensures { IsSaid (codes "meters") (rows_of (found_of words.now)) (Command.Meters result) }
{
    let form = if is_given(words, "csv") {
        MetersForm::Csv
    } else if is_given(words, "json") {
        MetersForm::Json
    } else {
        MetersForm::People
    };
    MetersOptions {
        site: read_text(words, "FILE"),
        gaps: is_given(words, "gaps"),
        form,
        shift: find_text(words, "shift"),
    }
}

fn read_serve<'a>(words: &ArgMatches<'a>) -> ServeOptions<'a>
    ensures { IsSaid (codes "serve") (rows_of (found_of words.now)) (Command.Serve result) }
{
    ServeOptions {
        site: read_text(words, "FILE"),
        port: read_text(words, "port"),
        workers: read_text(words, "workers"),
        sessions: read_text(words, "sessions"),
    }
}

fn read_station<'a>(words: &ArgMatches<'a>) -> StationOptions<'a>
    ensures { IsSaid (codes "station") (rows_of (found_of words.now)) (Command.Station result) }
{
    StationOptions {
        site: find_text(words, "FILE"),
        port: find_text(words, "port"),
        doors: find_text(words, "doors"),
        history: find_text(words, "history"),
        page: find_text(words, "page"),
        name: find_text(words, "name"),
        feed: find_text(words, "feed"),
        idle: find_text(words, "idle"),
        rate: find_text(words, "rate"),
        house: find_text(words, "house"),
        release_age: find_text(words, "release-age"),
        lost: find_text(words, "lost"),
        detached: is_given(words, "detached"),
        json: is_given(words, "json"),
    }
}

fn read_demo<'a>(words: &ArgMatches<'a>) -> DemoOptions<'a>
    ensures { IsSaid (codes "demo") (rows_of (found_of words.now)) (Command.Demo result) }
{
    DemoOptions {
        site: read_text(words, "FILE"),
        script: read_text(words, "SCRIPT"),
        loopback: is_given(words, "loopback"),
    }
}

fn read_shifts<'a>(words: &ArgMatches<'a>) -> ShiftsOptions<'a>
    ensures { IsSaid (codes "shifts") (rows_of (found_of words.now)) (Command.Shifts result) }
{
    ShiftsOptions {
        history: read_text(words, "FOLDER"),
        json: is_given(words, "json"),
    }
}

fn read_verify<'a>(words: &ArgMatches<'a>) -> VerifyOptions<'a>
    ensures { IsSaid (codes "verify") (rows_of (found_of words.now)) (Command.Verify result) }
{
    VerifyOptions {
        history: read_text(words, "FOLDER"),
        seal: find_text(words, "seal"),
    }
}

fn read_story<'a>(words: &ArgMatches<'a>) -> StoryOptions<'a>
    ensures { IsSaid (codes "story") (rows_of (found_of words.now)) (Command.Story result) }
{
    StoryOptions {
        history: read_text(words, "FOLDER"),
        sale: read_text(words, "SALE"),
    }
}

fn read_explain<'a>(words: &ArgMatches<'a>) -> ExplainOptions<'a>
    ensures { IsSaid (codes "explain") (rows_of (found_of words.now)) (Command.Explain result) }
{
    ExplainOptions {
        what: find_text(words, "WHAT"),
        shift: find_text(words, "shift"),
        times: is_given(words, "times"),
    }
}

fn read_ask<'a>(words: &ArgMatches<'a>) -> AskOptions<'a>
    ensures { IsSaid (codes "ask") (rows_of (found_of words.now)) (Command.Ask result) }
{
    AskOptions {
        port: find_text(words, "port"),
        door: find_text(words, "door"),
        strict: is_given(words, "strict"),
    }
}

/// The text of an argument; empty where it isn't there, as no required one is.
fn read_text<'a>(words: &ArgMatches<'a>, name: &str) -> &'a str
    ensures { result.now ≡ text_in name.now (rows_of (found_of words.now)) }
{
    match find_text(words, name) {
        Some(text) => text,
        None => "",
    }
}

/// The text of an argument, if it is there.
fn find_text<'a>(words: &ArgMatches<'a>, name: &str) -> Option<&'a str>
    ensures { IsOption name.now (rows_of (found_of words.now)) result }
{
    words.get_str(name)
}

/// Is this flag there?
fn is_given(words: &ArgMatches<'_>, name: &str) -> bool
    ensures { HasFlag name.now (rows_of (found_of words.now)) result }
{
    words.get_flag(name)
}
