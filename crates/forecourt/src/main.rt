//! The forecourt site controller's program: it reads the words of the command line, and runs the
//! command that they name. The words are parsed in `command_line`; the commands are in
//! `offline_commands`, `row_commands`, `shift_commands`, `desk_commands` and `station_command`,
//! their files, texts and exit statuses in `program_io`.
#![tactic(auto)]

mod quiet_host;
mod version;

use crate::quiet_host::QuietHost;
use crate::version::build_lines;
use ask_command::run_ask;
use command_line::{Command, ExplainOptions, NoCommand, StationOptions, parse};
use desk_commands::{run_demo, run_serve};
use offline_commands::{
    run_check, run_explain, run_meters, run_replay, run_replay_here, run_report, run_sales,
    run_spell,
};
use program_io::{COMMAND_LINE, exit_no_memory, exit_unwritten, exit_with, is_folder};
use row_commands::{
    run_explain_folder, run_meters_folder, run_replay_folder, run_report_folder, run_sales_folder,
    run_story, run_verify,
};
use shift_commands::{run_next, run_shifts};
use station_command::run_station;
use std::env;
use std::io::{ErrorKind, IsTerminal, Stdin};
use std::process::ExitCode;
use std::sync::Wait;
use std::thread::Threads;
use unmarked_input::Unmarked;

/// A line of those who read messages.
const MESSAGE: &str = "a message in hexadecimal";

/// A line of those who read requests.
const REQUEST: &str = "a request in words, as t1 SignOn";

fn main(rt: HostRuntime) -> ExitCode {
    let words = match read_words(&rt) {
        Ok(words) => words,
        Err(status) => return status,
    };
    match parse(rt.alloc(), &words) {
        Ok(command) => run(&rt, &rt, command),
        Err(ending) => {
            let quiet = QuietHost::new(&rt);
            quiet.end(exit_without_command(&quiet, &rt, &ending))
        }
    }
}

/// The words of the command line, the program's name first. Words that aren't text are a mistake.
fn read_words(rt: &HostRuntime) -> Result<Vec<String>, ExitCode> {
    let alloc = rt.alloc();
    match env::args(rt) {
        Ok(words) => words.collect(alloc).map_err(|_| exit_no_memory(rt)),
        Err(error) if error.kind() == ErrorKind::OutOfMemory => Err(exit_no_memory(rt)),
        Err(_) => Err(exit_with(
            eprintln!(rt; "error: a word of the command line isn't text"),
            COMMAND_LINE,
        )),
    }
}

/// Runs this command. Only a server, a station and a demo start `threads`. A byte order mark that
/// the input begins with is dropped. If the reader of its output has closed the pipe, a command
/// ends quietly, but for `serve` and `station`.
fn run<T: Threads + Wait + Sync>(rt: &HostRuntime, threads: &T, command: Command<'_>) -> ExitCode {
    let quiet = QuietHost::new(rt);
    let host = &quiet;
    let status = match command {
        Command::ReplayHere => run_replay_here(host, open_input(rt, MESSAGE)),
        Command::Check(site) => run_check(host, site),
        Command::Replay(options) if is_folder(rt, options.site) => run_replay_folder(host, options),
        Command::Replay(options) => run_replay(host, open_input(rt, MESSAGE), options),
        Command::Report(options) if is_folder(rt, options.site) => run_report_folder(host, options),
        Command::Report(options) => run_report(host, open_input(rt, MESSAGE), options),
        Command::Sales(options) if is_folder(rt, options.site) => run_sales_folder(host, options),
        Command::Sales(options) => run_sales(host, open_input(rt, MESSAGE), options),
        Command::Meters(options) if is_folder(rt, options.site) => run_meters_folder(host, options),
        Command::Meters(options) => run_meters(host, open_input(rt, MESSAGE), options),
        Command::Serve(options) => run_serve(rt, threads, options),
        Command::Station(options) => run_station_here(rt, threads, options),
        Command::Demo(options) => run_demo(host, threads, options),
        Command::Shifts(options) => run_shifts(host, options.history, options.json),
        Command::Next(history) => run_next(host, history),
        Command::Verify(options) => run_verify(host, options),
        Command::Story(options) => run_story(host, options),
        Command::Explain(options) => match find_folder(rt, options) {
            Some(folder) => run_explain_folder(host, folder, options),
            None if options.what.is_some() => run_explain(host, rt.stdin(), options),
            None => run_explain(host, open_input(rt, MESSAGE), options),
        },
        Command::Spell => run_spell(host, open_input(rt, REQUEST)),
        Command::Ask(options) => run_ask(host, open_input(rt, REQUEST), options),
    };
    quiet.end(status)
}

/// Runs a station whose day ends with standard input. At a terminal it is said how that ends.
fn run_station_here<T: Threads + Wait + Sync>(
    rt: &HostRuntime,
    threads: &T,
    options: StationOptions<'_>,
) -> ExitCode {
    let input = rt.stdin();
    if !options.detached && input.is_terminal() {
        let _ = eprintln!(rt; "Ctrl-D ends the day");
    }
    match rt.clone() {
        Ok(errors) => run_station(rt, threads, input, errors, options),
        Err(_) => exit_no_memory(rt),
    }
}

/// Standard input without its byte order mark. At a terminal it is said what is to be typed there.
fn open_input(rt: &HostRuntime, what: &str) -> Unmarked<Stdin> {
    let input = rt.stdin();
    if input.is_terminal() {
        let _ = eprintln!(rt;
            "type {what}, a line each, and Ctrl-D at the end; forecourt --help lists the commands"
        );
    }
    Unmarked::new(input)
}

/// The folder whose rows are to be explained. A number is none.
fn find_folder<'a>(rt: &HostRuntime, options: ExplainOptions<'a>) -> Option<&'a str> {
    let word = options.what?;
    // `parse` takes a plus before the digits.
    let is_number = !word.starts_with('+') && word.parse::<u8>().is_ok();
    if is_number || !is_folder(rt, word) {
        return None;
    }
    Some(word)
}

/// Prints what the words ask for in place of a command: help, or the version and what this program
/// was made of, on standard output, with status 0; a mistake on standard error, with status 2.
fn exit_without_command(
    host: &(impl Print + Eprint),
    rt: &HostRuntime,
    ending: &NoCommand,
) -> ExitCode {
    match ending {
        NoCommand::NoMemory => exit_no_memory(host),
        NoCommand::Mistake(text) => exit_with(eprint!(host; "{text}"), COMMAND_LINE),
        NoCommand::Help(text) if is_version(text) => match build_lines(rt) {
            Ok(lines) => print_help(host, text, &lines),
            Err(_) => exit_no_memory(host),
        },
        NoCommand::Help(text) => print_help(host, text, ""),
    }
}

/// Is it the version, a line alone? Help has several.
fn is_version(text: &str) -> bool {
    text.lines().count() == 1
}

/// Prints a text that was asked for, and these lines behind it.
fn print_help(host: &(impl Print + Eprint), text: &str, lines: &str) -> ExitCode {
    match print!(host; "{text}{lines}") {
        Ok(()) => ExitCode::SUCCESS,
        Err(_) => exit_unwritten(host),
    }
}
