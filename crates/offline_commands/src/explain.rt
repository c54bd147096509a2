//! `forecourt explain`, of a trace, and `forecourt explain NUMBER`, of a number.

ghost use Rattle.std.specs.Prelude.{◌≡◌, IfErr, None, OnOk, false};
ghost use Rattle.std.specs.Process.{exit_status};
ghost use Rattle.program_io.specs.declared.exit.TheConstants.{COMMAND_LINE};

use crate::history_option::refuse_option;
use command_line::ExplainOptions;
use devices::ReadFault;
use forecourt_engines::explain::explain;
use forecourt_engines::{Explained, ReplayFault, TextFault, Trace};
use program_io::{COMMAND_LINE, exit_no_memory, exit_replay, exit_unwritten, exit_with, read_line};
use site_base::{NoMemory, NumberMeaning};
use std::io::{BufReader, Read};
use std::process::ExitCode;

/// Prints what the given number means. Without a number, prints each message of this input in
/// words.
pub fn run_explain<R: Print + Eprint + AllocGlobal, I: Read + Drop>(
    rt: &R,
    input: I,
    options: ExplainOptions<'_>,
) -> ExitCode {
    if let Err(status) = refuse_history_options(rt, &options) {
        return status;
    }
    match options.what {
        Some(word) => explain_number(rt, word),
        None => explain_trace(rt, input),
    }
}

/// How the program ends where shifts or times of a history are asked for.
fn refuse_history_options(rt: &impl Eprint, options: &ExplainOptions<'_>) -> Result<(), ExitCode>
    ensures shift { OnOk result (options.now.shift ≡ None) }
    ensures times { OnOk result (options.now.times ≡ false) }
    ensures failed { IfErr result (λ status. exit_status status ≡ COMMAND_LINE) }
{
    refuse_option(rt, "shift", options.shift.is_some())?;
    refuse_option(rt, "times", options.times)
}

/// Prints what a refusal's or fault's number means. Another word is a mistake.
fn explain_number<R: Print + Eprint>(rt: &R, word: &str) -> ExitCode {
    // `parse` takes a plus before the digits.
    let number = match word.strip_prefix('+') {
        Some(_) => None,
        None => word.parse::<u8>().ok(),
    };
    match number.and_then(NumberMeaning::of) {
        Some(meaning) => match println!(rt; "{meaning}") {
            Ok(()) => ExitCode::SUCCESS,
            Err(_) => exit_unwritten(rt),
        },
        None => exit_with(
            eprintln!(rt;
                "error: '{word}' is no number of a refusal or fault, and no folder that this user \
                 may enter"
            ),
            COMMAND_LINE,
        ),
    }
}

/// Prints each message of this input in words, and says why the trace ended, if it ended with a
/// fault.
fn explain_trace<R: Print + Eprint + AllocGlobal, I: Read + Drop>(rt: &R, input: I) -> ExitCode {
    let alloc = rt.alloc();
    let mut trace = Trace::new(alloc);
    let mut reader = match BufReader::new(alloc, input) {
        Ok(reader) => reader,
        Err(_) => return exit_no_memory(rt),
    };
    let mut line = Vec::new(alloc);
    for _ in 0..u64::MAX {
        match read_line(rt, &mut reader, &mut line) {
            Ok(true) => {
                if let Err(status) = print_line(rt, trace.line(&line)) {
                    return status;
                }
            }
            Ok(false) => return exit_replay(rt, trace.end().map(ReplayFault::Text)),
            Err(status) => return status,
        }
    }
    // No trace has so many lines.
    exit_replay(rt, Some(ReplayFault::Read(ReadFault::TurnLimit)))
}

/// Prints what a line brought, or how the program ends with it.
fn print_line<R: Print + Eprint + AllocGlobal>(
    rt: &R,
    brought: Result<Explained, NoMemory>,
) -> Result<(), ExitCode> {
    let Explained { messages, stop } = match brought {
        Ok(brought) => brought,
        Err(_) => return Err(exit_no_memory(rt)),
    };
    for message in messages.as_slice() {
        let text = match explain(rt.alloc(), message) {
            Ok(text) => text,
            Err(_) => return Err(exit_no_memory(rt)),
        };
        if println!(rt; "{text}").is_err() {
            return Err(exit_unwritten(rt));
        }
    }
    match stop {
        None => Ok(()),
        Some(fault) => Err(exit_stopped(rt, fault)),
    }
}

/// Prints why the trace ended; a fault of its octets by its name, too, where the messages are
/// printed.
fn exit_stopped<R: Print + Eprint>(rt: &R, fault: TextFault) -> ExitCode {
    if let TextFault::Stream(grammar) = fault {
        let number = grammar.number();
        let name = NumberMeaning::of_no_reply(number).map_or("", |meaning| meaning.name());
        if println!(rt; "{number} {name}").is_err() {
            return exit_unwritten(rt);
        }
    }
    exit_replay(rt, Some(ReplayFault::Text(fault)))
}
