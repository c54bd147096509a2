//! How the program ends: its exit status, and its text on standard error.
//!
//! | status | when |
//! |---|---|
//! | 0 | done |
//! | 1 | refused input, a read or write that fails, 59, 63, 64 |
//! | 2 | a mistake on the command line |
//! | 3 | a day that isn't settled |
//! | 4 | memory ran out |

ghost use Rattle.std.specs.Prelude.{◌≡◌};
ghost use Rattle.std.specs.Process.{exit_status};
ghost use Rattle.program_io.specs.Statuses.{status_after};

use devices::{ReadFault, WriteFault};
use forecourt_engines::{ReplayFault, TextFault};
use std::fmt::Display;
use std::io;
use std::process::ExitCode;

/// What to look at if standard output takes no more.
const LOOK_AT_OUTPUT: &str = "standard output can't be written: see whether it is closed, a disk \
                              is full, or the program that reads it has ended";

/// What to do if memory ran out.
const LOOK_AT_MEMORY: &str = "memory ran out: allow 200 MB of address space or more (ulimit -v), \
                              or end programs that need much";

/// What to look at if standard input can't be read.
const LOOK_AT_INPUT: &str = "standard input can't be read: see that it is open and no folder, and \
                             whether its disk fails";

/// What to do if a run made too many calls.
const GIVE_LESS: &str = "a run may make no more reads and interrupted writes: give it less input";

/// What to do if octets are no message.
const CORRECT_MESSAGE: &str = "what comes next is no message (forecourt explain, with this number, \
                               says why): correct it, or the length of the one before it, since \
                               nothing from there on counts";

/// What to do if the input ends inside a message.
const COMPLETE_MESSAGE: &str = "the input ends inside a message: add what is missing of it, or \
                                correct its length";

/// What to do if a line isn't hexadecimal.
const GIVE_DIGITS: &str = "a line has pairs of hexadecimal digits: correct it, or have requests in \
                           words spelled by forecourt spell";

/// What to do if a line is too long.
const CUT_LINE: &str = "a line has at most 65,536 octets: cut it in two";

/// The exit status of refused input, and of a write that fails.
pub const FAULT: u8 = 1;

/// The exit status of a mistake on the command line.
pub const COMMAND_LINE: u8 = 2;

/// The exit status when memory ran out.
pub const NO_MEMORY: u8 = 4;

/// Prints why a replay ended, if it ended with a fault, and below it what to do. Returns the exit
/// status.
pub fn exit_replay(rt: &impl Eprint, fault: Option<ReplayFault>) -> ExitCode
    ensures { exit_status result ≡ status_after fault }
{
    let Some(fault) = fault else {
        return ExitCode::SUCCESS;
    };
    exit_with(
        eprintln!(rt; "{fault}\n{}", what_to_do(fault)),
        fault.exit_status(),
    )
}

/// What to do after this fault.
fn what_to_do(fault: ReplayFault) -> &'static str {
    match fault {
        ReplayFault::NoMemory => LOOK_AT_MEMORY,
        ReplayFault::Read(ReadFault::Failed) => LOOK_AT_INPUT,
        ReplayFault::Read(ReadFault::TurnLimit) => GIVE_LESS,
        ReplayFault::Write(WriteFault::TurnLimit) => GIVE_LESS,
        ReplayFault::Write(WriteFault::Failed) => LOOK_AT_OUTPUT,
        ReplayFault::Text(TextFault::Stream(_)) => CORRECT_MESSAGE,
        ReplayFault::Text(TextFault::Truncated) => COMPLETE_MESSAGE,
        ReplayFault::Text(TextFault::NotHexadecimal(_)) => GIVE_DIGITS,
        ReplayFault::Text(TextFault::TooLong(_)) => CUT_LINE,
    }
}

/// Prints a fault, and returns this status.
pub fn exit_fault<F: Display + Drop>(rt: &impl Eprint, fault: F, status: u8) -> ExitCode
    ensures { exit_status result ≡ status }
{
    exit_with(eprintln!(rt; "{fault}"), status)
}

/// Prints that memory ran out, and what to do, and returns `NO_MEMORY`.
pub fn exit_no_memory(rt: &impl Eprint) -> ExitCode
    ensures { exit_status result ≡ NO_MEMORY }
{
    exit_with(eprintln!(rt; "fault 31\n{LOOK_AT_MEMORY}"), NO_MEMORY)
}

/// Prints that standard output takes no more, and what to look at, and returns `FAULT`.
pub fn exit_unwritten(rt: &impl Eprint) -> ExitCode
    ensures { exit_status result ≡ FAULT }
{
    exit_with(eprintln!(rt; "fault 62\n{LOOK_AT_OUTPUT}"), FAULT)
}

/// Returns this status, even if standard error didn't take the text.
pub fn exit_with(printed: io::Result<()>, status: u8) -> ExitCode
    ensures { exit_status result ≡ status }
{
    let _ = printed;
    ExitCode::from(status)
}
