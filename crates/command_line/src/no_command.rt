//! What is printed in place of a command.

ghost use Rattle.clap.specs.Words.{kind_of};
ghost use Rattle.command_line.specs.Endings.{Explains};

use clap::Error;
use clap::error::ErrorKind;
use std::alloc::Global;

/// Why the words lead to no command.
#[derive(Debug, PartialEq, Eq, Drop)]
pub enum NoCommand {
    /// They ask for help or for the version: this text goes to standard output, and the status is
    /// 0.
    Help(String),
    /// They are wrong: this text goes to standard error, and the status is 2.
    Mistake(String),
    /// Memory ran out.
    NoMemory,
}

/// What is printed where `clap` gives this error in place of matches.
pub(crate) fn explain_error(alloc: Global, error: &Error) -> NoCommand
    ensures { Explains (kind_of error.now) result }
{
    if error.kind() == ErrorKind::OutOfMemory {
        return NoCommand::NoMemory;
    }
    match format!(in alloc; "{error}") {
        Ok(text) if error.use_stderr() => NoCommand::Mistake(text),
        Ok(text) => NoCommand::Help(text),
        Err(_) => NoCommand::NoMemory,
    }
}
