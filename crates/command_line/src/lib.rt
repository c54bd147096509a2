//! The command line: words are parsed into a command of the program.
//!
//! `parse` reads the words with `clap`, and returns a plain value: a `Command` with what was
//! written after its name, or a `NoCommand` that says what to print instead. Nothing here reads a
//! file or prints, and no type of `clap` is visible from outside. A value, such as a port, is still
//! text: the command that gets it checks it.
//!
//! `specs/Program.antt` is the command line as a table: each command with its arguments.
//! `specs/Commands.antt` says which command the words name by that table, and `specs/Endings.antt`
//! what is printed if they name none. The texts themselves are tested, and not proved.
#![tactic(auto)]

mod arguments;
mod building;
mod command;
mod day_commands;
mod history_commands;
mod no_command;
mod parsing;
mod program;
mod reading;
mod replay_commands;
mod word_commands;

pub use command::{
    AskOptions, Command, DemoOptions, ExplainOptions, MetersForm, MetersOptions, ReplayOptions,
    ReportForm, ReportOptions, SalesOptions, ServeOptions, ShiftsOptions, StationOptions,
    StoryOptions, VerifyOptions,
};
pub use no_command::NoCommand;
pub use parsing::parse;
