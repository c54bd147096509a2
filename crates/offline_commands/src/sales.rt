//! `forecourt sales FILE`.

ghost use Rattle.std.specs.Prelude.{◌≡◌, IfErr, None, OnOk};
ghost use Rattle.std.specs.Process.{exit_status};
ghost use Rattle.program_io.specs.declared.exit.TheConstants.{COMMAND_LINE};

use crate::history_option::refuse_option;
use crate::named_site::{NamedInput, exit_named, open_input};
use crate::silent::{ends_its_text, replay_silently};
use command_line::SalesOptions;
use devices::Counted;
use forecourt_engines::{ReplayFault, SiteBook};
use program_io::{TURNS, exit_replay};
use sales_table::{Form, TableFault, write_draws, write_sales};
use site_base::SiteConfig;
use std::io;
use std::io::Read;
use std::process::ExitCode;
use std::rt::Files;

/// Replays this input on the site of a file, and prints the table of its sales, or of its draws.
pub fn run_sales<R: Files + Print + Eprint + AllocGlobal, I: Read + Drop>(
    rt: &R,
    input: I,
    options: SalesOptions<'_>,
) -> ExitCode {
    if let Err(status) = refuse_history_options(rt, &options) {
        return status;
    }
    match open_input(rt, options.site, input) {
        Ok((config, input)) => print_sold(rt, input, &config, options),
        Err(status) => status,
    }
}

/// How the program ends where shifts or times of a history are asked for.
fn refuse_history_options(rt: &impl Eprint, options: &SalesOptions<'_>) -> Result<(), ExitCode>
    ensures shift { OnOk result (options.now.shift ≡ None) }
    ensures from { OnOk result (options.now.from ≡ None) }
    ensures to { OnOk result (options.now.to ≡ None) }
    ensures failed { IfErr result (λ status. exit_status status ≡ COMMAND_LINE) }
{
    refuse_option(rt, "shift", options.shift.is_some())?;
    refuse_option(rt, "from", options.from.is_some())?;
    refuse_option(rt, "to", options.to.is_some())
}

/// Prints the table of what this input sells on this site, up to a fault of its text, which is
/// printed then.
fn print_sold<R: Print + Eprint + AllocGlobal, I: Read + Drop>(
    rt: &R,
    mut input: Counted<NamedInput<I>>,
    config: &SiteConfig,
    options: SalesOptions<'_>,
) -> ExitCode {
    let end = replay_silently(rt.alloc(), &mut input, config);
    let Some(book) = &end.book else {
        return exit_named(rt, &input, end.fault);
    };
    if !ends_its_text(&end.fault) {
        return exit_named(rt, &input, end.fault);
    }
    match print_table(rt, book, options) {
        Ok(()) => exit_replay(rt, end.fault),
        Err(TableFault::NoMemory) => exit_replay(rt, Some(ReplayFault::NoMemory)),
        Err(TableFault::Write(fault)) => exit_replay(rt, Some(ReplayFault::Write(fault))),
    }
}

/// Prints the table of a book.
fn print_table<R: Print + AllocGlobal>(
    rt: &R,
    book: &SiteBook,
    options: SalesOptions<'_>,
) -> Result<(), TableFault>
    requires { book.now.forgotten ≡ 0 }
{
    let form = if options.json { Form::Json } else { Form::Csv };
    let (mut writer, mut turns) = (Counted::new(io::writer(rt)), TURNS);
    if options.draws {
        write_draws(rt.alloc(), book, form, &mut writer, &mut turns)
    } else {
        write_sales(rt.alloc(), book, form, &mut writer, &mut turns)
    }
}
