//! `forecourt report FILE [--human | --json]`.

use crate::book_text::{BookText, print_of_book};
use crate::history_option::refuse_option;
use crate::named_site::{NamedInput, exit_named, open_input};
use command_line::{ReportForm, ReportOptions};
use devices::Counted;
use forecourt_engines::reporting::replay_to_report;
use program_io::TURNS;
use site_base::SiteConfig;
use std::io;
use std::io::Read;
use std::process::ExitCode;
use std::rt::Files;

/// Replays this input on the site of a file, and prints the report of its rows.
pub fn run_report<R: Files + Print + Eprint + AllocGlobal, I: Read + Drop>(
    rt: &R,
    input: I,
    options: ReportOptions<'_>,
) -> ExitCode {
    if let Err(status) = refuse_option(rt, "shift", options.shift.is_some()) {
        return status;
    }
    let (config, input) = match open_input(rt, options.site, input) {
        Ok(opened) => opened,
        Err(status) => return status,
    };
    match options.form {
        ReportForm::Lines => report_lines(rt, input, &config),
        ReportForm::People => print_of_book(rt, input, &config, BookText::People),
        ReportForm::Json => print_of_book(rt, input, &config, BookText::Json),
    }
}

/// Replays this input on this site, and prints a line for each figure of its rows. It says why the
/// replay ended, if it ended with a fault.
fn report_lines<R: Print + Eprint + AllocGlobal, I: Read + Drop>(
    rt: &R,
    mut input: Counted<NamedInput<I>>,
    config: &SiteConfig,
) -> ExitCode {
    let mut writer = Counted::new(io::writer(rt));
    let end = replay_to_report(rt.alloc(), config, &mut input, &mut writer, TURNS);
    exit_named(rt, &input, end.err())
}
