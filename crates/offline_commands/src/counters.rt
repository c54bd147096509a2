//! `forecourt meters FILE [--gaps] [--csv | --json]`.

use crate::book_text::{BookText, print_of_book};
use crate::history_option::refuse_option;
use crate::named_site::open_input;
use command_line::{MetersForm, MetersOptions};
use meter_table::Form;
use std::io::Read;
use std::process::ExitCode;
use std::rt::Files;

/// Replays this input on the site of a file, and prints what was counted at each nozzle, or the
/// gaps.
pub fn run_meters<R: Files + Print + Eprint + AllocGlobal, I: Read + Drop>(
    rt: &R,
    input: I,
    options: MetersOptions<'_>,
) -> ExitCode {
    if let Err(status) = refuse_option(rt, "shift", options.shift.is_some()) {
        return status;
    }
    let form = form_of(options.form);
    let wanted = if options.gaps {
        BookText::Gaps(form)
    } else {
        BookText::Meters(form)
    };
    match open_input(rt, options.site, input) {
        Ok((config, input)) => print_of_book(rt, input, &config, wanted),
        Err(status) => status,
    }
}

/// The form of a table that is asked for.
fn form_of(form: MetersForm) -> Form {
    match form {
        MetersForm::People => Form::Text,
        MetersForm::Csv => Form::Csv,
        MetersForm::Json => Form::Json,
    }
}
