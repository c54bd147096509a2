//! `forecourt next FOLDER`.

ghost use Rattle.std.specs.Prelude.{◌≡◌, ◌≢◌, []};
ghost use Rattle.std.specs.Process.{exit_status};
ghost use Rattle.program_io.specs.Statuses.{IsFailed};
ghost use Rattle.site_book.specs.Unpaid.{unpaid_sales};
ghost use Rattle.next_opening.specs.Obstacles.{obstacles};

use crate::printing::exit_printed;
use history_folder::read_folder;
use next_opening::{Obstacle, next_config, obstacles};
use program_io::{FAULT, exit_fault, exit_no_memory};
use site_base::NoMemory;
use site_book::{SiteBook, UnpaidSales};
use site_text::{TextFault, checked_text};
use std::process::ExitCode;
use std::rt::Files;

/// Prints the site file with which the history after the one in this folder begins. If this history
/// can't end yet, prints each obstacle on standard error instead, and ends with status 1.
pub fn run_next<R: Files + Print + Eprint + AllocGlobal>(rt: &R, folder: &str) -> ExitCode {
    let mut history = match read_folder(rt, folder) {
        Ok(history) => history,
        Err(status) => return status,
    };
    match history.unpaid.read(rt.alloc(), &history.book) {
        Ok(()) => end_history(rt, &history.book, &history.unpaid),
        Err(NoMemory) => exit_no_memory(rt),
    }
}

/// Prints the site file of the next history, or what hinders the end of this one.
fn end_history<R: Print + Eprint + AllocGlobal>(
    rt: &R,
    book: &SiteBook,
    unpaid: &UnpaidSales,
) -> ExitCode
    requires read { unpaid.now.sales ≡ unpaid_sales book.now }
    ensures hindered { obstacles book.now ≢ [] → IsFailed result }
{
    match obstacles(rt.alloc(), book, unpaid) {
        Ok(found) => {
            if found.is_empty() {
                print_next(rt, book)
            } else {
                exit_hindered(rt, &found)
            }
        }
        Err(NoMemory) => exit_no_memory(rt),
    }
}

/// Prints each obstacle on standard error, one a line.
fn exit_hindered(rt: &impl Eprint, found: &[Obstacle]) -> ExitCode
    ensures { exit_status result ≡ FAULT }
{
    for obstacle in found {
        let _ = eprintln!(rt; "{obstacle}");
    }
    ExitCode::from(FAULT)
}

/// Prints the site file of the next history.
fn print_next<R: Print + Eprint + AllocGlobal>(rt: &R, book: &SiteBook) -> ExitCode {
    let config = match next_config(rt.alloc(), book) {
        Ok(config) => config,
        Err(NoMemory) => return exit_no_memory(rt),
    };
    match checked_text(rt.alloc(), &config) {
        Ok(text) => exit_printed(rt, text.as_str()),
        Err(TextFault::NoMemory) => exit_no_memory(rt),
        Err(TextFault::ReadOtherwise) => exit_fault(rt, TextFault::ReadOtherwise, FAULT),
    }
}
