//! What is printed of the book of a replayed input: a report, or a table of counters.

ghost use Rattle.std.specs.Prelude.{◌≡◌, ◌++◌, IfOk, OnOk};
ghost use Rattle.written_site.specs.SiteState.{opening};
ghost use Rattle.meter_table.specs.Figures.{all_figures};
ghost use Rattle.meter_table.specs.Gaps.{gaps_of};
ghost use Rattle.meter_table.specs.ReportLines.{gap_words};

use crate::named_site::{NamedInput, exit_named};
use crate::output::print_text;
use crate::silent::{ends_its_text, replay_silently};
use day_report::{report_as_json, report_for_people};
use devices::Counted;
use forecourt_engines::SiteBook;
use forecourt_engines::replay::ReplayEnd;
use meter_table::{
    Form, GapList, GapReader, MeterReader, NozzleFigures, figures_table, gap_words, gaps_table,
};
use program_io::{exit_no_memory, exit_replay};
use row_tally::RowPlace;
use site_base::{NoMemory, SiteConfig};
use std::alloc::Global;
use std::io::Read;
use std::process::ExitCode;

/// What is printed of a book.
#[derive(Clone, Copy, Debug)]
pub enum BookText {
    /// Its report for people.
    People,
    /// Its report as one object of JSON.
    Json,
    /// What was counted at each nozzle.
    Meters(Form),
    /// The gaps.
    Gaps(Form),
}

/// Replays this input on this site without its answers, and prints this text of its book. The book
/// is printed too if the replay ends at a fault of the input's text. After any other fault nothing
/// is printed but the fault.
pub fn print_of_book<R: Print + Eprint + AllocGlobal, I: Read + Drop>(
    rt: &R,
    mut input: Counted<NamedInput<I>>,
    config: &SiteConfig,
    wanted: BookText,
) -> ExitCode {
    let ReplayEnd { fault, book } = replay_silently(rt.alloc(), &mut input, config);
    let Some(book) = book else {
        return exit_named(rt, &input, fault);
    };
    if !ends_its_text(&fault) {
        return exit_named(rt, &input, fault);
    }
    match text_of(rt.alloc(), &book, wanted) {
        Ok(text) => match print_text(rt, &text) {
            None => exit_replay(rt, fault),
            fault => exit_replay(rt, fault),
        },
        Err(NoMemory) => exit_no_memory(rt),
    }
}

/// This text of a book; a report is of its audit.
fn text_of(alloc: Global, book: &SiteBook, wanted: BookText) -> Result<Vec<u8>, NoMemory>
    requires { book.now.forgotten ≡ 0 }
{
    let products = book.config().products();
    match wanted {
        BookText::People => people_text(alloc, book),
        BookText::Json => {
            let totals = book.audit(alloc)?;
            Ok(report_as_json(alloc, products, &totals, 0)?.into_bytes())
        }
        BookText::Meters(form) => {
            let figures = count_nozzles(alloc, book)?;
            figures_table(alloc, products, &figures, form)
        }
        BookText::Gaps(form) => gaps_table(alloc, &find_gaps(alloc, book)?, form),
    }
}

/// The report of a book for people, and behind it what there is to say of its gaps.
fn people_text(alloc: Global, book: &SiteBook) -> Result<Vec<u8>, NoMemory>
    requires { book.now.forgotten ≡ 0 }
{
    let totals = book.audit(alloc)?;
    let mut text = report_for_people(alloc, book.config().products(), &totals)?;
    add_gaps(alloc, book, &mut text)?;
    Ok(text)
}

/// Appends what a report for people says of a book's gaps.
fn add_gaps(alloc: Global, book: &SiteBook, text: &mut Vec<u8>) -> Result<(), NoMemory>
    requires { book.now.forgotten ≡ 0 }
    ensures { OnOk result (text.new.items ≡ text.old.items
        ++ gap_words book.now.config (gaps_of book.now.config book.now.rows)) }
{
    let gaps = find_gaps(alloc, book)?;
    text.extend_from_slice(&gap_words(alloc, book.config(), &gaps)?)?;
    Ok(())
}

/// What all rows of a book count at each nozzle.
fn count_nozzles(alloc: Global, book: &SiteBook) -> Result<Vec<NozzleFigures>, NoMemory>
    requires { book.now.forgotten ≡ 0 }
    ensures { IfOk result (λ figures. figures.items
        ≡ all_figures book.now.config (opening book.now.config) book.now.rows) }
{
    let mut reader = MeterReader::open(alloc, book.config())?;
    for place in 0..book.len() {
        let Some(row) = &book.row(place) else {
            unreachable!();
        };
        reader.read(row)?;
    }
    Ok(reader.into_figures())
}

/// The gaps of all rows of a book. Their times aren't known.
fn find_gaps(alloc: Global, book: &SiteBook) -> Result<GapList, NoMemory>
    requires { book.now.forgotten ≡ 0 }
    ensures { IfOk result (λ gaps. gaps ≡ gaps_of book.now.config book.now.rows) }
{
    let mut reader = GapReader::open(alloc, book.config())?;
    for row in 0..book.len() {
        let Some(told) = &book.row(row) else {
            unreachable!();
        };
        reader.read(&RowPlace { row, at: None }, told)?;
    }
    Ok(reader.into_gaps())
}
