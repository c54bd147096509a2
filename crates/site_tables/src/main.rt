//! Tables of cases in words: `site_tables WORD < lines` runs them and prints the results. The word
//! is `sites` (each paragraph of events is run at a site and its book; this is also done without a
//! word), `desk` (the same events are submitted at a desk) or `scripts` (scripts of demos are
//! read). docs/PROGRAM.md has the grammar.
#![tactic(auto)]

mod desks;
mod scripts;
mod sites;
mod words;

use crate::desks::run_desks;
use crate::scripts::print_cases;
use crate::sites::run_sites;
use crate::words::{Line, Step, TableReader};
use anyhow::bail;
use std::env;
use std::process::ExitCode;
use std::sync::Wait;

fn main(rt: HostRuntime) -> ExitCode {
    match run_table(&rt, &rt) {
        Ok(()) => ExitCode::SUCCESS,
        Err(error) => {
            let _ = eprintln!(&rt; "{error}");
            ExitCode::FAILURE
        }
    }
}

/// Runs the table on standard input as the program's word says. A desk takes a lock of `waiting`.
fn run_table(rt: &HostRuntime, waiting: &(impl Print + Eprint + Wait)) -> anyhow::Result<()> {
    let alloc = rt.alloc();
    let words: Vec<String> = env::args(rt)?.collect(alloc)?;
    match words.get(1).map(|word| word.as_str()) {
        None | Some("sites") => run_sites(rt, alloc, &read_steps(rt)?),
        Some("desk") => run_desks(waiting, alloc, &read_steps(rt)?),
        Some("scripts") => print_cases(rt),
        Some(word) => bail!("no such kind of table: {word}"),
    }
}

/// The steps of the table that standard input holds, which is read whole.
fn read_steps(rt: &HostRuntime) -> anyhow::Result<Vec<Step>> {
    let alloc = rt.alloc();
    let mut reader = TableReader::new(alloc);
    for text in rt.lines(alloc) {
        let text = text?;
        reader.take(Line::read(alloc, &text)?)?;
    }
    reader.finish()
}
