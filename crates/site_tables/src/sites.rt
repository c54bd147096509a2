//! Tables run at a site: each paragraph of events is one run, printed with the site's replies.

mod book;
mod printing;
mod run;
mod site_and_book;

use crate::sites::site_and_book::SiteAndBook;
use crate::words::Step;
use anyhow::Context;
use std::alloc::Global;
use std::marker::Model;

/// Does the steps of a table, and prints the result of each.
pub fn run_sites(rt: &(impl Print + Eprint), alloc: Global, steps: &[Step]) -> anyhow::Result<()> {
    let mut table = Table::new(alloc);
    for step in steps {
        table.take(rt, step)?;
    }
    Ok(())
}

/// The site that stands, if one does.
#[derive(Drop)]
struct Table {
    alloc: Global,
    standing: Option<SiteAndBook>,
}

impl Model for Table {
    ghost Value = { Unit {0} };

    ghost view = { λ t. tt };
}

impl Table {
    /// A table before its first step.
    fn new(alloc: Global) -> Table {
        Table {
            alloc,
            standing: None,
        }
    }

    /// Does a step, and prints what it shows.
    fn take(&mut self, rt: &(impl Print + Eprint), step: &Step) -> anyhow::Result<()> {
        match step {
            Step::Text(text) => println!(rt; "{text}")?,
            Step::Site { config, alone } => {
                self.standing = Some(SiteAndBook::open(rt, self.alloc, config, *alone)?);
            }
            Step::Run { events, last } => self.site()?.run(rt, events, *last)?,
            Step::Show(line) => self.site()?.show(rt, line)?,
        }
        Ok(())
    }

    /// The site that stands.
    fn site(&mut self) -> anyhow::Result<&mut SiteAndBook> {
        self.standing.as_mut().context("no site")
    }
}
