//! A table, read line by line.

use crate::words::draft::Draft;
use crate::words::event::{LastNamed, read_said};
use crate::words::line::Line;
use anyhow::Context;
use site_base::{Actor, Event, GREATEST_ROWS, SiteConfig};
use std::alloc::Global;
use std::marker::Model;
use std::mem;

/// What a table does next.
#[derive(Drop)]
pub enum Step {
    /// An empty line or a comment, printed as it is.
    Text(String),
    /// A site of this configuration opens. It is run with a book beside it, or only its book is
    /// kept.
    Site {
        config: SiteConfig,
        alone: bool,
    },
    /// A paragraph: its events, run as often as it says. The last rows are printed.
    Run {
        /// Each as often as the paragraph says.
        events: Vec<(Actor, Event)>,
        /// How many rows are printed.
        last: usize,
    },
    /// A line that asks the site something else.
    Show(Line),
}

/// The steps of a table so far, the site that is described, and the paragraph of events.
#[derive(Drop)]
pub struct TableReader {
    alloc: Global,
    described: Option<Draft>,
    alone: bool,
    paragraph: Vec<String>,
    times: u32,
    last_named: LastNamed,
    steps: Vec<Step>,
}

impl Model for TableReader {
    ghost Value = { Unit {0} };

    ghost view = { λ t. tt };
}

impl TableReader {
    /// Returns a table before its first line.
    pub fn new(alloc: Global) -> TableReader {
        TableReader {
            alloc,
            described: None,
            alone: false,
            paragraph: Vec::new(alloc),
            times: 1,
            last_named: LastNamed::new(),
            steps: Vec::new(alloc),
        }
    }

    /// Takes a line. An event joins its paragraph; every other line ends one.
    pub fn take(&mut self, line: Line) -> anyhow::Result<()> {
        if !matches!(line, Line::Event(_)) {
            self.end_paragraph()?;
        }
        match line {
            Line::Event(text) => self.paragraph.push(text)?,
            Line::Text(text) => self.steps.push(Step::Text(text))?,
            Line::Rows(_) => self.begin(GREATEST_ROWS, false),
            Line::Book(rows) => self.begin(rows, true),
            Line::Manager(till) => self.draft()?.managers.push(till)?,
            Line::Product(product) => self.draft()?.products.push(product)?,
            Line::Point(point) => self.draft()?.points.push(point)?,
            Line::Repeat(times) => self.times = times,
            line => {
                self.open()?;
                self.steps.push(Step::Show(line))?;
            }
        }
        Ok(())
    }

    /// Ends the table, and returns its steps.
    pub fn finish(self) -> anyhow::Result<Vec<Step>> {
        let mut reader = self;
        reader.end_paragraph()?;
        Ok(reader.steps)
    }

    /// A site begins.
    fn begin(&mut self, rows: u32, alone: bool) {
        self.alone = alone;
        self.last_named = LastNamed::new();
        self.described = Some(Draft::new(self.alloc, rows));
    }

    /// The site that is described, if one is.
    fn draft(&mut self) -> anyhow::Result<&mut Draft> {
        self.described.as_mut().context("the site stands already")
    }

    /// The site that is described opens, if one is.
    fn open(&mut self) -> anyhow::Result<()> {
        if let Some(draft) = self.described.take() {
            let config = draft.into_config().context("the site isn't fit")?;
            let alone = self.alone;
            self.steps.push(Step::Site { config, alone })?;
        }
        Ok(())
    }

    /// Ends the paragraph, if one has begun.
    fn end_paragraph(&mut self) -> anyhow::Result<()> {
        if self.paragraph.is_empty() {
            return Ok(());
        }
        self.open()?;
        let alloc = self.alloc;
        let paragraph = mem::replace(&mut self.paragraph, Vec::new(alloc));
        let times = mem::replace(&mut self.times, 1);
        let events = events_of(alloc, &paragraph, times, &mut self.last_named)?;
        let last = paragraph.len();
        self.steps.push(Step::Run { events, last })?;
        Ok(())
    }
}

/// The events of a paragraph, so often.
fn events_of(
    alloc: Global,
    paragraph: &[String],
    times: u32,
    last_named: &mut LastNamed,
) -> anyhow::Result<Vec<(Actor, Event)>> {
    let mut lines = Vec::new(alloc);
    for text in paragraph {
        lines.push(read_said(alloc, text)?)?;
    }
    let mut events = Vec::new(alloc);
    for _ in 0..times {
        for said in &lines {
            let event = last_named.next(said).context("a number out of its range")?;
            events.push(event)?;
        }
    }
    Ok(events)
}
