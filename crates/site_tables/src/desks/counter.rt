//! One share at a desk, which submits what a table asks, and prints the rows.

use crate::words::{Line, Step};
use anyhow::{bail, ensure};
use counter_desk::{Desk, Naming, Share};
use site_base::{Actor, Event, NoRow, Placed, Row, TillNo};
use std::sync::Wait;
use std::sync::ledger::Ledger;

/// How many rows a share has placed, and whether each is printed after its place.
#[derive(Drop)]
pub struct Counter {
    has_places: bool,
    placed: u64,
}

impl Counter {
    /// Returns a counter of which nothing is placed yet.
    pub fn new(has_places: bool) -> Counter {
        Counter {
            has_places,
            placed: 0,
        }
    }

    /// Returns how many rows were placed.
    pub fn placed(&self) -> u64 {
        self.placed
    }

    /// Does each step up to the next site.
    pub fn submit_all<L: Ledger, C: Naming>(
        &mut self,
        rt: &(impl Print + Eprint + Wait),
        desk: &Desk<L, C>,
        share: &mut Share<L, C>,
        steps: &[Step],
    ) -> anyhow::Result<()> {
        for step in steps {
            match step {
                Step::Site { .. } => return Ok(()),
                Step::Run { events, last } => self.submit_run(rt, desk, share, events, *last)?,
                Step::Show(Line::Leave(till)) => self.leave(rt, desk, share, *till)?,
                _ => {}
            }
        }
        Ok(())
    }

    /// Submits the events of a paragraph, and prints the last rows.
    fn submit_run<L: Ledger, C: Naming>(
        &mut self,
        rt: &(impl Print + Eprint + Wait),
        desk: &Desk<L, C>,
        share: &mut Share<L, C>,
        events: &[(Actor, Event)],
        last: usize,
    ) -> anyhow::Result<()> {
        let first = events.len().saturating_sub(last);
        for at in 0..events.len() {
            if let Some((actor, event)) = events.get(at) {
                let placed = submit(rt, desk, share, actor, event)?;
                self.keep(rt, *actor, *event, placed, at >= first)?;
            }
        }
        Ok(())
    }

    /// Signs a till off, if the share owes that.
    fn leave<L: Ledger, C: Naming>(
        &mut self,
        rt: &(impl Print + Wait),
        desk: &Desk<L, C>,
        share: &mut Share<L, C>,
        till: TillNo,
    ) -> anyhow::Result<()> {
        let owed = share.owes(till);
        if owed {
            let left = desk.leave(rt, share, till);
            if self.has_places && left.is_some() {
                return self.keep(rt, Actor::Till(till), Event::SignOff, left, true);
            }
            ensure!(left.is_some(), "no row of a till that left");
            self.placed = self.placed.saturating_add(1);
        }
        println!(rt; "leave {}: {owed}", till.get())?;
        Ok(())
    }

    /// Counts a row, and prints it, or that the book is full, if it is to be shown.
    fn keep(
        &mut self,
        rt: &impl Print,
        actor: Actor,
        event: Event,
        told: Option<Placed>,
        shown: bool,
    ) -> anyhow::Result<()> {
        let Some(Placed { place, reply }) = told else {
            println!(rt; "{actor} {event}: 30 BookFull")?;
            return Ok(());
        };
        ensure!(place == self.placed, "another place than the next");
        self.placed = self.placed.saturating_add(1);
        let row = Row {
            actor,
            event,
            reply,
        };
        match (shown, self.has_places) {
            (true, true) => println!(rt; "{place} {row}")?,
            (true, false) => println!(rt; "{row}")?,
            (false, _) => {}
        }
        Ok(())
    }
}

/// Submits an event: its row, or None where the book is full. After an allocation that failed,
/// which has left the desk as it was, it is submitted again.
fn submit<L: Ledger, C: Naming>(
    rt: &(impl Eprint + Wait),
    desk: &Desk<L, C>,
    share: &mut Share<L, C>,
    actor: &Actor,
    event: &Event,
) -> anyhow::Result<Option<Placed>> {
    let mut told = desk.submit(rt, share, *actor, *event);
    if told == Err(NoRow::NoMemory) {
        eprintln!(rt; "an allocation failed")?;
        told = desk.submit(rt, share, *actor, *event);
    }
    match told {
        Ok(placed) => Ok(Some(placed)),
        Err(NoRow::BookFull) => Ok(None),
        Err(NoRow::NoMemory) => bail!("want of memory twice"),
    }
}
