//! A site that is run on the events of a paragraph.

use site_base::{Actor, Event, NoMemory, Reply, Row, SiteConfig};
use site_core::{RunStopped, Site, run};
use std::alloc::Global;

/// Opens a site. If an allocation failed, it is opened again.
pub fn open_site(rt: &impl Eprint, alloc: Global, config: &SiteConfig) -> anyhow::Result<Site> {
    match Site::try_open(alloc, config) {
        Ok(site) => Ok(site),
        Err(NoMemory) => {
            eprintln!(rt; "an allocation failed")?;
            Ok(Site::try_open(alloc, config)?)
        }
    }
}

/// The replies of a run. Those to its first `lost` events were lost with a failed allocation.
#[derive(Drop)]
pub struct Replies {
    lost: usize,
    replies: Vec<Reply>,
}

impl Replies {
    /// Returns the reply to the event at a place, if it isn't lost.
    pub fn at(&self, place: usize) -> Option<&Reply> {
        self.replies.get(place.checked_sub(self.lost)?)
    }
}

/// Runs the events. If an allocation failed, the events that aren't done are run again.
pub fn replies_to(
    rt: &impl Eprint,
    alloc: Global,
    site: &mut Site,
    events: &[(Actor, Event)],
) -> anyhow::Result<Replies> {
    match run(alloc, site, events) {
        Ok(replies) => Ok(Replies { lost: 0, replies }),
        Err(RunStopped { done }) => {
            eprintln!(rt; "an allocation failed")?;
            match run(alloc, site, &events[done..]) {
                Ok(replies) => Ok(Replies {
                    lost: done,
                    replies,
                }),
                Err(_) => Err(NoMemory.into()),
            }
        }
    }
}

/// The row of the event at a place, if its reply isn't lost.
fn row_at(events: &[(Actor, Event)], replies: &Replies, place: usize) -> Option<Row> {
    let (actor, event) = events.get(place)?;
    let reply = replies.at(place)?;
    Some(Row {
        actor: *actor,
        event: *event,
        reply: *reply,
    })
}

/// Prints the last rows of a run.
pub fn print_rows(
    rt: &impl Print,
    events: &[(Actor, Event)],
    replies: &Replies,
    last: usize,
) -> anyhow::Result<()> {
    for place in events.len().saturating_sub(last)..events.len() {
        match row_at(events, replies, place) {
            Some(row) => println!(rt; "{row}")?,
            None => println!(rt; "lost")?,
        }
    }
    Ok(())
}
