//! Actors and events, read from the words in which they are written: those of the program, and `+5`
//! for a reading or a number that is 5 more than the one that was named before.

use anyhow::bail;
use forecourt_engines::words::{WordFault, read_request, split_words};
use site_base::{Actor, Event, FpNo, Millilitres, SaleId, Seq, ShiftNo, TillNo};
use std::alloc::Global;

/// The reading and the number of a sale that events named last. A number after a `+` is counted
/// from there, so that a repeated paragraph continues where it ended.
#[derive(Clone, Copy)]
pub struct LastNamed {
    reading: u64,
    seq: u16,
}

impl LastNamed {
    /// Returns that nothing is named yet.
    pub fn new() -> LastNamed {
        LastNamed { reading: 0, seq: 0 }
    }

    /// Returns the event that a line says now, and notes what it names; None if a number is out of
    /// its range.
    pub fn next(&mut self, said: &Said) -> Option<(Actor, Event)> {
        let event = if said.counts {
            self.count_from_last(&said.event)?
        } else {
            said.event
        };
        if let Some(reading) = event.reading() {
            self.reading = reading.get();
        }
        if let Some(sale) = event.sale() {
            self.seq = sale.seq.get();
        }
        Some((said.actor, event))
    }

    /// The event whose reading or number is counted from the one named last.
    fn count_from_last(&self, event: &Event) -> Option<Event> {
        if let Some(more) = event.reading() {
            let reading = Millilitres::new(self.reading.checked_add(more.get())?)?;
            return with_reading(event, reading);
        }
        let sale = event.sale()?;
        let shift = sale.shift;
        let seq = Seq::new(self.seq.checked_add(sale.seq.get())?.checked_sub(1)?)?;
        with_sale(event, SaleId { shift, seq })
    }
}

/// What a line says. If it counts, its reading, or its number less 1, is added to the one that was
/// named last.
#[derive(Clone, Copy)]
pub struct Said {
    actor: Actor,
    event: Event,
    counts: bool,
}

/// An event of a meter with another reading.
fn with_reading(event: &Event, reading: Millilitres) -> Option<Event> {
    match event {
        Event::ReplaceMeter(p, n, _) => Some(Event::ReplaceMeter(*p, *n, reading)),
        Event::Lift(p, n, _) => Some(Event::Lift(*p, *n, reading)),
        Event::Flow(p, n, _) => Some(Event::Flow(*p, *n, reading)),
        Event::HangUp(p, n, _) => Some(Event::HangUp(*p, *n, reading)),
        _ => None,
    }
}

/// An event of a sale, of another one.
fn with_sale(event: &Event, sale: SaleId) -> Option<Event> {
    match event {
        Event::Lock(p, _) => Some(Event::Lock(*p, sale)),
        Event::Unlock(p, _) => Some(Event::Unlock(*p, sale)),
        Event::Clear(p, _) => Some(Event::Clear(*p, sale)),
        Event::ReadTransaction(p, _) => Some(Event::ReadTransaction(*p, sale)),
        _ => None,
    }
}

/// Returns the till with this number.
pub fn till_of(word: &str) -> Option<TillNo> {
    TillNo::new(word.parse().ok()?)
}

/// Returns the fuelling point with this number.
pub fn point_of(word: &str) -> Option<FpNo> {
    FpNo::new(word.parse().ok()?)
}

/// Returns the shift with this number.
pub fn shift_of(word: &str) -> Option<ShiftNo> {
    ShiftNo::new(word.parse().ok()?)
}

/// Reads what a line says.
pub fn read_said(alloc: Global, text: &str) -> anyhow::Result<Said> {
    let Some((front, more)) = text.split_once('+') else {
        let (actor, event) = read_words(alloc, text)?;
        let counts = false;
        return Ok(Said {
            actor,
            event,
            counts,
        });
    };
    let more: u64 = more.parse()?;
    // A sale's number is 1 at least.
    let more = match front.strip_suffix('@') {
        Some(_) => more,
        None => more.saturating_add(1),
    };
    let (actor, event) = read_words(alloc, &format!(in alloc; "{front}{more}")?)?;
    let counts = true;
    Ok(Said {
        actor,
        event,
        counts,
    })
}

/// The actor and the event that words say.
fn read_words(alloc: Global, text: &str) -> anyhow::Result<(Actor, Event)> {
    let words = split_words(alloc, text.as_bytes())?;
    match read_request(words.as_slice()) {
        Ok(said) => Ok(said),
        Err(wrong) => {
            let line = text.as_bytes();
            bail!("no such line: {text}: {}", WordFault { line, wrong })
        }
    }
}

/// Returns the sale in a word: `3/1` is sale 1 of point 3 in the open shift, `3/2/1` that of shift
/// 2.
pub fn sale_named(word: &str) -> Option<(FpNo, SaleId)> {
    let (point, sale) = word.split_once('/')?;
    let point = point_of(point)?;
    let (shift, seq) = match sale.split_once('/') {
        None => (None, sale),
        Some((shift, seq)) => (Some(shift_of(shift)?), seq),
    };
    let seq = Seq::new(seq.parse().ok()?)?;
    Some((point, SaleId { shift, seq }))
}
