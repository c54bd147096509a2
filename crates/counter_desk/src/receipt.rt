//! Receipts: what an actor was answered, and at which place of the history its row is.

ghost use Rattle.std.specs.Prelude.{◌≡◌, ◌+◌, ◌*◌, ◌<◌, ◌≤◌, ◌↔◌, [], ◌∷◌, ◌++◌, length, slice_get};
ghost use Rattle.std.specs.Prelude.{IsTrue, OnOk};
ghost use Rattle.site_base.specs.declared.config.TheConstants.{GREATEST_ROWS};
ghost use Rattle.site_base.specs.declared.amounts.TheConstants.{GREATEST_CENTS};
ghost use Rattle.site_base.specs.declared.limits.TheConstants.{TILLS};
ghost use Rattle.site_base.specs.declared.amounts.TheConstants.{GROWTH_LIMIT};
ghost use Rattle.site_base.specs.Events.{cents_in_reply, growth_in_reply};
ghost use Rattle.counter_desk.specs.Receipts.{cents_receipted, growth_receipted, receipt_at};
ghost use Rattle.counter_desk.specs.Receipts.{receipted_row};

use site_base::{Actor, Answer, Event, NoMemory, Reply, Row, cents_in_reply, growth_in_reply};
use site_book::Rows;
use std::alloc::Global;
use std::marker::Model;

/// What an actor was answered for one event: the row of the history at this place.
#[derive(Clone, Copy, Debug, PartialEq, Eq)]
pub struct Receipt {
    /// The place of the row, counted from 0.
    pub place: u64,
    /// Who caused the event.
    pub actor: Actor,
    /// The event.
    pub event: Event,
    /// What the site replied.
    pub reply: Reply,
}

impl Receipt {
    /// Does it tell of this row?
    pub(crate) fn is_of(&self, row: &Row) -> bool
        ensures same { IsTrue result → row.now ≡ receipted_row self.now }
        ensures found { row.now ≡ receipted_row self.now → IsTrue result }
    {
        is_actor(&row.actor, &self.actor)
            && is_event(&row.event, &self.event)
            && is_reply(&row.reply, &self.reply)
    }
}

/// The same actor?
fn is_actor(actor: &Actor, other: &Actor) -> bool
    ensures same { IsTrue result → actor.now ≡ other.now }
    ensures found { actor.now ≡ other.now → IsTrue result }
{
    actor == other
}

/// The same event?
fn is_event(event: &Event, other: &Event) -> bool
    ensures same { IsTrue result → event.now ≡ other.now }
    ensures found { event.now ≡ other.now → IsTrue result }
{
    event == other
}

/// The same reply?
fn is_reply(reply: &Reply, other: &Reply) -> bool
    ensures same { IsTrue result → reply.now ≡ other.now }
    ensures found { reply.now ≡ other.now → IsTrue result }
{
    reply == other
}

/// A list of receipts that only grows, with their amounts, and the room that is reserved for more
/// of them: their rows, kept as a book keeps them, and the places of these.
#[derive(Drop)]
pub(crate) struct Receipts {
    places: Vec<u64>,
    rows: Rows,
    // For so many more receipts there is room in both lists.
    room: usize,
    cents: u64,
    millilitres: u64,
}

impl Model for Receipts {
    ghost use Rattle.std.specs.Prelude.{◌-◌, vec_len, vec_capacity};
    ghost use Rattle.counter_desk.specs.Receipts.{ReceiptList, AreReceiptsKept, receipts_at};

    ghost Value = { ReceiptList };

    ghost view = { λ l. record {
      receipts = receipts_at l.places.items l.rows.rows;
      room = l.room;
    } };

    ghost invariant = { λ l. AreReceiptsKept l.places.items l.rows l.room
        (vec_capacity l.places - vec_len l.places) l.cents l.millilitres };
}

impl Receipts {
    /// No receipts. It takes no memory.
    pub(crate) fn new(alloc: Global) -> Self
        ensures { result.receipts ≡ [] }
    {
        Receipts {
            places: Vec::new(alloc),
            rows: Rows::new(alloc),
            room: 0,
            cents: 0,
            millilitres: 0,
        }
    }

    /// How many receipts there are.
    pub(crate) fn len(&self) -> usize
        ensures { result ≡ length self.now.receipts }
    {
        self.places.len()
    }

    /// The receipt at an index.
    pub(crate) fn get(&self, index: usize) -> Option<Receipt>
        ensures { result ≡ slice_get self.now.receipts index }
    {
        let place = self.places.get(index)?;
        let row = &self.rows.get(index)?;
        Some(Receipt {
            place: *place,
            actor: row.actor,
            event: row.event,
            reply: row.reply,
        })
    }

    /// The cents that they tell as cleared.
    pub(crate) fn cents(&self) -> u64
        ensures value { result ≡ cents_receipted self.now.receipts }
        ensures few { result ≤ length self.now.receipts * GREATEST_CENTS }
    {
        self.cents
    }

    /// The millilitres that they tell as metered.
    pub(crate) fn millilitres(&self) -> u64
        ensures value { result ≡ growth_receipted self.now.receipts }
        ensures few { result ≤ length self.now.receipts * GROWTH_LIMIT }
    {
        self.millilitres
    }

    /// Makes room for this many more receipts.
    pub(crate) fn reserve(&mut self, additional: usize) -> Result<(), NoMemory>
        ensures receipts { self.new.receipts ≡ self.old.receipts }
        ensures room { OnOk result (additional ≤ self.new.room) }
        ensures kept { self.old.room ≤ self.new.room }
    {
        if additional > self.room {
            self.places.reserve(additional)?;
            self.rows.reserve(additional)?;
            self.room = additional;
        }
        Ok(())
    }

    /// Adds the receipt of a row at the end, where room is reserved.
    pub(crate) fn push(&mut self, place: u64, row: &Row)
        requires room { 0 < self.old.room }
        requires few { length self.old.receipts ≤ GREATEST_ROWS + TILLS }
        requires growth { growth_in_reply row.now.reply ≤ GROWTH_LIMIT }
        ensures receipts { self.new.receipts ≡ self.old.receipts ++ receipt_at place row.now ∷ [] }
        ensures room { self.new.room + 1 ≡ self.old.room }
    {
        self.cents += cents_of(&row.reply);
        self.millilitres += growth_in_reply(&row.reply);
        self.places.push_reserved(place);
        self.rows.push(row);
        self.room -= 1;
    }
}

/// The cents that the reply clears, which are one amount.
fn cents_of(reply: &Reply) -> u64
    ensures value { result ≡ cents_in_reply reply.now }
    ensures range { result ≤ GREATEST_CENTS }
{
    if let Ok(Answer::Cleared(cents)) = reply {
        let _ = cents.get();
    }
    cents_in_reply(reply)
}
