//! The counter of a desk: it passes what a session asks to the desk's lock, through one share.

ghost use Rattle.std.specs.Prelude.{◌≡◌, ◌++◌, ℕ, map};
ghost use Rattle.counter_desk.specs.Receipts.{receipted_row};
ghost use Rattle.peer_talk.specs.Exchanges.{row_made};
ghost use Rattle.till_session.specs.Counters.{owed_by};
ghost use Rattle.till_session.specs.DeskCounters.{is_owed_by, IsTill};

use crate::counter::Counter;
use counter_desk::{Desk, Gate, Naming, Share};
use site_base::{Actor, Event, NoRow, Reply, TillNo};
use std::sync::Wait;
use std::sync::ledger::Ledger;

/// What a session asks of a desk. Each request is submitted through the share, between the gate's
/// two calls; the second one is made once the reply was written. The counter's record is that of
/// the share's receipts, and it owes what the share owes.
#[derive(Drop)]
pub struct DeskCounter<'a, L: Ledger, C: Naming, G: Gate, R: Wait> {
    rt: &'a R,
    desk: &'a Desk<L, C>,
    share: &'a mut Share<L, C>,
    gate: &'a G,
}

impl<'a, L: Ledger, C: Naming, G: Gate, R: Wait> DeskCounter<'a, L, C, G, R> {
    /// Returns a counter of this desk, with this share and this gate. Its record is that of the
    /// share's receipts, and it owes what the share owes.
    pub fn new(
        rt: &'a R,
        desk: &'a Desk<L, C>,
        share: &'a mut Share<L, C>,
        gate: &'a G,
    ) -> DeskCounter<'a, L, C, G, R>
        ensures rows { ⟦<DeskCounter<'a, L, C, G, R> as Counter>⟧.rows result
            ≡ map receipted_row share.old.receipts }
        ensures owes { (t : ℕ) → ⟦<DeskCounter<'a, L, C, G, R> as Counter>⟧.owes result t
            ≡ is_owed_by share.old t }
    {
        DeskCounter {
            rt,
            desk,
            share,
            gate,
        }
    }
}

impl<'a, L: Ledger, C: Naming, G: Gate, R: Wait> Counter for DeskCounter<'a, L, C, G, R> {
    ghost rows = { λ c. map receipted_row c.share.now.receipts };

    ghost owes = { λ c. is_owed_by c.share.now };

    fn ask(&mut self, actor: Actor, event: Event) -> Result<Reply, NoRow> {
        self.gate.before_lock(actor);
        submit(self.rt, self.desk, self.share, &actor, &event)
    }

    fn note_written(&mut self, actor: Actor) {
        self.gate.after_reply(actor);
    }

    fn leave(&mut self, till: TillNo) {
        let _ = self.desk.leave(self.rt, self.share, till);
    }
}

/// Submits a request, and answers its reply, or why there is no row.
fn submit<L: Ledger, C: Naming, R: Wait>(
    rt: &R,
    desk: &Desk<L, C>,
    share: &mut Share<L, C>,
    actor: &Actor,
    event: &Event,
) -> Result<Reply, NoRow>
    ensures rows { map receipted_row share.new.receipts
        ≡ map receipted_row share.old.receipts ++ row_made actor.now event.now result }
    ensures owes { (t : ℕ) → is_owed_by share.new t
        ≡ owed_by actor.now event.now result (is_owed_by share.old) t }
{
    in_range(actor);
    match &desk.submit(rt, share, *actor, *event) {
        Ok(placed) => Ok(placed.reply),
        Err(no_row) => Err(*no_row),
    }
}

/// A till that acts is one of the site's tills.
fn in_range(actor: &Actor)
    ensures { IsTill actor.now }
{
    if let Actor::Till(t) = actor {
        let _ = t.get();
    }
}
