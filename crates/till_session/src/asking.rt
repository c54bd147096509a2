//! How a conversation asks a counter.

use crate::counter::Counter;
use conversation::{Asks, fill};
use site_base::{NoRow, Row};

/// A counter, as a conversation asks it.
#[derive(Drop)]
pub(crate) struct AtCounter<'a, C: Counter> {
    pub(crate) counter: &'a mut C,
}

impl<'a, C: Counter> Asks for AtCounter<'a, C> {
    ghost use Rattle.std.specs.Prelude.{ℕ};
    ghost use Rattle.conversation.specs.Lending.{Lent};
    ghost use Rattle.till_session.specs.Counters.{Counts, IsAskedAt, counts};

    ghost Seen = { Counts × ℕ };

    ghost seen = { λ a. (
      counts (C.rows a.counter.now) (C.owes a.counter.now),
      a.counter.ghost_name,
    ) };

    ghost asked = { Lent IsAskedAt };

    fn ask(&mut self, row: &mut Row) -> Result<(), NoRow> {
        let outcome = self.counter.ask(row.actor, row.event);
        fill(row, &outcome)
    }
}
