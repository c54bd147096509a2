//! Counters: what a session asks.

use site_base::{Actor, Event, NoRow, Reply, TillNo};

/// What a session asks for each request. It has a record, which is the list of rows with which it
/// answered, and it owes tills a sign-off.
pub trait Counter {
    ghost use Rattle.std.specs.Prelude.{◌≡◌, ℕ, Bool, List, ◌++◌, true, false};
    ghost use Rattle.site_base.specs.declared.row.Row.{Row};
    ghost use Rattle.peer_talk.specs.Exchanges.{row_made};
    ghost use Rattle.till_session.specs.Counters.{owed_by, with_debt, IsLeft};

    // The rows with which it answered so far, sign-offs by `leave` too.
    ghost rows: { Self → List Row };

    // Does it owe the till of this number a sign-off?
    ghost owes: { Self → ℕ → Bool };

    /// Asks for one event of one actor. Returns the site's reply, with a row, or why there is no
    /// row. After an accepted SignOn the counter owes the till a sign-off; an accepted SignOff ends
    /// that.
    fn ask(&mut self, actor: Actor, event: Event) -> Result<Reply, NoRow>
        ensures rows { rows self.new ≡ rows self.old ++ row_made actor event result }
        ensures owes { (t : ℕ) → owes self.new t ≡ owed_by actor event result (owes self.old) t };

    /// Notes that the reply to this actor was written.
    fn note_written(&mut self, actor: Actor)
        ensures rows { rows self.new ≡ rows self.old }
        ensures owes { (t : ℕ) → owes self.new t ≡ owes self.old t };

    /// Signs off a till to which the counter owes it: with a row, or without one if the till isn't
    /// signed on any more.
    fn leave(&mut self, till: TillNo)
        requires { owes self.old till ≡ true }
        ensures rows { IsLeft till (rows self.old) (rows self.new) }
        ensures owes { (t : ℕ) → owes self.new t ≡ with_debt till false (owes self.old) t };
}
