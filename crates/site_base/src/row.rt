//! The rows of the site's history.

ghost use Rattle.std.specs.Prelude.{◌≡◌};
ghost use Rattle.site_base.specs.Events.{growth_in_reply, cents_in_reply};

use crate::actor::Actor;
use crate::answer::Answer;
use crate::event::Event;
use crate::refusal::Refusal;

/// What the site replies to an event: an answer, or why it refuses.
pub type Reply = Result<Answer, Refusal>;

/// Returns the millilitres that the reply adds to what was metered: the growth of an accepted
/// report.
pub fn growth_in_reply(reply: &Reply) -> u64
    ensures { result ≡ growth_in_reply reply.now }
{
    match reply {
        Ok(Answer::Flowed(growth)) => *growth,
        Ok(Answer::Sold { seq: _, growth }) => *growth,
        Ok(Answer::Drawn { growth }) => *growth,
        _ => 0,
    }
}

/// Returns the cents that the reply clears.
pub fn cents_in_reply(reply: &Reply) -> u64
    ensures { result ≡ cents_in_reply reply.now }
{
    match reply {
        Ok(Answer::Cleared(cents)) => cents.get(),
        _ => 0,
    }
}

/// One row of the history: an event, who caused it, and what the site replied.
#[derive(Clone, Copy, Debug, PartialEq, Eq)]
pub struct Row {
    /// Who caused the event.
    pub actor: Actor,
    /// The event.
    pub event: Event,
    /// What the site replied.
    pub reply: Reply,
}

/// A reply, and the place of its row in the history, counted from 0.
#[derive(Clone, Copy, Debug, PartialEq, Eq)]
pub struct Placed {
    /// The place of the row.
    pub place: u64,
    /// The reply.
    pub reply: Reply,
}
