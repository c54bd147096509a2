//! What a line of a script says.

use crate::steps::Step;
use app_message::Message;
use site_base::{Actor, Event, FpNo};

/// What a line of a script says.
#[derive(Debug, Drop)]
pub enum Line {
    /// Nothing: it is empty, or a comment.
    Skipped,
    /// The section of a till begins.
    Till,
    /// The section of a dispenser begins: its point, and how often the dispenser may look at it
    /// while it waits.
    Dispenser(FpNo, u64),
    /// A call of the setup.
    Call(Actor, Event),
    /// A message of a till's session.
    Message(Message),
    /// A step of a dispenser.
    Step(Step),
}
