//! Gates, which a worker passes before and after each call.

use site_base::Actor;

/// What a worker passes on its way to the site and back. A test may hold workers there; otherwise
/// it is open.
pub trait Gate {
    /// Is called before the actor's call takes the lock.
    fn before_lock(&self, actor: Actor);

    /// Is called after the actor's call was answered, even if it made no row.
    fn after_reply(&self, actor: Actor);
}

/// A gate that is always open.
#[derive(Clone, Copy, Debug, PartialEq, Eq)]
pub struct OpenGate;

impl Gate for OpenGate {
    fn before_lock(&self, _actor: Actor) {}

    fn after_reply(&self, _actor: Actor) {}
}
