//! Who is signed on, by the replies.

ghost use Rattle.std.specs.Prelude.{◌≡◌};
ghost use Rattle.site_base.specs.SignChanges.{sign_change};

use crate::actor::Actor;
use crate::event::Event;
use crate::numbers::TillNo;
use crate::row::Reply;

/// A change of who is signed on.
#[derive(Clone, Copy, Debug, PartialEq, Eq)]
pub enum SignChange {
    /// The till is signed on from now on.
    On(TillNo),
    /// The till is signed off from now on.
    Off(TillNo),
}

/// Returns what the reply to an actor's event changes of who is signed on: an accepted SignOn signs
/// its till on, an accepted SignOff signs it off, and nothing else changes it.
pub fn sign_change(actor: &Actor, event: &Event, reply: &Reply) -> Option<SignChange>
    ensures { result ≡ sign_change actor.now event.now reply.now }
{
    match (actor, event, reply) {
        (Actor::Till(t), Event::SignOn, Ok(_)) => Some(SignChange::On(*t)),
        (Actor::Till(t), Event::SignOff, Ok(_)) => Some(SignChange::Off(*t)),
        _ => None,
    }
}
