//! Hears a message: asks what it means.

ghost use Rattle.std.specs.Prelude.{◌≡◌};
ghost use Rattle.conversation.specs.Asking.{IsHeard};
ghost use Rattle.conversation.specs.Saying.{IsAskedFor, meaning_of, talk_after};
ghost use Rattle.peer_talk.specs.Talks.{IsOwn};
ghost use Rattle.peer_talk.specs.Text.{meaning_at};

use crate::asks::{Asks, NoReply};
use crate::said::Said;
use app_message::{Message, SpelledMessage};
use device_map::request_in;
use peer_talk::{Meaning, Talk};
use site_base::{Actor, Answer, Event, NoRow, Reply, Row};

/// Hears a message of a talk, which serves the originator of its first message. A request is asked
/// once, and noted. Nothing is asked for a message of another originator, or for one that means no
/// event.
pub fn hear<A: Asks>(talk: &mut Talk, asks: &mut A, message: &Message) -> Said
    ensures means { meaning_of result ≡ meaning_at talk.old.peer message.now }
    ensures talk { talk.new ≡ talk_after message.now.from result talk.old }

    // The type's invariant, for callers' proofs.
    ensures own { IsOwn talk.old.on talk.old.peer }

    ensures asked { IsAskedFor A.asked (A.seen asks.old) result (A.seen asks.new) }
{
    match talk.take_meaning(message) {
        Meaning::Another => Said::Another,
        Meaning::Fault(fault) => Said::Fault(fault),
        Meaning::Request(actor, event) => {
            let outcome = ask(asks, actor, event);
            talk.note(&actor, &event, &outcome);
            Said::Outcome(actor, event, outcome)
        }
    }
}

/// Hears a message of a replay, which serves no single originator. Its request is asked once.
/// Returns its row, or why there is none.
#[inline(always)]
pub fn hear_anyone<A: Asks>(asks: &mut A, message: &SpelledMessage<'_>) -> Result<Row, NoReply>
    ensures { IsHeard A.asked (A.seen asks.old) message.now result (A.seen asks.new) }
{
    let (actor, event) = match request_in(message) {
        Err(fault) => return Err(NoReply::Fault(fault)),
        Ok(request) => request,
    };
    let mut row = Row {
        actor,
        event,
        reply: Ok(Answer::Done),
    };
    match asks.ask(&mut row) {
        Ok(()) => Ok(row),
        Err(no_row) => Err(NoReply::NoRow(no_row)),
    }
}

/// Asks for an event of an actor. Returns the site's reply, with a row, or why there is no row.
#[inline(always)]
pub fn ask<A: Asks>(asks: &mut A, actor: Actor, event: Event) -> Result<Reply, NoRow>
    ensures { A.asked (A.seen asks.old) actor event result (A.seen asks.new) }
{
    let mut row = Row {
        actor,
        event,
        reply: Ok(Answer::Done),
    };
    match asks.ask(&mut row) {
        Ok(()) => Ok(row.reply),
        Err(no_row) => Err(no_row),
    }
}
