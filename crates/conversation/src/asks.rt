//! What a conversation asks.

ghost use Rattle.std.specs.Prelude.{◌≡◌};
ghost use Rattle.conversation.specs.Asking.{outcome_of};

use device_map::MapFault;
use site_base::{NoRow, Reply, Row};
use site_book::SiteBook;

/// What answers requests: a book, a desk, or a station's book, which notifies other peers.
pub trait Asks {
    ghost use Rattle.std.specs.Prelude.{◌≡◌};
    ghost use Rattle.site_base.specs.declared.actor.Actor.{Actor};
    ghost use Rattle.site_base.specs.declared.event.Event.{Event};
    ghost use Rattle.peer_talk.specs.Exchanges.{Outcome};
    ghost use Rattle.conversation.specs.Asking.{outcome_of};

    // What is seen of it; of one that borrows, what it borrows and the borrow's name.
    ghost Seen: { Type 0 };

    ghost seen: { Self → Seen };

    // The request of an actor, asked so, had this outcome, and led from one state to the other.
    ghost asked: { Seen → Actor → Event → Outcome → Seen → Type 0 };

    /// Asks for the event of a row by its actor, and fills in the site's reply. Or returns why
    /// there is no row.
    fn ask(&mut self, row: &mut Row) -> Result<(), NoRow>
        ensures asked { asked (seen self.old) row.old.actor row.old.event
            (outcome_of row.new result) (seen self.new) }
        ensures request { row.new ≡ record row.old { reply = row.new.reply } };
}

/// Why a message has no row, whoever sent it.
#[derive(Clone, Copy, Debug, PartialEq, Eq)]
pub enum NoReply {
    /// It means no event.
    Fault(MapFault),
    /// Its request made no row.
    NoRow(NoRow),
}

impl Asks for SiteBook {
    ghost use Rattle.site_book.specs.Book.{Book};
    ghost use Rattle.conversation.specs.Books.{IsAskedOf};

    ghost Seen = { Book };

    ghost seen = { λ b. b };

    ghost asked = { IsAskedOf };

    #[inline(always)]
    fn ask(&mut self, row: &mut Row) -> Result<(), NoRow> {
        self.answer(row)
    }
}

/// Fills in the reply of a row's request that had this outcome. Or returns why there is no row.
pub fn fill(row: &mut Row, outcome: &Result<Reply, NoRow>) -> Result<(), NoRow>
    ensures outcome { outcome_of row.new result ≡ outcome.now }
    ensures request { row.new ≡ record row.old { reply = row.new.reply } }
{
    match outcome {
        Ok(reply) => {
            row.reply = *reply;
            Ok(())
        }
        Err(no_row) => Err(*no_row),
    }
}
