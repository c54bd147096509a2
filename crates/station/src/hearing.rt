//! What a peer's octets do to its session, to the book, and to the peers that listen.

ghost use Rattle.std.specs.Prelude.{◌≡◌, ◌++◌, Bool, None, Some, OnOk, OnErr};
ghost use Rattle.app_message.specs.Spelling.{spelling};
ghost use Rattle.conversation.specs.Saying.{IsAskedFor, meaning_of, said_message, talk_after};
ghost use Rattle.device_map.specs.Replies.{fault_message};
ghost use Rattle.peer_talk.specs.Text.{meaning_at, number_text};
ghost use Rattle.peer_talk.specs.declared.fault.TheConstants.{ORIGINATOR_CHANGED};
ghost use Rattle.station.specs.declared.peer_end.PeerEnd.{PeerEnd};
ghost use Rattle.station.specs.Gates.{admission};
ghost use Rattle.station.specs.Hearing.{Admits, Answers, AnswersAll, AreTold, Hears};
ghost use Rattle.station.specs.Hearing.{IsAskedAmong, among};
ghost use Rattle.station.specs.Hearing.{end_behind, finish_if, turn_of};
ghost use Rattle.station.specs.PeerViews.{session_of};
ghost use Rattle.station.specs.Sessions.{end_session, finish, opening_text, refuse_by};
ghost use Rattle.station.specs.Sessions.{tell_last, without_till};

use crate::asking::AtStation;
use crate::gates::{Admission, Gates};
use crate::paper::Paper;
use crate::peer::Peer;
use crate::peer_end::PeerEnd;
use crate::slots::Slots;
use app_message::{Message, Messages, StreamFault};
use conversation::Said;
use peer_talk::TalkFault;
use site_base::{NoMemory, TillNo};
use site_book::SiteBook;

/// A peer whose session lasts is heard: the messages that its piece brings are answered, and a
/// fault of its octets is refused. The others that listen are told of the rows.
pub(crate) fn hear(
    peer: &mut Peer,
    book: &mut SiteBook,
    others: &mut Slots,
    paper: &mut Paper,
    messages: &mut Messages,
    gates: &Gates,
    piece: &[u8],
)
    requires { peer.old.end ≡ None }
    ensures { Hears (admission gates.now others.old peer.old.door) piece.now
        (turn_of book.old peer.old) (turn_of book.new peer.new) others.old
        others.new }
{
    match peer.decoder.feed_into(piece, messages) {
        Err(_) => end_session(peer, book, others, PeerEnd::NoMemory),
        Ok(fault) => {
            admit(peer, book, others, paper, gates, messages.as_slice());
            if let Some(fault) = fault {
                refuse(peer, book, others, paper, &fault);
            }
        }
    }
}

/// Answers messages, one after another; the first one of a session only if its originator is
/// admitted.
fn admit(
    peer: &mut Peer,
    book: &mut SiteBook,
    others: &mut Slots,
    paper: &mut Paper,
    gates: &Gates,
    messages: &[Message],
)
    ensures { Admits (admission gates.now others.old peer.old.door) messages.now
        (turn_of book.old peer.old) (turn_of book.new peer.new) others.old
        others.new }
{
    match messages {
        [] => {}
        [first, ..] => match peer.talk.peer() {
            Some(_) => answer_all(peer, book, others, paper, messages),
            None => match gates.admit(others, peer.door, first.from()) {
                Admission::Welcome => answer_all(peer, book, others, paper, messages),
                Admission::Barred => bar(peer, book, others, paper, first),
                Admission::Crowded => {
                    end_session(peer, book, others, PeerEnd::Crowded(first.from()));
                }
            },
        },
    }
}

/// The originator of a first message may not speak there: it is told so, and the session ends.
fn bar(peer: &mut Peer, book: &mut SiteBook, others: &mut Slots, paper: &mut Paper, first: &Message)
    ensures turn { (memory : Bool) × (turn_of book.new peer.new ≡ tell_last memory
        (number_text first.now ORIGINATOR_CHANGED) (PeerEnd.Barred first.now.from)
        (turn_of book.old peer.old)) }
    ensures told { AreTold book.old book.new others.old others.new }
{
    let end = match tell_another(peer, paper, first) {
        Ok(()) => PeerEnd::Barred(first.from()),
        Err(_) => PeerEnd::NoMemory,
    };
    end_session(peer, book, others, end);
}

/// Tells a message that its originator isn't the one that may speak.
fn tell_another(peer: &mut Peer, paper: &mut Paper, message: &Message) -> Result<(), NoMemory>
    ensures ok { OnOk result (session_of peer.new ≡ record (session_of peer.old) {
      owed = peer.old.outbox ++ number_text message.now ORIGINATOR_CHANGED;
    }) }
    ensures err { OnErr result (session_of peer.new ≡ session_of peer.old) }
{
    paper.write_said(message, &Said::Another)?;
    peer.outbox.put(&paper.text)
}

/// Answers messages, one after another, as long as the session lasts.
fn answer_all(
    peer: &mut Peer,
    book: &mut SiteBook,
    others: &mut Slots,
    paper: &mut Paper,
    messages: &[Message],
)
    ensures { AnswersAll messages.now (turn_of book.old peer.old) (turn_of book.new peer.new)
        others.old others.new }
{
    for message in messages {
        if peer.lasts() {
            answer(peer, book, others, paper, message);
        }
    }
}

/// Answers a message of a session that lasts. Without memory for what is said to it the session
/// ends.
fn answer(
    peer: &mut Peer,
    book: &mut SiteBook,
    others: &mut Slots,
    paper: &mut Paper,
    message: &Message,
)
    requires { peer.old.end ≡ None }
    ensures { Answers message.now (turn_of book.old peer.old) (turn_of book.new peer.new)
        others.old others.new }
{
    let before = peer.talk.peer();
    let said = &hear_message(peer, book, others, paper, message);
    match tell(peer, book, paper, message, said, before) {
        Err(_) => end_session(peer, book, others, PeerEnd::NoMemory),
        Ok(()) => end_another(peer, book, others, said),
    }
}

/// Hears a message: the book is asked for a request, and the others that listen are told of its
/// row.
fn hear_message(
    peer: &mut Peer,
    book: &mut SiteBook,
    others: &mut Slots,
    paper: &mut Paper,
    message: &Message,
) -> Said
    ensures means { meaning_of result ≡ meaning_at peer.old.talk.peer message.now }
    ensures talk { session_of peer.new ≡ record (session_of peer.old) {
      talk = talk_after message.now.from result peer.old.talk;
    } }
    ensures asked { IsAskedFor IsAskedAmong (among book.old others.old) result
        (among book.new others.new) }
{
    let mut asks = AtStation {
        book: &mut *book,
        others: &mut *others,
        paper: &mut *paper,
    };
    conversation::hear(&mut peer.talk, &mut asks, message)
}

/// Puts what is said to a message into the peer's outbox, and after the first one the standing
/// notices.
fn tell(
    peer: &mut Peer,
    book: &SiteBook,
    paper: &mut Paper,
    message: &Message,
    said: &Said,
    before: Option<[u8; 2]>,
) -> Result<(), NoMemory>
    ensures ok { OnOk result (session_of peer.new ≡ record (session_of peer.old) {
      owed = peer.old.outbox ++ (spelling (said_message message.now said.now)
          ++ opening_text before message.now.from book.now);
    }) }
    ensures err { OnErr result (session_of peer.new ≡ session_of peer.old) }
{
    paper.write_said(message, said)?;
    if before.is_none() {
        paper.add_standing(book, message.from())?;
    }
    peer.outbox.put(&paper.text)
}

/// A session whose peer was told that another originator spoke ends with that.
fn end_another(peer: &mut Peer, book: &mut SiteBook, others: &mut Slots, said: &Said)
    ensures turn { turn_of book.new peer.new ≡ end_behind said.now (turn_of book.old peer.old) }
    ensures told { AreTold book.old book.new others.old others.new }
{
    if let Said::Another = said {
        end_session(
            peer,
            book,
            others,
            PeerEnd::Talk(TalkFault::OriginatorChanged),
        );
    }
}

/// Refuses a fault of the octets, if the session lasts; it ends with that.
fn refuse(
    peer: &mut Peer,
    book: &mut SiteBook,
    others: &mut Slots,
    paper: &mut Paper,
    fault: &StreamFault,
)
    ensures turn { (memory : Bool) × (turn_of book.new peer.new
        ≡ refuse_by memory (Some fault.now) (turn_of book.old peer.old)) }
    ensures told { AreTold book.old book.new others.old others.new }
{
    if !peer.lasts() {
        return;
    }
    let end = match tell_fault(peer, paper, fault) {
        Ok(()) => PeerEnd::Talk(TalkFault::Stream(fault.fault)),
        Err(_) => PeerEnd::NoMemory,
    };
    end_session(peer, book, others, end);
}

/// Tells a fault of the octets.
fn tell_fault(peer: &mut Peer, paper: &mut Paper, fault: &StreamFault) -> Result<(), NoMemory>
    ensures ok { OnOk result (session_of peer.new ≡ record (session_of peer.old) {
      owed = peer.old.outbox ++ spelling (fault_message fault.now);
    }) }
    ensures err { OnErr result (session_of peer.new ≡ session_of peer.old) }
{
    paper.write_fault(fault)?;
    peer.outbox.put(&paper.text)
}

/// The octets of a session have ended: it ends, inside a message or not, if it lasts.
pub(crate) fn finish(peer: &mut Peer, book: &mut SiteBook, others: &mut Slots)
    ensures turn { turn_of book.new peer.new ≡ finish_if (turn_of book.old peer.old) }
    ensures told { AreTold book.old book.new others.old others.new }
{
    if peer.lasts() {
        finish_lasting(peer, book, others);
    }
}

/// The octets of a session that lasts have ended: it ends.
fn finish_lasting(peer: &mut Peer, book: &mut SiteBook, others: &mut Slots)
    ensures turn { turn_of book.new peer.new ≡ finish (turn_of book.old peer.old) }
    ensures told { AreTold book.old book.new others.old others.new }
{
    let end = if peer.decoder.held() > 0 {
        PeerEnd::Talk(TalkFault::Truncated)
    } else {
        PeerEnd::Well
    };
    end_session(peer, book, others, end);
}

/// A session ends so, and the till that it signed on and didn't sign off is signed off.
fn end_session(peer: &mut Peer, book: &mut SiteBook, others: &mut Slots, end: PeerEnd)
    ensures turn { turn_of book.new peer.new ≡ end_session end (turn_of book.old peer.old) }
    ensures told { AreTold book.old book.new others.old others.new }
{
    peer.end = Some(end);
    if let Some(till) = peer.talk.till() {
        sign_off(book, others, till);
    }
}

/// A till is signed off, where it is signed on, and those of these that had signed it on forget
/// that.
pub(crate) fn sign_off(book: &mut SiteBook, others: &mut Slots, till: TillNo)
    ensures book { book.new ≡ without_till (Some till) book.old }
    ensures told { AreTold book.old book.new others.old others.new }
{
    if book.sign_off(till).is_some() {
        others.forget_till(till);
    }
}
