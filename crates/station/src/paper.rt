//! What is written before it is sent.

ghost use Rattle.std.specs.Prelude.{◌≡◌, ◌≤◌, ◌++◌, Ok, Some, IfOk, OnOk, length};
ghost use Rattle.station.specs.declared.sizes.TheConstants.{NOTICE_OCTETS};
ghost use Rattle.app_message.specs.Spelling.{spelling};
ghost use Rattle.conversation.specs.Saying.{said_message};
ghost use Rattle.device_map.specs.Changes.{change_by};
ghost use Rattle.device_map.specs.Replies.{fault_message};
ghost use Rattle.peer_talk.specs.Text.{is_same_node};
ghost use Rattle.station.specs.Notices.{events_text, notice_at, octets_of, standing_text};
ghost use Rattle.station.specs.Papers.{IsChangeTo};
ghost use Rattle.station.specs.Standing.{release_of, standing_events, stop_of};

use app_message::{Message, StreamFault, encode_into};
use conversation::Said;
use device_map::change_of;
use peer_talk::ReplyWriter;
use site_base::{Actor, Answer, Event, FpNo, NoMemory, PointState, PointView, Row};
use site_book::SiteBook;
use std::alloc::Global;

/// A writer of replies, and two buffers that stay: for the octets that a peer will be sent, and for
/// a notice.
#[derive(Drop)]
pub struct Paper {
    alloc: Global,
    writer: ReplyWriter,
    pub(crate) text: Vec<u8>,
    pub(crate) notice: Vec<u8>,
    ghost short: { length notice.items ≤ NOTICE_OCTETS },
}

impl Paper {
    /// Empty buffers. It takes no memory.
    pub(crate) fn new(alloc: Global) -> Paper {
        Paper {
            alloc,
            writer: ReplyWriter::new(alloc),
            text: Vec::new(alloc),
            notice: Vec::new(alloc),
        }
    }

    /// The text is what is said to a message.
    pub(crate) fn write_said(&mut self, message: &Message, said: &Said) -> Result<(), NoMemory>
        ensures { OnOk result (self.new.text.items ≡ spelling (said_message message.now said.now)) }
    {
        let reply = said.write(&mut self.writer, &message.as_spelled())?;
        self.write(reply)
    }

    /// The text is why a stream ended.
    pub(crate) fn write_fault(&mut self, fault: &StreamFault) -> Result<(), NoMemory>
        ensures { OnOk result (self.new.text.items ≡ spelling (fault_message fault.now)) }
    {
        let refusal = self.writer.write_fault(fault)?;
        self.write(refusal)
    }

    /// The text is a message.
    fn write(&mut self, message: Message) -> Result<(), NoMemory>
        ensures { OnOk result (self.new.text.items ≡ spelling message) }
    {
        encode_into(&message, &mut self.text)?;
        self.writer.give_back(message);
        Ok(())
    }

    /// Writes the standing notices of the peer at a node behind the text: what stands at the point
    /// whose dispenser it is.
    pub(crate) fn add_standing(&mut self, book: &SiteBook, node: [u8; 2]) -> Result<(), NoMemory>
        ensures { OnOk result (self.new.text.items
            ≡ self.old.text.items ++ standing_text book.now node) }
    {
        match FpNo::new(node[1]) {
            None => Ok(()),
            Some(p) => match book.point(p) {
                None => Ok(()),
                Some(view) => self.add_view(node, p, &view),
            },
        }
    }

    /// Writes what stands at a point, as its dispenser is told it.
    fn add_view(&mut self, node: [u8; 2], p: FpNo, view: &PointView) -> Result<(), NoMemory>
        ensures { OnOk result (self.new.text.items
            ≡ self.old.text.items ++ events_text node (standing_events p view.now)) }
    {
        match view.state {
            PointState::Inoperative | PointState::Closed => Ok(()),
            PointState::Idle | PointState::Calling => self.add_change(node, p, Event::Open(p)),
            PointState::Authorised | PointState::Started | PointState::Fuelling => {
                self.add_change(node, p, Event::Open(p))?;
                self.add_change(node, p, release_of(p, view))
            }
            PointState::SuspendedStarted | PointState::SuspendedFuelling => {
                self.add_change(node, p, Event::Open(p))?;
                self.add_change(node, p, release_of(p, view))?;
                self.add_change(node, p, stop_of(p, view))
            }
        }
    }

    /// Writes the change of an accepted event behind the text, if it goes to this node.
    fn add_change(&mut self, node: [u8; 2], p: FpNo, event: Event) -> Result<(), NoMemory>
        ensures { OnOk result (self.new.text.items ≡ self.old.text.items
            ++ octets_of (notice_at (change_by event) (Some node))) }
    {
        match self.write_change(p, event)? {
            None => {}
            Some(to) => {
                if is_same_node(node, to) {
                    self.text.extend_from_slice(&self.notice)?;
                }
            }
        }
        Ok(())
    }

    /// The notice is the change of an accepted event, and the node that it goes to is answered, if
    /// the event has one. The text stays.
    pub(crate) fn write_change(
        &mut self,
        p: FpNo,
        event: Event,
    ) -> Result<Option<[u8; 2]>, NoMemory>
        ensures change { IfOk result (λ to. IsChangeTo (change_by event) to self.new.notice.items) }
        ensures text { self.new.text.items ≡ self.old.text.items }
    {
        let accepted = &Row {
            actor: Actor::Dispenser(p),
            event,
            reply: Ok(Answer::Done),
        };
        match change_of(self.alloc, accepted)? {
            None => Ok(None),
            Some(change) => {
                encode_into(&change, &mut self.notice)?;
                Ok(Some(change.to()))
            }
        }
    }
}

/// Are they the same node?
pub(crate) fn is_same_node(a: [u8; 2], b: [u8; 2]) -> bool
    ensures { result ≡ is_same_node a b }
{
    a[0] == b[0] && a[1] == b[1]
}

/// How a point was released.
fn release_of(p: FpNo, view: &PointView) -> Event
    ensures { result ≡ release_of p view.now }
{
    if view.test {
        return Event::TestRelease(p);
    }
    match view.prepaid {
        Some(cents) => Event::Prepay(p, cents),
        None => Event::Release(p, view.preset),
    }
}

/// How the fuelling at a point was stopped.
fn stop_of(p: FpNo, view: &PointView) -> Event
    ensures { result ≡ stop_of p view.now }
{
    if view.ending {
        Event::Terminate(p)
    } else {
        Event::Suspend(p)
    }
}
