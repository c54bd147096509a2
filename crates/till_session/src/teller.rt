//! What a session says: each message is answered before it looks at the next one.

ghost use Rattle.std.specs.Prelude.{◌≡◌, ◌≤◌, ◌++◌, ℕ, true, [], ◌∷◌, IfOk, OnOk, IfErr, IsErr};
ghost use Rattle.std.specs.Result.{IsErrOf, result_err};
ghost use Rattle.std.specs.Io.KnownBytes.{Appends};
ghost use Rattle.devices.specs.Counted.{device_of, failures_of};
ghost use Rattle.devices.specs.Devices.{AppendsFront, Rose};
ghost use Rattle.app_message.specs.Spelling.{spelling};
ghost use Rattle.conversation.specs.Saying.{IsAskedFor, meaning_of, talk_after};
ghost use Rattle.device_map.specs.Replies.{fault_message};
ghost use Rattle.peer_talk.specs.Talks.{IsOwn, opening_talk};
ghost use Rattle.peer_talk.specs.Text.{meaning_at};
ghost use Rattle.till_session.specs.Counters.{IsAskedAt, counts};
ghost use Rattle.till_session.specs.Course.{EndsStream, Talked, ends_early, ends_talk};

use crate::asking::AtCounter;
use crate::counter::Counter;
use crate::fault::SessionFault;
use app_message::{Message, StreamFault, encode_into};
use conversation::{Said, hear};
use devices::{Counted, WriteFault, write_whole};
use peer_talk::{ReplyWriter, Talk, TalkFault};
use site_base::TillNo;
use std::alloc::Global;
use std::io::Write;
use std::marker::Model;

/// What answers a session's messages: the talk with its peer, what writes its replies, and the
/// octets of the last one, whose room serves again.
#[derive(Drop)]
pub(crate) struct Teller {
    talk: Talk,
    writer: ReplyWriter,
    text: Vec<u8>,
}

impl Model for Teller {
    ghost use Rattle.peer_talk.specs.Talks.{TalkState};

    ghost Value = { TalkState };

    ghost view = { λ t. t.talk };
}

impl Teller {
    /// Before the first message. It takes no memory.
    pub(crate) fn new(alloc: Global) -> Teller
        ensures { result ≡ opening_talk }
    {
        Teller {
            talk: Talk::new(),
            writer: ReplyWriter::new(alloc),
            text: Vec::new(alloc),
        }
    }

    /// The till that was signed on and not signed off: the one that the session serves.
    pub(crate) fn till(&self) -> Option<TillNo>
        ensures { result ≡ self.now.on }
    {
        self.talk.till()
    }

    /// The number of requests asked.
    pub(crate) fn request_count(&self) -> u64
        ensures { result ≡ self.now.asked }
    {
        self.talk.request_count()
    }

    /// Answers messages, in order, each whole before the next one is looked at. It ends at a
    /// message of another originator, where an allocation fails, or where the writer takes no more.
    pub(crate) fn hear<C: Counter, W: Write>(
        &mut self,
        counter: &mut C,
        writer: &mut Counted<W>,
        messages: &[Message],
        turns: &mut u64,
    ) -> Result<(), SessionFault>
        ensures talked { Talked (result_err result) self.old self.new messages.now
            (W.contents (device_of writer.old)) (W.contents (device_of writer.new))
            (C.rows counter.old) (C.rows counter.new) (C.owes counter.old) (C.owes counter.new) }
        ensures ends { IfErr result (λ fault. ends_talk fault ≡ true) }
        ensures counted { OnOk result (failures_of writer.new ≡ failures_of writer.old) }
        ensures failed { IsErrOf result (SessionFault.Write WriteFault.Failed)
            → Rose (failures_of writer.old) (failures_of writer.new) }
        ensures turns { turns.new ≤ turns.old }
    {
        for message in messages {
            self.answer(counter, writer, message, turns)?;
        }
        Ok(())
    }

    /// Tells why the octets are at fault; the session ends with that.
    pub(crate) fn refuse_stream<W: Write>(
        &mut self,
        writer: &mut Counted<W>,
        fault: &StreamFault,
        turns: &mut u64,
    ) -> Result<(), SessionFault>
        ensures same { self.new ≡ self.old }
        ensures front { AppendsFront (W.contents (device_of writer.old))
            (W.contents (device_of writer.new))
            (spelling (fault_message fault.now)) }
        ensures ends { IfErr result (λ e. EndsStream fault.now e
            (W.contents (device_of writer.old)) (W.contents (device_of writer.new))) }
        ensures never_well { IsErr result }
        ensures failed { IsErrOf result (SessionFault.Write WriteFault.Failed)
            → Rose (failures_of writer.old) (failures_of writer.new) }
        ensures turns { turns.new ≤ turns.old }
    {
        let refusal = self.writer.write_fault(fault)?;
        self.tell(writer, refusal, turns)?;
        Err(SessionFault::Talk(TalkFault::Stream(fault.fault)))
    }

    /// Answers a message: it is heard, and what is said to it is written whole. One of another
    /// originator than the first one's ends the session with that.
    fn answer<C: Counter, W: Write>(
        &mut self,
        counter: &mut C,
        writer: &mut Counted<W>,
        message: &Message,
        turns: &mut u64,
    ) -> Result<(), SessionFault>
        ensures talked { Talked (result_err result) self.old self.new (message.now ∷ [])
            (W.contents (device_of writer.old)) (W.contents (device_of writer.new))
            (C.rows counter.old) (C.rows counter.new) (C.owes counter.old) (C.owes counter.new) }
        ensures ends { IfErr result (λ fault. ends_talk fault ≡ true) }
        ensures counted { OnOk result (failures_of writer.new ≡ failures_of writer.old) }
        ensures failed { IsErrOf result (SessionFault.Write WriteFault.Failed)
            → Rose (failures_of writer.old) (failures_of writer.new) }
        ensures turns { turns.new ≤ turns.old }
    {
        let said = &self.hear_message(counter, message);
        let reply = said.write(&mut self.writer, &message.as_spelled())?;
        self.tell(writer, reply, turns)?;
        match said {
            Said::Another => Err(SessionFault::Talk(TalkFault::OriginatorChanged)),
            Said::Fault(_) => Ok(()),
            Said::Outcome(actor, _, _) => {
                counter.note_written(*actor);
                Ok(())
            }
        }
    }

    /// Hears a message: the counter is asked for a request.
    fn hear_message<C: Counter>(&mut self, counter: &mut C, message: &Message) -> Said
        ensures means { meaning_of result ≡ meaning_at self.old.peer message.now }
        ensures talk { self.new ≡ talk_after message.now.from result self.old }
        ensures own { IsOwn self.old.on self.old.peer }
        ensures asked { IsAskedFor IsAskedAt
            (counts (C.rows counter.old) (C.owes counter.old)) result
            (counts (C.rows counter.new) (C.owes counter.new)) }
    {
        let mut asks = AtCounter {
            counter: &mut *counter,
        };
        hear(&mut self.talk, &mut asks, message)
    }

    /// Writes the whole message.
    pub(crate) fn tell<W: Write>(
        &mut self,
        writer: &mut Counted<W>,
        message: Message,
        turns: &mut u64,
    ) -> Result<(), SessionFault>
        ensures same { self.new ≡ self.old }
        ensures ok { OnOk result
            (Appends (W.contents (device_of writer.old)) (W.contents (device_of writer.new))
            (spelling message)) }
        ensures front { AppendsFront (W.contents (device_of writer.old))
            (W.contents (device_of writer.new))
            (spelling message) }
        ensures ends { IfErr result (λ fault. ends_early fault ≡ true) }
        ensures counted { OnOk result (failures_of writer.new ≡ failures_of writer.old) }
        ensures failed { IsErrOf result (SessionFault.Write WriteFault.Failed)
            → Rose (failures_of writer.old) (failures_of writer.new) }
        ensures turns { turns.new ≤ turns.old }
    {
        encode_into(&message, &mut self.text)?;
        write_whole(writer, &self.text, turns)?;
        self.writer.give_back(message);
        Ok(())
    }
}
