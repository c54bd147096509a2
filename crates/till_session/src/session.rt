//! Sessions: they read octets and write replies.

ghost use Rattle.std.specs.Prelude.{◌≡◌, ℕ, true, false, Some, None, is_some, IfSome, OnOk};
ghost use Rattle.std.specs.Result.{IsErrOf, result_err};
ghost use Rattle.std.specs.Io.KnownBytes.{IsAtEnd};
ghost use Rattle.devices.specs.Counted.{device_of, failures_of};
ghost use Rattle.devices.specs.Devices.{Rose};
ghost use Rattle.till_session.specs.Counters.{is_the_one};
ghost use Rattle.peer_talk.specs.Talks.{opening_talk};
ghost use Rattle.till_session.specs.Ends.{as_session_fault, Conversed, IsClosed, Served};
ghost use Rattle.peer_talk.specs.Text.{left_over};

use crate::counter::Counter;
use crate::fault::SessionFault;
use crate::teller::Teller;
use app_message::{Decoder, Messages};
use devices::{Counted, PIECE_OCTETS, ReadFault, WriteFault, read_piece};
use peer_talk::TalkFault;
use std::alloc::Global;
use std::io::{Read, Write};

/// How a session ended.
#[derive(Clone, Copy, Debug, PartialEq, Eq)]
pub struct SessionEnd {
    /// Why it ended; None if the octets were read to their end without a fault.
    pub fault: Option<SessionFault>,
    /// The number of requests that were asked, up to the greatest `u64`.
    pub asked: u64,
    /// Was the counter asked to sign off a till?
    pub signed_off: bool,
}

/// A session of one peer.
#[derive(Clone, Copy, Debug, PartialEq, Eq)]
pub struct Session;

impl Session {
    /// Serves one peer: reads its messages, asks the counter for each request, and writes each
    /// reply before it asks for the next request. It serves the originator of the first message. A
    /// message of another originator is refused, and ends it. A message that means no event is
    /// refused, and the session continues; the same is true if the counter has no row for a
    /// request. A fault of the octets is refused, and ends it. It also ends at the end of the
    /// octets, if a growth is refused, if a device fails, and if `turns` are used up: each read
    /// call and each interrupted write call is a turn. However it ends, what was written is a
    /// prefix of the text of what was read, and a till that it signed on and didn't sign off is
    /// signed off.
    pub fn run<R: Read, W: Write, C: Counter>(
        alloc: Global,
        reader: &mut Counted<R>,
        writer: &mut Counted<W>,
        counter: &mut C,
        turns: u64,
    ) -> SessionEnd
        ensures served { Served turns
            (R.remaining (device_of reader.old)) (R.remaining (device_of reader.new))
            (W.contents (device_of writer.old)) (W.contents (device_of writer.new))
            (C.rows counter.old) (C.rows counter.new) result }

        // A counter that owed nobody owes nobody again.
        ensures nobody { ((t : ℕ) → C.owes counter.old t ≡ false) → (t : ℕ)
            → C.owes counter.new t ≡ false }

        ensures end { result.fault ≡ None → IsAtEnd (R.remaining (device_of reader.new)) }
        ensures no_turns { turns ≡ 0 → result.fault ≡ Some (SessionFault.Read ReadFault.TurnLimit) }
        ensures read_failed { result.fault ≡ Some (SessionFault.Read ReadFault.Failed)
            → Rose (failures_of reader.old) (failures_of reader.new) }
        ensures write_failed { result.fault ≡ Some (SessionFault.Write WriteFault.Failed)
            → Rose (failures_of writer.old) (failures_of writer.new) }
    {
        let mut teller = Teller::new(alloc);
        let fault = converse(alloc, &mut teller, reader, writer, counter, turns).err();
        let signed_off = leave_till(&teller, counter);
        SessionEnd {
            fault,
            asked: teller.request_count(),
            signed_off,
        }
    }
}

/// Leaves the till that was signed on and not signed off, and says whether there is one.
fn leave_till<C: Counter>(teller: &Teller, counter: &mut C) -> bool
    requires { IfSome teller.now.on (λ t. C.owes counter.old t ≡ true) }
    ensures left { result ≡ is_some teller.now.on }
    ensures rows { IsClosed teller.now.on (C.rows counter.old) (C.rows counter.new) }
    ensures nobody { ((t : ℕ) → C.owes counter.old t ≡ is_the_one teller.now.on t)
        → (t : ℕ) → C.owes counter.new t ≡ false }
{
    match teller.till() {
        Some(till) => {
            counter.leave(till);
            true
        }
        None => false,
    }
}

/// Reads piece after piece, and answers the messages that end in each.
fn converse<R: Read, W: Write, C: Counter>(
    alloc: Global,
    teller: &mut Teller,
    reader: &mut Counted<R>,
    writer: &mut Counted<W>,
    counter: &mut C,
    mut turns: u64,
) -> Result<(), SessionFault>
    requires { teller.old ≡ opening_talk }
    ensures conversed { Conversed turns (result_err result) teller.new
        (R.remaining (device_of reader.old)) (R.remaining (device_of reader.new))
        (W.contents (device_of writer.old)) (W.contents (device_of writer.new))
        (C.rows counter.old) (C.rows counter.new) (C.owes counter.old) (C.owes counter.new) }
    ensures end { OnOk result (IsAtEnd (R.remaining (device_of reader.new))) }
    ensures no_turns { turns ≡ 0 → IsErrOf result (SessionFault.Read ReadFault.TurnLimit) }
    ensures read_failed { IsErrOf result (SessionFault.Read ReadFault.Failed)
        → Rose (failures_of reader.old) (failures_of reader.new) }
    ensures write_failed { IsErrOf result (SessionFault.Write WriteFault.Failed)
        → Rose (failures_of writer.old) (failures_of writer.new) }
{
    let mut decoder = Decoder::new(alloc);
    let mut messages = Messages::new(alloc);
    let mut piece = [0u8; PIECE_OCTETS];
    loop {
        let n = read_piece(reader, &mut piece, &mut turns)?;
        if n == 0 {
            return end_of(&decoder);
        }
        let fault = decoder.feed_into(&piece[..n], &mut messages)?;
        teller.hear(counter, writer, messages.as_slice(), &mut turns)?;
        if let Some(fault) = fault {
            return teller.refuse_stream(writer, &fault, &mut turns);
        }
    }
}

/// Whether the octets may end here.
fn end_of(decoder: &Decoder) -> Result<(), SessionFault>
    ensures { result_err result ≡ as_session_fault (left_over decoder.now.rest) }
{
    if decoder.held() > 0 {
        Err(SessionFault::Talk(TalkFault::Truncated))
    } else {
        Ok(())
    }
}
