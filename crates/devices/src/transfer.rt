//! Reads one piece, and writes a whole text.
ghost use Rattle.std.specs.Prelude.{◌≡◌, ◌<◌, ◌≤◌, length, take, IfOk, OnOk, OnErr};
ghost use Rattle.std.specs.Result.{IsErrOf};
ghost use Rattle.std.specs.Io.KnownBytes.{Appends, Consumes, IsAtEnd, Keeps};
ghost use Rattle.devices.specs.Counted.{device_of, failures_of};
ghost use Rattle.devices.specs.Devices.{one_more, AppendsFront};

use crate::counted::Counted;
use std::error::Error;
use std::fmt;
use std::io::{ErrorKind, Read, Write};

/// The most octets of one read.
pub const PIECE_OCTETS: usize = 4_096;

/// Why a read gave no piece.
#[derive(Clone, Copy, Debug, PartialEq, Eq)]
pub enum ReadFault {
    /// No turn was left for the next call.
    TurnLimit,
    /// The reader failed.
    Failed,
}

impl ReadFault {
    ghost use Rattle.devices.specs.Transfer.{read_fault_number};

    /// Returns the fault's number: 59 for the turn limit, 61 for a failed reader.
    pub fn number(self) -> u8
        ensures { result ≡ read_fault_number self }
    {
        match self {
            ReadFault::TurnLimit => 59,
            ReadFault::Failed => 61,
        }
    }
}

impl fmt::Display for ReadFault {
    fn fmt<W: fmt::Write>(&self, f: &mut fmt::Formatter<W>) -> fmt::Result {
        match self {
            ReadFault::TurnLimit => write!(f, "no turn left for a read"),
            ReadFault::Failed => write!(f, "the reader failed"),
        }
    }
}

impl Error for ReadFault {}

/// Why a text wasn't written completely.
#[derive(Clone, Copy, Debug, PartialEq, Eq)]
pub enum WriteFault {
    /// No turn was left for an interrupted call.
    TurnLimit,
    /// The writer failed, or took no octet.
    Failed,
}

impl WriteFault {
    ghost use Rattle.devices.specs.Transfer.{write_fault_number};

    /// Returns the fault's number: 59 for the turn limit, 62 for a failed writer.
    pub fn number(self) -> u8
        ensures { result ≡ write_fault_number self }
    {
        match self {
            WriteFault::TurnLimit => 59,
            WriteFault::Failed => 62,
        }
    }
}

impl fmt::Display for WriteFault {
    fn fmt<W: fmt::Write>(&self, f: &mut fmt::Formatter<W>) -> fmt::Result {
        match self {
            WriteFault::TurnLimit => write!(f, "no turn left for a write"),
            WriteFault::Failed => write!(f, "the writer failed"),
        }
    }
}

impl Error for WriteFault {}

/// Reads one piece into the front of `buf`, and returns its length. 0 means the end of the input.
///
/// Each call of the reader takes one of `turns`, and an interrupted call is made again. `TurnLimit`
/// if no turn is left before a call, and `Failed` if a call failed in another way; no call is made
/// after that. After either fault the input is as it was, and what `buf` holds means nothing. The
/// reader's count rises by one at `Failed`, and stays otherwise.
pub fn read_piece<R: Read>(
    reader: &mut Counted<R>,
    buf: &mut [u8],
    turns: &mut u64,
) -> Result<usize, ReadFault>
    requires { 0 < length buf.old }
    ensures bound { IfOk result (λ n. n ≤ length buf.new) }
    ensures bytes { IfOk result (λ n.
        Consumes (R.remaining (device_of reader.old)) (R.remaining (device_of reader.new))
        (take n buf.new)) }
    ensures end { IfOk result (λ n. n ≡ 0 → IsAtEnd (R.remaining (device_of reader.new))) }
    ensures err { OnErr result
        (Keeps (R.remaining (device_of reader.old)) (R.remaining (device_of reader.new))) }

    // What the count of failed calls does.
    ensures counted { OnOk result (failures_of reader.new ≡ failures_of reader.old) }
    ensures counted_at_limit { IsErrOf result ReadFault.TurnLimit
        → failures_of reader.new ≡ failures_of reader.old }
    ensures failed { IsErrOf result ReadFault.Failed
        → failures_of reader.new ≡ one_more (failures_of reader.old) }

    // What is left of the turns.
    ensures limit { IsErrOf result ReadFault.TurnLimit → turns.new ≡ 0 }
    ensures turns { turns.new ≤ turns.old }
    ensures spent { OnOk result (turns.new < turns.old) }
    ensures spent_at_failure { IsErrOf result ReadFault.Failed → turns.new < turns.old }
{
    while *turns > 0 {
        *turns -= 1;
        match reader.read(buf) {
            Ok(n) => return Ok(n),
            Err(e) => {
                if e.kind() != ErrorKind::Interrupted {
                    return Err(ReadFault::Failed);
                }
            }
        }
    }
    Err(ReadFault::TurnLimit)
}

/// Writes the whole text, in as many calls as the writer needs. An empty text needs none.
///
/// An interrupted call takes one of `turns` and is made again; no other call takes one. `TurnLimit`
/// if a call was interrupted and no turn is left for it, and `Failed` if a call failed in another
/// way or took no octet; no call is made after that. After either fault a prefix of the text is
/// written, which may be empty. The writer's count rises by one at `Failed`, and stays otherwise.
#[tactic(auto, using(crate::proofs::KnownBytes::known))]
pub fn write_whole<W: Write>(
    writer: &mut Counted<W>,
    text: &[u8],
    turns: &mut u64,
) -> Result<(), WriteFault>
    ensures ok { OnOk result
        (Appends (W.contents (device_of writer.old)) (W.contents (device_of writer.new)) text.now) }
    ensures front { AppendsFront (W.contents (device_of writer.old))
        (W.contents (device_of writer.new))
        text.now }

    // What the count of failed calls does.
    ensures counted { OnOk result (failures_of writer.new ≡ failures_of writer.old) }
    ensures counted_at_limit { IsErrOf result WriteFault.TurnLimit
        → failures_of writer.new ≡ failures_of writer.old }
    ensures failed { IsErrOf result WriteFault.Failed
        → failures_of writer.new ≡ one_more (failures_of writer.old) }

    // What is left of the turns.
    ensures limit { IsErrOf result WriteFault.TurnLimit → turns.new ≡ 0 }
    ensures turns { turns.new ≤ turns.old }
{
    let mut done = 0;
    while done < text.len() {
        match writer.write(&text[done..]) {
            Ok(0) => return Err(WriteFault::Failed),
            Ok(n) => done += n,
            Err(e) => {
                if e.kind() != ErrorKind::Interrupted {
                    return Err(WriteFault::Failed);
                }
                if *turns == 0 {
                    return Err(WriteFault::TurnLimit);
                }
                *turns -= 1;
            }
        }
    }
    Ok(())
}
