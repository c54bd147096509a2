//! The replay: lines of messages in, lines of answers out.

ghost use Rattle.std.specs.Prelude.{◌≡◌, ◌≤◌, ◌⊎◌, [], Some, None, true, false};
ghost use Rattle.std.specs.Prelude.{IfErr, IfOk, IfSome, OnOk};
ghost use Rattle.std.specs.Result.{IsErrOf};
ghost use Rattle.std.specs.Io.KnownBytes.{IsAtEnd};
ghost use Rattle.devices.specs.Counted.{device_of, failures_of};
ghost use Rattle.devices.specs.Devices.{Rose};
ghost use Rattle.site_book.specs.Book.{whole_book};
ghost use Rattle.forecourt_engines.specs.Text.{start};
ghost use Rattle.forecourt_engines.specs.Replay.{Replayed, ended_with, is_early, is_unwritten};

use crate::engine::Engine;
use crate::fault::{ReplayFault, TextFault};
use crate::sink::TextSink;
use devices::{Counted, PIECE_OCTETS, ReadFault, WriteFault, read_piece};
use site_base::SiteConfig;
use site_book::SiteBook;
use std::alloc::Global;
use std::io::{Read, Write};

/// How a replay ended.
#[derive(Drop)]
pub struct ReplayEnd {
    /// Why it ended; None if the input was read to its end without a fault.
    pub fault: Option<ReplayFault>,
    /// The book; None only if there was no memory to open it.
    pub book: Option<SiteBook>,
}

/// Replays lines of messages on the opening site of this configuration. Each message is answered by
/// a line, in order; with `changes`, the line of its row's change follows. The replay ends at the
/// end of the input, at the first fault of the text, if an allocation or a device fails, or if
/// `turns` are used up. Each read call and each interrupted write call is a turn, so a turn reads
/// at most one piece. However it ends, what was written is a prefix of the text of what was read.
/// It ends with a fault of the text only if the text stops at what was read, or the input is at its
/// end.
pub fn replay<R: Read, W: Write>(
    alloc: Global,
    config: &SiteConfig,
    reader: &mut Counted<R>,
    writer: &mut Counted<W>,
    mut turns: u64,
    changes: bool,
) -> ReplayEnd
    ensures told { Replayed turns (start
        (record { book = whole_book config.now []; changes = changes }))
        (R.remaining (device_of reader.old)) (R.remaining (device_of reader.new))
        (W.contents (device_of writer.old)) (W.contents (device_of writer.new))
        result.fault result.book }
    ensures end { result.fault ≡ None → IsAtEnd (R.remaining (device_of reader.new)) }
    ensures no_turns { turns ≡ 0
        → (result.fault ≡ Some (ReplayFault.Read ReadFault.TurnLimit))
        ⊎ (result.fault ≡ Some ReplayFault.NoMemory) }
    ensures unopened { result.book ≡ None → result.fault ≡ Some ReplayFault.NoMemory }

    // Where the text ended, its book has forgotten no row.
    ensures whole { is_early result.fault ≡ false
        → IfSome result.book (λ b. b.forgotten ≡ 0) }
    ensures read_failed { result.fault ≡ Some (ReplayFault.Read ReadFault.Failed)
        → Rose (failures_of reader.old) (failures_of reader.new) }
    ensures write_failed { result.fault ≡ Some (ReplayFault.Write WriteFault.Failed)
        → Rose (failures_of writer.old) (failures_of writer.new) }
{
    match SiteBook::try_open(alloc, config) {
        Ok(book) => {
            let mut engine = Engine::new(alloc, book, changes);
            let ended = run(alloc, &mut engine, reader, writer, &mut turns);
            ReplayEnd {
                fault: fault_of(ended),
                book: Some(engine.into_book()),
            }
        }
        Err(_) => ReplayEnd {
            fault: Some(ReplayFault::NoMemory),
            book: None,
        },
    }
}

/// Runs the engine over the reader, piece after piece, and puts its text into the sink. The answer
/// is why the text ends, if it does so before the input.
#[tactic(auto, using(crate::proofs::Running::running))]
pub(crate) fn run<R: Read, S: TextSink>(
    alloc: Global,
    engine: &mut Engine,
    reader: &mut Counted<R>,
    sink: &mut S,
    turns: &mut u64,
) -> Result<Option<TextFault>, ReplayFault>
    ensures told { Replayed turns.old engine.old
        (R.remaining (device_of reader.old)) (R.remaining (device_of reader.new))
        (S.holds sink.old) (S.holds sink.new)
        (ended_with result) (Some engine.new.answerer.book) }
    ensures end { IfOk result (λ fault. fault ≡ None
        → IsAtEnd (R.remaining (device_of reader.new))) }
    ensures unwritten { S.never_fails ≡ true
        → IfErr result (λ fault. is_unwritten fault ≡ true) }
    ensures turns { turns.new ≤ turns.old }
    ensures counted { OnOk result (failures_of reader.new ≡ failures_of reader.old) }
    ensures no_turns { turns.old ≡ 0 → IsErrOf result (ReplayFault.Read ReadFault.TurnLimit) }
    ensures read_failed { IsErrOf result (ReplayFault.Read ReadFault.Failed)
        → Rose (failures_of reader.old) (failures_of reader.new) }
    ensures write_failed { IsErrOf result (ReplayFault.Write WriteFault.Failed)
        → Rose (S.failures sink.old) (S.failures sink.new) }
{
    let mut piece = [0u8; PIECE_OCTETS];
    let mut text = Vec::new(alloc);
    loop {
        let n = read_piece(reader, &mut piece, turns)?;
        text.clear();
        if n == 0 {
            let fault = engine.finish(&mut text)?;
            sink.put(&text, turns)?;
            return Ok(fault);
        }
        engine.feed(&piece[..n], &mut text)?;
        sink.put(&text, turns)?;
        if let Some(fault) = engine.stop() {
            return Ok(Some(fault));
        }
    }
}

/// Why a replay that ended so ended before its input.
fn fault_of(ended: Result<Option<TextFault>, ReplayFault>) -> Option<ReplayFault>
    ensures { result ≡ ended_with ended }
{
    match ended {
        Ok(None) => None,
        Ok(Some(fault)) => Some(ReplayFault::Text(fault)),
        Err(fault) => Some(fault),
    }
}
