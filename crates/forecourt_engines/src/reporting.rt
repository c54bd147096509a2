//! The replay that ends with a report: it reads lines of messages, and writes the report of their
//! rows. The turns of the report's write are those that the replay left.

ghost use Rattle.std.specs.Prelude.{◌≡◌, ◌⊎◌, Some, None, string_bytes, IfOk, OnOk};
ghost use Rattle.std.specs.Result.{IsErrOf, result_err};
ghost use Rattle.std.specs.Io.KnownBytes.{IsAtEnd, Keeps};
ghost use Rattle.devices.specs.Counted.{device_of, failures_of};
ghost use Rattle.devices.specs.Devices.{Rose};
ghost use Rattle.forecourt_engines.specs.Replay.{as_fault};
ghost use Rattle.devices.specs.declared.transfer.ReadFault.{ReadFault};
ghost use Rattle.forecourt_engines.specs.Reporting.{Reported, WritesReport, book_report};

use crate::engine::Engine;
use crate::fault::{ReplayFault, TextFault};
use crate::replay::run;
use crate::sink::NoText;
use day_report::report_as_text;
use devices::{Counted, ReadFault, WriteFault, write_whole};
use site_base::{NoMemory, SiteConfig};
use site_book::SiteBook;
use std::alloc::Global;
use std::io::{Read, Write};

/// Replays lines of messages on the opening site of this configuration, as `replay` does, but
/// writes no answer. At the end of the input, or at a fault of its text, it writes the report of
/// the rows until then: their figures by the book's audit, and that no share settled. If the replay
/// ends early, because memory runs out, at its turn limit or with a reader that fails, it writes
/// nothing.
pub fn replay_to_report<R: Read, W: Write>(
    alloc: Global,
    config: &SiteConfig,
    reader: &mut Counted<R>,
    writer: &mut Counted<W>,
    mut turns: u64,
) -> Result<(), ReplayFault>
    ensures told { Reported turns config.now
        (R.remaining (device_of reader.old)) (R.remaining (device_of reader.new))
        (W.contents (device_of writer.old))
        (W.contents (device_of writer.new)) (result_err result) }
    ensures end { OnOk result (IsAtEnd (R.remaining (device_of reader.new))) }
    ensures no_turns { turns ≡ 0 → (result_err result ≡ Some (ReplayFault.Read ReadFault.TurnLimit))
        ⊎ (result_err result ≡ Some ReplayFault.NoMemory) }
    ensures no_memory { IsErrOf result ReplayFault.NoMemory
        → Keeps (W.contents (device_of writer.old)) (W.contents (device_of writer.new)) }
    ensures unread { (fault : ReadFault) → IsErrOf result (ReplayFault.Read fault)
        → Keeps (W.contents (device_of writer.old)) (W.contents (device_of writer.new)) }
    ensures read_failed { IsErrOf result (ReplayFault.Read ReadFault.Failed)
        → Rose (failures_of reader.old) (failures_of reader.new) }
    ensures write_failed { IsErrOf result (ReplayFault.Write WriteFault.Failed)
        → Rose (failures_of writer.old) (failures_of writer.new) }
{
    let book = SiteBook::try_open(alloc, config)?;
    let mut engine = Engine::new(alloc, book, false);
    let ended = run(alloc, &mut engine, reader, &mut NoText, &mut turns);
    let book = engine.into_book();
    match ended {
        Ok(fault) => put_report(alloc, config, &book, fault, writer, &mut turns),
        Err(fault) => Err(fault),
    }
}

/// Writes the report of a book whose text ended so, and ends as the text did.
fn put_report<W: Write>(
    alloc: Global,
    config: &SiteConfig,
    book: &SiteBook,
    fault: Option<TextFault>,
    writer: &mut Counted<W>,
    turns: &mut u64,
) -> Result<(), ReplayFault>
    requires config { book.now.config ≡ config.now }
    requires whole { book.now.forgotten ≡ 0 }
    ensures told { WritesReport (as_fault fault) book.now
        (W.contents (device_of writer.old))
        (W.contents (device_of writer.new)) (result_err result) }
    ensures end { OnOk result (fault ≡ None) }
    ensures no_memory { IsErrOf result ReplayFault.NoMemory
        → Keeps (W.contents (device_of writer.old)) (W.contents (device_of writer.new)) }
    ensures reads_none { (read : ReadFault) → IsErrOf result (ReplayFault.Read read) → ⊥ }
    ensures write_failed { IsErrOf result (ReplayFault.Write WriteFault.Failed)
        → Rose (failures_of writer.old) (failures_of writer.new) }
{
    let text = report_of_book(alloc, config, book)?;
    write_whole(writer, text.as_str().as_bytes(), turns)?;
    match fault {
        None => Ok(()),
        Some(fault) => Err(ReplayFault::Text(fault)),
    }
}

/// The report of a book of this configuration, by its audit: that no share settled.
fn report_of_book(alloc: Global, config: &SiteConfig, book: &SiteBook) -> Result<String, NoMemory>
    requires config { book.now.config ≡ config.now }
    requires whole { book.now.forgotten ≡ 0 }
    ensures { IfOk result (λ text. string_bytes text ≡ book_report book.now) }
{
    let totals = book.audit(alloc)?;
    report_as_text(alloc, config, &totals, 0)
}
