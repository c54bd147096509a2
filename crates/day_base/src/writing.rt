//! What a day writes: where it listens, and its report.

ghost use Rattle.std.specs.Prelude.{◌≡◌, ◌≤◌, ◌++◌, length, string_bytes, IfOk, OnOk};
ghost use Rattle.std.specs.Result.{IsErrOf};
ghost use Rattle.std.specs.Io.KnownBytes.{Appends};
ghost use Rattle.devices.specs.Counted.{device_of, failures_of};
ghost use Rattle.devices.specs.Devices.{AppendsFront, one_more};
ghost use Rattle.day_report.specs.Text.{report_text};
ghost use Rattle.day_base.specs.Texts.{feed_line, line_if, listening_line, page_line};
ghost use Rattle.day_base.specs.Texts.{places_text, station_line};

use crate::fault::DayFault;
use counter_desk::Settled;
use day_report::report_as_text;
use devices::{Counted, WriteFault, write_whole};
use site_base::{NoMemory, SiteConfig};
use std::alloc::Global;
use std::io::Write;

/// Writes where the server listens. However it ends, a prefix of that line is written. `Write` if
/// the writer failed in the call, or was interrupted until no turn was left.
pub fn put_listening<W: Write>(
    alloc: Global,
    port: u16,
    writer: &mut Counted<W>,
    turns: &mut u64,
) -> Result<(), DayFault>
    ensures written { OnOk result (Appends (W.contents (device_of writer.old))
        (W.contents (device_of writer.new)) (listening_line port)) }
    ensures front { AppendsFront (W.contents (device_of writer.old))
        (W.contents (device_of writer.new)) (listening_line port) }

    // What a write does to the writer's count, and to the turns.
    ensures counted { OnOk result (failures_of writer.new ≡ failures_of writer.old) }
    ensures failed { IsErrOf result (DayFault.Write WriteFault.Failed)
        → failures_of writer.new ≡ one_more (failures_of writer.old) }
    ensures limit { IsErrOf result (DayFault.Write WriteFault.TurnLimit) → turns.new ≡ 0 }
    ensures turns { turns.new ≤ turns.old }
{
    let line = line_of(alloc, port)?;
    write_whole(writer, line.as_str().as_bytes(), turns)?;
    Ok(())
}

/// Writes where a station listens, on this port or only at its doors, and where its page and its
/// feed are, if they have a port. However it ends, a prefix of these lines is written.
pub fn put_places<W: Write>(
    alloc: Global,
    port: Option<u16>,
    page: Option<u16>,
    feed: Option<u16>,
    writer: &mut Counted<W>,
    turns: &mut u64,
) -> Result<(), DayFault>
    ensures written { OnOk result (Appends (W.contents (device_of writer.old))
        (W.contents (device_of writer.new)) (places_text port page feed)) }
    ensures front { AppendsFront (W.contents (device_of writer.old))
        (W.contents (device_of writer.new)) (places_text port page feed) }
{
    let lines = places_of(alloc, port, page, feed)?;
    write_whole(writer, lines.as_str().as_bytes(), turns)?;
    Ok(())
}

/// The lines that tell where a station listens, and where its page and its feed are.
fn places_of(
    alloc: Global,
    port: Option<u16>,
    page: Option<u16>,
    feed: Option<u16>,
) -> Result<String, NoMemory>
    ensures { IfOk result (λ text. string_bytes text ≡ places_text port page feed) }
{
    let mut lines = station_line_of(alloc, port)?;
    put_page_line(alloc, page, &mut lines)?;
    put_feed_line(alloc, feed, &mut lines)?;
    Ok(lines)
}

/// Appends the line that tells where a station's page is, if it has one.
fn put_page_line(alloc: Global, page: Option<u16>, lines: &mut String) -> Result<(), NoMemory>
    ensures { OnOk result (string_bytes lines.new
        ≡ string_bytes lines.old ++ line_if page_line page) }
{
    if let Some(page) = page {
        let line = page_line_of(alloc, page)?;
        lines.push_str(line.as_str())?;
    }
    Ok(())
}

/// Appends the line that tells where a station's feed is, if it has a port.
fn put_feed_line(alloc: Global, feed: Option<u16>, lines: &mut String) -> Result<(), NoMemory>
    ensures { OnOk result (string_bytes lines.new
        ≡ string_bytes lines.old ++ line_if feed_line feed) }
{
    if let Some(feed) = feed {
        let line = feed_line_of(alloc, feed)?;
        lines.push_str(line.as_str())?;
    }
    Ok(())
}

/// The line that tells where a station listens.
fn station_line_of(alloc: Global, port: Option<u16>) -> Result<String, NoMemory>
    ensures { IfOk result (λ line. string_bytes line ≡ station_line port) }
{
    match port {
        None => Ok(format!(in alloc; "listening at doors\n")?),
        Some(port) => line_of(alloc, port),
    }
}

/// The line that tells where a station's page is.
fn page_line_of(alloc: Global, page: u16) -> Result<String, NoMemory>
    ensures { IfOk result (λ line. string_bytes line ≡ page_line page) }
{
    Ok(format!(in alloc; "page http://127.0.0.1:{page}/\n")?)
}

/// The line that tells where a station's feed is.
fn feed_line_of(alloc: Global, feed: u16) -> Result<String, NoMemory>
    ensures { IfOk result (λ line. string_bytes line ≡ feed_line feed) }
{
    Ok(format!(in alloc; "feed 127.0.0.1:{feed}\n")?)
}

/// The line that tells where the server listens.
fn line_of(alloc: Global, port: u16) -> Result<String, NoMemory>
    ensures { IfOk result (λ line. string_bytes line ≡ listening_line port) }
{
    Ok(format!(in alloc; "listening 127.0.0.1:{port}\n")?)
}

/// Writes the report of a settled day. However it ends, a prefix of the report is written. `Write`
/// if the writer failed in the call, or was interrupted until no turn was left.
pub fn put_report<W: Write>(
    alloc: Global,
    config: &SiteConfig,
    settled: &Settled,
    writer: &mut Counted<W>,
    turns: &mut u64,
) -> Result<(), DayFault>
    requires { length settled.now.book.products ≡ length config.now.products }
    ensures written { OnOk result (Appends (W.contents (device_of writer.old))
        (W.contents (device_of writer.new))
        (report_text config.now settled.now.book settled.now.shares)) }
    ensures front { AppendsFront (W.contents (device_of writer.old))
        (W.contents (device_of writer.new))
        (report_text config.now settled.now.book settled.now.shares) }

    // What a write does to the writer's count, and to the turns.
    ensures counted { OnOk result (failures_of writer.new ≡ failures_of writer.old) }
    ensures failed { IsErrOf result (DayFault.Write WriteFault.Failed)
        → failures_of writer.new ≡ one_more (failures_of writer.old) }
    ensures limit { IsErrOf result (DayFault.Write WriteFault.TurnLimit) → turns.new ≡ 0 }
    ensures turns { turns.new ≤ turns.old }
{
    let text = report_as_text(alloc, config, &settled.book, settled.shares)?;
    write_whole(writer, text.as_str().as_bytes(), turns)?;
    Ok(())
}
