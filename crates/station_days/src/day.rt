//! A day of a station.

ghost use Rattle.std.specs.Prelude.{◌≡◌, OnOk, false, true};
ghost use Rattle.std.specs.Io.KnownBytes.{Appends};
ghost use Rattle.day_base.specs.Texts.{places_text, report_in};
ghost use Rattle.devices.specs.Counted.{device_of};
ghost use Rattle.devices.specs.Devices.{AppendsFront};
ghost use Rattle.journal.specs.Opening.{HasNobodyOn};
ghost use Rattle.journal.specs.Stored.{JournalGoesOn, is_all_stored};
ghost use Rattle.station.specs.Runs.{opening_station};
ghost use Rattle.station_days.specs.StationDays.{TellsDay, TellsFront};

use crate::fault::to_day_fault;
use day_base::{DayFault, ReportForm, put_book_report, put_places};
use devices::Counted;
use journal::Disk;
use peer_connections::{Connections, PeerStream};
use station_server::StationServer;
use std::alloc::Global;
use std::io::Write;
use std::sync::Wait;
use std::time::Clock;

/// Runs the day of a station that was opened at this book, with its journal if it has one. The
/// server listens already. The day writes where it, its page and its feed listen; serves until the
/// day's end; ends the sessions that are left; and writes the report of the book in this form, with
/// the figures that the site keeps. A session that sends nothing for `idle` seconds is ended.
///
/// If waiting for connections fails, the day ends with `NoConnection`, after the report. If the
/// journal takes no more, it ends with `Write` and without a report: a report would include rows
/// that aren't stored. In every case what it wrote is a prefix of that text, for the moves that led
/// to the station's present state, and the journal continues.
pub fn station_day<W: Write, T: Wait, R: Clock + Eprint, D: Disk>(
    threads: &T,
    rt: &R,
    alloc: Global,
    connections: &mut Connections<D, PeerStream>,
    server: &mut StationServer,
    idle: Option<u64>,
    form: ReportForm,
    turns: &mut u64,
    writer: &mut Counted<W>,
) -> Result<(), DayFault>
    requires alone { connections.old.stored.station
        ≡ opening_station connections.old.stored.station.gates
        connections.old.stored.station.book }
    requires off { HasNobodyOn connections.old.stored.station.book }
    ensures told { OnOk result (TellsDay connections.old.stored.station.gates
        connections.old.stored.station.book
        (places_text server.old.port server.old.page_port server.old.feed_port) form
        (W.contents (device_of writer.old)) (W.contents (device_of writer.new))
        connections.new.stored.station) }
    ensures front { TellsFront connections.old.stored.station.gates
        connections.old.stored.station.book
        (places_text server.old.port server.old.page_port server.old.feed_port) form
        (W.contents (device_of writer.old)) (W.contents (device_of writer.new))
        connections.new.stored.station }
    ensures journal { JournalGoesOn connections.old.stored.journal
        connections.new.stored.journal }
{
    put_places(
        alloc,
        server.port(),
        server.page_port(),
        server.feed_port(),
        writer,
        turns,
    )?;
    let served = server.serve(threads, rt, connections, idle);
    put_stored_report(alloc, connections, form, writer, turns)?;
    match served {
        Ok(()) => Ok(()),
        Err(fault) => Err(to_day_fault(fault)),
    }
}

/// Writes the report of the book, where each of its rows is stored; else nothing.
fn put_stored_report<W: Write, D: Disk>(
    alloc: Global,
    connections: &Connections<D, PeerStream>,
    form: ReportForm,
    writer: &mut Counted<W>,
    turns: &mut u64,
) -> Result<(), DayFault>
    ensures written { is_all_stored connections.now.stored ≡ true → OnOk result
        (Appends (W.contents (device_of writer.old)) (W.contents (device_of writer.new))
        (report_in form connections.now.stored.station.book)) }
    ensures front { AppendsFront (W.contents (device_of writer.old))
        (W.contents (device_of writer.new)) (report_in form connections.now.stored.station.book) }
    ensures untold { is_all_stored connections.now.stored ≡ false → writer.new ≡ writer.old }
{
    match connections.stored_book() {
        Some(book) => put_book_report(alloc, book, form, writer, turns),
        None => Ok(()),
    }
}
