//! `forecourt station [FILE] [--history FOLDER] [--port N] [--doors FOLDER] [--page N]
//! [--name TEXT] [--feed N] [--idle SECONDS] [--rate N] [--house T] [--release-age SECONDS]
//! [--lost SECONDS] [--detached] [--json]`.

ghost use Rattle.std.specs.Prelude.{◌≡◌};
ghost use Rattle.station.specs.Gates.{open_gates};
ghost use Rattle.station.specs.Runs.{opening_station};
ghost use Rattle.journal.specs.Opening.{HasNobodyOn};
ghost use Rattle.program_io.specs.Statuses.{IsFailed};
ghost use Rattle.station_command.specs.Histories.{IsFound};

use crate::doors::open_doors;
use crate::ends::{DayEnd, exit_station};
use crate::error_lines::{ErrorLines, Reporting};
use crate::feed_start::{EarlierRows, read_earlier};
use crate::found::{FoundHistory, print_found};
use crate::histories::open_station;
use crate::input_watch::InputWatch;
use command_line::StationOptions;
use day_base::{DayFault, HousePlan, OptionFault, ReportForm, StationPlan};
use devices::Counted;
use history_files::HistoryDisk;
use journal::{Disk, Opened};
use peer_connections::{Connections, FedRows, Patience, PeerStream};
use program_io::{COMMAND_LINE, FAULT, TURNS, exit_with};
use row_tally::RowTally;
use site_base::{SiteConfig, TillNo};
use station_days::{station_day, to_day_fault};
use station_server::{Doors, ServerFault, StationServer};
use std::fs::File;
use std::io;
use std::io::Read;
use std::net::Net;
use std::process::ExitCode;
use std::random::RandomSource;
use std::rt::{Clock, Files};
use std::sync::Wait;
use std::thread::Threads;

/// What a station needs of the system: files, sockets, the time, random numbers, and its outputs.
pub trait StationHost: Files<File = File>
    + Net
    + Clock
    + RandomSource
    + Print
    + Eprint
    + AllocGlobal {}

impl<R: Files<File = File> + Net + Clock + RandomSource + Print + Eprint + AllocGlobal> StationHost
    for R {}

/// Serves every till and dispenser of a site, and prints the report of the day. It ends when this
/// input ends; with `--detached` when the system stops it. Wrong numbers are reported first, then a
/// folder that is in use, then faults of the site file, of the history, of the doors and of the
/// listener.
pub fn run_station<
    R: StationHost,
    T: Threads + Wait + Sync,
    I: Read + Send + Drop + 'static,
    E: Eprint + Clock + Send + Drop + 'static,
>(rt: &R, threads: &T, input: I, errors: E, options: StationOptions<'_>) -> ExitCode {
    let plans = match Plans::read(&options) {
        Ok(plans) => plans,
        Err(fault) => return exit_with(eprintln!(rt; "error: {fault}"), COMMAND_LINE),
    };
    if options.port.is_none() && options.doors.is_none() {
        let needed = "a station needs --port N or --doors FOLDER";
        return exit_with(eprintln!(rt; "error: {needed}"), COMMAND_LINE);
    }
    if plans.has_port_twice() {
        let needed = "--port, --page and --feed each need a port of their own";
        return exit_with(eprintln!(rt; "error: {needed}"), COMMAND_LINE);
    }
    match open_station(rt, options.site, options.history) {
        Ok((opened, found)) => {
            run_opened(rt, threads, input, errors, opened, found, plans, options)
        }
        Err(status) => status,
    }
}

/// What the words ask of a station: where it listens, and what it does by itself.
#[derive(Clone, Copy, Debug)]
struct Plans {
    station: StationPlan,
    house: HousePlan,
}

impl Plans {
    fn read(options: &StationOptions<'_>) -> Result<Plans, OptionFault> {
        let station = StationPlan::read(
            options.port,
            options.page,
            options.feed,
            options.idle,
            options.rate,
        )?;
        let house = HousePlan::read(options.house, options.release_age, options.lost)?;
        Ok(Plans { station, house })
    }

    /// Do two of the port, the page's and the feed's have one number? 0 is a free port each time.
    fn has_port_twice(&self) -> bool {
        let StationPlan {
            port,
            page,
            feed,
            ..
        } = self.station;
        are_one_port(port, page) || are_one_port(port, feed) || are_one_port(page, feed)
    }

    /// How long a dispenser may be gone, and how long a release may stand.
    fn patience(&self) -> Patience {
        Patience {
            lost_seconds: self.house.lost_seconds,
            release_seconds: self.house.release_seconds,
        }
    }
}

/// Are these one port, which isn't to be a free one?
fn are_one_port(one: Option<u16>, other: Option<u16>) -> bool {
    match (one, other) {
        (Some(one), Some(other)) => one == other && one != 0,
        _ => false,
    }
}

/// Lets the house till act, if there is one, and serves a day of this station.
fn run_opened<
    R: StationHost,
    T: Threads + Wait + Sync,
    I: Read + Send + Drop + 'static,
    E: Eprint + Clock + Send + Drop + 'static,
>(
    rt: &R,
    threads: &T,
    input: I,
    errors: E,
    mut opened: Opened<HistoryDisk<'_, R>>,
    found: FoundHistory,
    plans: Plans,
    options: StationOptions<'_>,
) -> ExitCode
    requires alone { opened.station.station
        ≡ opening_station open_gates opened.station.station.book }
    requires off { HasNobodyOn opened.station.station.book }
    requires found { IsFound found opened.station.journal }
{
    let house = match find_house(opened.station.book().config(), plans.house.house) {
        Ok(house) => house,
        Err(number) => return exit_no_manager(rt, number),
    };
    let mut open = match open_doors(rt, options.doors, options.port.is_some()) {
        Ok(open) => open,
        Err(status) => return status,
    };
    let has_feed = plans.station.feed.is_some() || open.doors.has_feed();
    let has_page = plans.station.page.is_some();
    let book = opened.station.book();
    let earlier = match read_earlier(rt, options.history, book, has_feed, has_page) {
        Ok(earlier) => earlier,
        Err(status) => {
            open.sockets.remove(rt);
            return status;
        }
    };
    if let Some(till) = house {
        open.gates.set_house(till);
    }
    opened.station.set_gates(open.gates);
    let lines = match ErrorLines::start(rt, threads, rt.alloc(), errors) {
        Ok(lines) => lines,
        Err(fault) => {
            open.sockets.remove(rt);
            let day = DayEnd {
                end: Err(fault),
                is_stored: true,
            };
            return exit_station(rt, day, options.history);
        }
    };
    let reporting = Reporting {
        host: rt,
        lines: &lines,
    };
    let day = serve_on(
        rt, &reporting, threads, input, opened, found, earlier, open.doors, plans, options,
    );
    lines.end(threads);
    open.sockets.remove(rt);
    exit_station(rt, day, options.history)
}

/// Prints that the house till is to be a till of this number, which is no manager's, and what to
/// do. Returns the exit status.
fn exit_no_manager(rt: &impl Eprint, number: u8) -> ExitCode
    ensures { IsFailed result }
{
    let advice = "name a till that nobody uses, and that the site file has among its managers";
    exit_with(eprintln!(rt; "house {number}: no manager\n{advice}"), FAULT)
}

/// The house till of this number, if there is to be one; the number, where it is no manager's.
fn find_house(config: &SiteConfig, number: Option<u8>) -> Result<Option<TillNo>, u8> {
    let Some(number) = number else {
        return Ok(None);
    };
    for till in config.managers() {
        if till.get() == number {
            return Ok(Some(*till));
        }
    }
    Err(number)
}

/// The feed's peers, if there is a feed, and the page are told of these rows at first.
fn begin_telling<D: Disk>(connections: &mut Connections<D, PeerStream>, earlier: EarlierRows)
    ensures { connections.new.stored ≡ connections.old.stored }
{
    begin_feed(connections, earlier.fed);
    begin_tally(connections, earlier.tally);
}

/// If there is a feed, its peers are told these rows at first.
fn begin_feed<D: Disk>(connections: &mut Connections<D, PeerStream>, fed: Option<FedRows>)
    ensures { connections.new.stored ≡ connections.old.stored }
{
    if let Some(fed) = fed {
        connections.begin_feed(fed);
    }
}

/// If there is a page, this is its tally at first.
fn begin_tally<D: Disk>(connections: &mut Connections<D, PeerStream>, tally: Option<RowTally>)
    ensures { connections.new.stored ≡ connections.old.stored }
{
    if let Some(tally) = tally {
        connections.begin_tally(tally);
    }
}

/// Listens, and serves a day of this station, of whose history this was found, and these rows.
fn serve_on<R: StationHost, T: Threads + Wait + Sync, I: Read + Send + Drop + 'static>(
    rt: &R,
    reporting: &Reporting<'_, R>,
    threads: &T,
    input: I,
    opened: Opened<HistoryDisk<'_, R>>,
    found: FoundHistory,
    earlier: EarlierRows,
    doors: Doors,
    plans: Plans,
    options: StationOptions<'_>,
) -> DayEnd
    requires alone { opened.station.station
        ≡ opening_station opened.station.station.gates opened.station.station.book }
    requires off { HasNobodyOn opened.station.station.book }
    requires found { IsFound found opened.station.journal }
{
    let connections = Connections::new(
        rt.alloc(),
        opened.station,
        plans.station.rate,
        plans.patience(),
    );
    let Ok(mut connections) = connections else {
        return DayEnd {
            end: Err(DayFault::NoMemory),
            is_stored: true,
        };
    };
    begin_telling(&mut connections, earlier);
    let end = serve_peers(
        rt,
        reporting,
        threads,
        input,
        found,
        &mut connections,
        doors,
        plans,
        options,
    );
    let is_stored = connections.stored_book().is_some();
    connections.close();
    DayEnd { end, is_stored }
}

/// Listens, and serves a day of the station of these connections, of whose history this was
/// found.
fn serve_peers<R: StationHost, T: Threads + Wait + Sync, I: Read + Send + Drop + 'static>(
    rt: &R,
    reporting: &Reporting<'_, R>,
    threads: &T,
    input: I,
    found: FoundHistory,
    connections: &mut Connections<HistoryDisk<'_, R>, PeerStream>,
    doors: Doors,
    plans: Plans,
    options: StationOptions<'_>,
) -> Result<(), DayFault>
    requires alone { connections.old.stored.station
        ≡ opening_station connections.old.stored.station.gates
        connections.old.stored.station.book }
    requires off { HasNobodyOn connections.old.stored.station.book }
    requires found { IsFound found connections.old.stored.journal }
{
    match listen(rt, doors, plans.station, options.name) {
        Ok(mut server) => {
            let end = serve_until_end(
                rt,
                reporting,
                threads,
                input,
                found,
                connections,
                &mut server,
                plans,
                options,
            );
            server.close();
            end
        }
        Err(fault) => Err(to_day_fault(fault)),
    }
}

/// Serves a day on this server: until its input ends, or detached, until the system stops it.
fn serve_until_end<R: StationHost, T: Threads + Wait + Sync, I: Read + Send + Drop + 'static>(
    rt: &R,
    reporting: &Reporting<'_, R>,
    threads: &T,
    input: I,
    found: FoundHistory,
    connections: &mut Connections<HistoryDisk<'_, R>, PeerStream>,
    server: &mut StationServer,
    plans: Plans,
    options: StationOptions<'_>,
) -> Result<(), DayFault>
    requires alone { connections.old.stored.station
        ≡ opening_station connections.old.stored.station.gates
        connections.old.stored.station.book }
    requires off { HasNobodyOn connections.old.stored.station.book }
    requires found { IsFound found connections.old.stored.journal }
{
    if options.detached {
        return serve_day(
            rt,
            reporting,
            threads,
            found,
            connections,
            server,
            plans.station.idle,
            options.json,
        );
    }
    let waker = match server.waker() {
        Ok(waker) => waker,
        Err(fault) => return Err(to_day_fault(fault)),
    };
    let watch = InputWatch::start(threads, rt.alloc(), waker, input)?;
    let end = serve_day(
        rt,
        reporting,
        threads,
        found,
        connections,
        server,
        plans.station.idle,
        options.json,
    );
    watch.end(threads, end.is_ok());
    end
}

/// Says what was found of the history, and serves a day.
fn serve_day<R: StationHost, T: Wait>(
    rt: &R,
    reporting: &Reporting<'_, R>,
    threads: &T,
    found: FoundHistory,
    connections: &mut Connections<HistoryDisk<'_, R>, PeerStream>,
    server: &mut StationServer,
    idle: Option<u64>,
    json: bool,
) -> Result<(), DayFault>
    requires alone { connections.old.stored.station
        ≡ opening_station connections.old.stored.station.gates
        connections.old.stored.station.book }
    requires off { HasNobodyOn connections.old.stored.station.book }
    requires found { IsFound found connections.old.stored.journal }
{
    print_found(rt, found)?;
    let mut writer = Counted::new(io::writer(rt));
    let mut left = TURNS;
    station_day(
        threads,
        reporting,
        rt.alloc(),
        connections,
        server,
        idle,
        report_form(json),
        &mut left,
        &mut writer,
    )
}

/// Listens for peers, also at these doors, for browsers if there is a page, and for peers of the
/// feed if there is one.
fn listen<R: Net + Clock + RandomSource + AllocGlobal>(
    rt: &R,
    doors: Doors,
    plan: StationPlan,
    name: Option<&str>,
) -> Result<StationServer, ServerFault> {
    let has_feed = plan.feed.is_some() || doors.has_feed();
    let mut server = StationServer::bind(rt, rt, rt.alloc(), plan.port, doors)?;
    match listen_for_others(rt, &mut server, plan, name, has_feed) {
        Ok(()) => Ok(server),
        Err(fault) => {
            server.close();
            Err(fault)
        }
    }
}

/// Listens for browsers if there is a page, which shows this name, and for peers of the feed if
/// there is one.
fn listen_for_others<R: Net + RandomSource>(
    rt: &R,
    server: &mut StationServer,
    plan: StationPlan,
    name: Option<&str>,
    has_feed: bool,
) -> Result<(), ServerFault> {
    if let Some(port) = plan.page {
        server.bind_page(rt, rt, port, name)?;
    }
    if has_feed {
        server.bind_feed(rt, plan.feed)?;
    }
    Ok(())
}

/// How the day's report is written.
fn report_form(json: bool) -> ReportForm {
    if json {
        ReportForm::Json
    } else {
        ReportForm::Text
    }
}
