//! What the words ask for. Each text is as it was written, and nothing of it is checked.

/// A command of the program.
#[derive(Clone, Copy, Debug, PartialEq, Eq)]
pub enum Command<'a> {
    /// No words: standard input is replayed on the site that the program knows.
    ReplayHere,
    /// `check FILE`: how large is the site of this file?
    Check(&'a str),
    /// `replay FILE [--changes] [--shift A[..B]] [--json] [--from N]`
    Replay(ReplayOptions<'a>),
    /// `report FILE [--human | --json] [--shift A[..B]]`
    Report(ReportOptions<'a>),
    /// `sales FILE [--draws] [--json] [--shift A[..B]] [--from T] [--to T]`
    Sales(SalesOptions<'a>),
    /// `meters FILE [--gaps] [--csv | --json] [--shift A[..B]]`
    Meters(MetersOptions<'a>),
    /// `serve FILE --port N --workers N --sessions N`
    Serve(ServeOptions<'a>),
    /// `station [FILE] [--port N] [--doors FOLDER] [--history FOLDER] [--page N] [--name TEXT]
    /// [--feed N] [--idle SECONDS] [--rate N] [--house T] [--release-age SECONDS] [--lost SECONDS]
    /// [--detached] [--json]`
    Station(StationOptions<'a>),
    /// `demo FILE SCRIPT [--loopback]`
    Demo(DemoOptions<'a>),
    /// `shifts FOLDER [--json]`
    Shifts(ShiftsOptions<'a>),
    /// `next FOLDER`: the site file with which another history can continue this folder's.
    Next(&'a str),
    /// `verify FOLDER [--seal HEX]`
    Verify(VerifyOptions<'a>),
    /// `story FOLDER SALE`
    Story(StoryOptions<'a>),
    /// `explain [WHAT] [--shift A[..B]] [--times]`
    Explain(ExplainOptions<'a>),
    /// `spell`
    Spell,
    /// `ask --port N | --door PATH [--strict]`
    Ask(AskOptions<'a>),
}

/// What `replay` is given.
#[derive(Clone, Copy, Debug, PartialEq, Eq)]
pub struct ReplayOptions<'a> {
    /// The name of the site file, or the folder of a history.
    pub site: &'a str,
    /// Prints the notices to dispensers too.
    pub changes: bool,
    /// The shifts of the history.
    pub shift: Option<&'a str>,
    /// Prints each row of a history as an object of JSON, and not its reply.
    pub json: bool,
    /// The first row of a history that is printed.
    pub from: Option<&'a str>,
}

/// What `report` is given.
#[derive(Clone, Copy, Debug, PartialEq, Eq)]
pub struct ReportOptions<'a> {
    /// The name of the site file, or the folder of a history.
    pub site: &'a str,
    /// How the report is written.
    pub form: ReportForm,
    /// The shifts of the history.
    pub shift: Option<&'a str>,
}

/// How a report is written.
#[derive(Clone, Copy, Debug, PartialEq, Eq)]
pub enum ReportForm {
    /// A line for each figure.
    Lines,
    /// Litres and money in columns, for people. It is used if `Json` is asked for too.
    People,
    /// One object of JSON.
    Json,
}

/// What `sales` is given.
#[derive(Clone, Copy, Debug, PartialEq, Eq)]
pub struct SalesOptions<'a> {
    /// The name of the site file, or the folder of a history.
    pub site: &'a str,
    /// Prints what tests drew, and not the sales.
    pub draws: bool,
    /// Prints an object of JSON on each line, and not CSV.
    pub json: bool,
    /// The shifts of the history.
    pub shift: Option<&'a str>,
    /// Since when the printed sales of a history were cleared.
    pub from: Option<&'a str>,
    /// Until when the printed sales of a history were cleared.
    pub to: Option<&'a str>,
}

/// What `meters` is given.
#[derive(Clone, Copy, Debug, PartialEq, Eq)]
pub struct MetersOptions<'a> {
    /// The name of the site file, or the folder of a history.
    pub site: &'a str,
    /// Prints the gaps, and not the nozzles.
    pub gaps: bool,
    /// How the table is written.
    pub form: MetersForm,
    /// The shifts of the history.
    pub shift: Option<&'a str>,
}

/// How a table of meters is written.
#[derive(Clone, Copy, Debug, PartialEq, Eq)]
pub enum MetersForm {
    /// Litres in columns, for people.
    People,
    /// Comma-separated values. They are used if `Json` is asked for too.
    Csv,
    /// An object of JSON on each line.
    Json,
}

/// What `serve` is given.
#[derive(Clone, Copy, Debug, PartialEq, Eq)]
pub struct ServeOptions<'a> {
    /// The name of the site file.
    pub site: &'a str,
    /// The port on which it listens.
    pub port: &'a str,
    /// How many workers serve in parallel.
    pub workers: &'a str,
    /// How many sessions are served in all.
    pub sessions: &'a str,
}

/// What `station` is given.
#[derive(Clone, Copy, Debug, PartialEq, Eq)]
pub struct StationOptions<'a> {
    /// The name of the site file. A history that has begun has its own.
    pub site: Option<&'a str>,
    /// The port on which it listens for tills and dispensers; without one it has only doors.
    pub port: Option<&'a str>,
    /// The folder of the doors; without one it has none.
    pub doors: Option<&'a str>,
    /// The folder of the history; without one nothing is stored.
    pub history: Option<&'a str>,
    /// The port of the page; without one there is no page.
    pub page: Option<&'a str>,
    /// The name of the site, for the page; without one it has none.
    pub name: Option<&'a str>,
    /// The port of the feed; without one the feed is only at its door, or there is none.
    pub feed: Option<&'a str>,
    /// The seconds after which a silent session ends; without a number none does.
    pub idle: Option<&'a str>,
    /// The most rows that a session makes in a second.
    pub rate: Option<&'a str>,
    /// The house till, as which the station itself acts; without one it ends no release.
    pub house: Option<&'a str>,
    /// The seconds after which a release that nobody used ends, if there is a house till.
    pub release_age: Option<&'a str>,
    /// The seconds without a session after which a dispenser is lost.
    pub lost: Option<&'a str>,
    /// Runs on when standard input ends.
    pub detached: bool,
    /// Prints the report as one object of JSON.
    pub json: bool,
}

/// What `demo` is given.
#[derive(Clone, Copy, Debug, PartialEq, Eq)]
pub struct DemoOptions<'a> {
    /// The name of the site file.
    pub site: &'a str,
    /// The name of the script.
    pub script: &'a str,
    /// The tills' sessions run over sockets.
    pub loopback: bool,
}

/// What `ask` is given.
#[derive(Clone, Copy, Debug, PartialEq, Eq)]
pub struct AskOptions<'a> {
    /// The port of 127.0.0.1 on which the station listens.
    pub port: Option<&'a str>,
    /// The door, by its socket or the folder in which that is.
    pub door: Option<&'a str>,
    /// Ends with the first refusal.
    pub strict: bool,
}

/// What `shifts` is given.
#[derive(Clone, Copy, Debug, PartialEq, Eq)]
pub struct ShiftsOptions<'a> {
    /// The folder of the history.
    pub history: &'a str,
    /// Prints an object of JSON on each line.
    pub json: bool,
}

/// What `verify` is given.
#[derive(Clone, Copy, Debug, PartialEq, Eq)]
pub struct VerifyOptions<'a> {
    /// The folder of the history.
    pub history: &'a str,
    /// A seal that is looked for in it.
    pub seal: Option<&'a str>,
}

/// What `story` is given.
#[derive(Clone, Copy, Debug, PartialEq, Eq)]
pub struct StoryOptions<'a> {
    /// The folder of the history.
    pub history: &'a str,
    /// The sale: its point, shift and number, as 3/2/17.
    pub sale: &'a str,
}

/// What `explain` is given.
#[derive(Clone, Copy, Debug, PartialEq, Eq)]
pub struct ExplainOptions<'a> {
    /// A number, or the folder of a history. Without it standard input is explained.
    pub what: Option<&'a str>,
    /// The shifts of the history.
    pub shift: Option<&'a str>,
    /// Prints the time of each row of the history at the front of its line.
    pub times: bool,
}
