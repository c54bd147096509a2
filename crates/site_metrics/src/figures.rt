//! The figures of a site, family after family.

ghost use Rattle.std.specs.Prelude.{◌≡◌, ◌++◌, IfOk, OnOk, flat_map, option_copied, string_bytes};
ghost use Rattle.device_map.specs.declared.ids.TheConstants.{DISPENSER_SUBNET, TILL_SUBNET};
ghost use Rattle.site_book.specs.Book.{site_of_book};
ghost use Rattle.written_site.specs.SiteState.{view_point};
ghost use Rattle.site_metrics.specs.Metrics.{connected_text, connections_text, metrics_text};
ghost use Rattle.site_metrics.specs.Metrics.{points_connected, points_in, points_text, rows_text};
ghost use Rattle.site_metrics.specs.Metrics.{sessions_of, shifts_text, shows, state_text};
ghost use Rattle.site_metrics.specs.Metrics.{unpaid_text};

use crate::counts::{StationCounts, put_counts};
use crate::families::{
    put_connected_line, put_end, put_head, put_peers_lines, put_rows_lines, put_shifts_lines,
    put_state_line, put_unpaid_lines,
};
use crate::kinds::{is_dispenser, is_till};
use crate::tallied::put_tally;
use row_tally::RowTally;
use site_base::{FpNo, GREATEST_SHIFT, PointState};
use site_book::{NamedSale, SiteBook};
use site_json::{PeerSession, cents_of, is_connected, state_word};
use std::alloc::{AllocError, Global};

/// The states of a point, in the order of their numbers.
const STATES: [PointState; 9] = [
    PointState::Inoperative,
    PointState::Closed,
    PointState::Idle,
    PointState::Calling,
    PointState::Authorised,
    PointState::Started,
    PointState::SuspendedStarted,
    PointState::Fuelling,
    PointState::SuspendedFuelling,
];

/// Returns the figures of a book as OpenMetrics text, with the transactions that the caller has
/// found unpaid, what the station counts, these sessions, and the tally of its rows, if there is
/// one.
pub fn metrics_text(
    alloc: Global,
    book: &SiteBook,
    unpaid: &[NamedSale],
    counts: &StationCounts,
    sessions: &[PeerSession],
    tally: Option<&RowTally>,
) -> Result<String, AllocError>
    ensures { IfOk result (λ text. string_bytes text ≡ metrics_text book.now unpaid.now
        counts.now sessions.now (option_copied tally.entry)) }
{
    let mut text = String::new(alloc);
    put_figures(&mut text, book, unpaid, counts, sessions, tally)?;
    Ok(text)
}

/// Appends the same.
fn put_figures(
    text: &mut String,
    book: &SiteBook,
    unpaid: &[NamedSale],
    counts: &StationCounts,
    sessions: &[PeerSession],
    tally: Option<&RowTally>,
) -> Result<(), AllocError>
    ensures { OnOk result (string_bytes text.new ≡ string_bytes text.old
        ++ metrics_text book.now unpaid.now counts.now sessions.now
        (option_copied tally.entry)) }
{
    put_rows(text, book)?;
    put_connections(text, counts.connections, sessions)?;
    put_points(text, book)?;
    put_connected(text, book, sessions)?;
    put_unpaid(text, unpaid)?;
    put_shifts(text, book)?;
    put_tally(text, tally)?;
    put_counts(text, counts)?;
    put_end(text)
}

/// How many rows there are.
fn put_rows(text: &mut String, book: &SiteBook) -> Result<(), AllocError>
    ensures { OnOk result (string_bytes text.new ≡ string_bytes text.old ++ rows_text book.now) }
{
    put_rows_lines(text, u128::from(book.len()), u128::from(book.kept_len()))
}

/// Connections, and sessions by kind.
fn put_connections(
    text: &mut String,
    connections: usize,
    sessions: &[PeerSession],
) -> Result<(), AllocError>
    ensures { OnOk result (string_bytes text.new
        ≡ string_bytes text.old ++ connections_text connections sessions.now) }
{
    put_peers_lines(
        text,
        connections as u128,
        count_tills(sessions),
        count_dispensers(sessions),
    )
}

/// How many sessions are those of tills.
fn count_tills(sessions: &[PeerSession]) -> u128
    ensures { result ≡ sessions_of TILL_SUBNET sessions.now }
{
    let mut count: u128 = 0;
    for session in sessions {
        if is_till(session) {
            count += 1;
        }
    }
    count
}

/// .. and of dispensers.
fn count_dispensers(sessions: &[PeerSession]) -> u128
    ensures { result ≡ sessions_of DISPENSER_SUBNET sessions.now }
{
    let mut count: u128 = 0;
    for session in sessions {
        if is_dispenser(session) {
            count += 1;
        }
    }
    count
}

/// How many points are in each state.
fn put_points(text: &mut String, book: &SiteBook) -> Result<(), AllocError>
    ensures { OnOk result (string_bytes text.new ≡ string_bytes text.old ++ points_text book.now) }
{
    let help = "Fuelling points by state.";
    put_head(text, "witsomar_points", "gauge", help)?;
    put_states(text, book, &STATES)
}

/// How many points are in each of these states.
fn put_states(text: &mut String, book: &SiteBook, states: &[PointState]) -> Result<(), AllocError>
    ensures { OnOk result (string_bytes text.new
        ≡ string_bytes text.old ++ flat_map (state_text book.now) states.now) }
{
    for state in states {
        put_state_line(text, state_word(*state), count_in(book, *state))?;
    }
    Ok(())
}

/// How many points are in this state.
fn count_in(book: &SiteBook, state: PointState) -> u128
    ensures { result ≡ points_in book.now state }
{
    let mut count: u128 = 0;
    for point in book.config().points() {
        if is_in(book, point.number, state) {
            count += 1;
        }
    }
    count
}

/// Is a point in this state?
fn is_in(book: &SiteBook, p: FpNo, state: PointState) -> bool
    ensures { result ≡ shows state (view_point (site_of_book book.now) p) }
{
    match book.point(p) {
        Some(view) => view.state.number() == state.number(),
        None => false,
    }
}

/// How many points have their dispenser connected.
fn put_connected(
    text: &mut String,
    book: &SiteBook,
    sessions: &[PeerSession],
) -> Result<(), AllocError>
    ensures { OnOk result (string_bytes text.new
        ≡ string_bytes text.old ++ connected_text book.now sessions.now) }
{
    put_connected_line(text, count_connected(book, sessions))
}

/// .. as a number.
fn count_connected(book: &SiteBook, sessions: &[PeerSession]) -> u128
    ensures { result ≡ points_connected book.now sessions.now }
{
    let mut count: u128 = 0;
    for point in book.config().points() {
        if is_connected(sessions, point.number) {
            count += 1;
        }
    }
    count
}

/// The unpaid transactions, and what they come to.
fn put_unpaid(text: &mut String, unpaid: &[NamedSale]) -> Result<(), AllocError>
    ensures { OnOk result (string_bytes text.new ≡ string_bytes text.old ++ unpaid_text unpaid.now) }
{
    put_unpaid_lines(text, unpaid.len() as u128, cents_of(unpaid))
}

/// The open shift, and how many more can be opened.
fn put_shifts(text: &mut String, book: &SiteBook) -> Result<(), AllocError>
    ensures { OnOk result (string_bytes text.new ≡ string_bytes text.old ++ shifts_text book.now) }
{
    let shift = book.open_shift().get();
    let left = GREATEST_SHIFT - shift;
    put_shifts_lines(text, u128::from(shift), u128::from(left))
}
