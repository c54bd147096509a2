//! A station as JSON.

ghost use Rattle.std.specs.Prelude.{◌≡◌, IfOk, option_copied, string_bytes};
ghost use Rattle.serde_json.specs.Data.{object};
ghost use Rattle.serde_json.specs.View.{view};
ghost use Rattle.serde_json.specs.Written.{compact_text};
ghost use Rattle.site_json.specs.SiteData.{members_of};
ghost use Rattle.site_gaps.specs.StationData.{station_data, with_told};

use crate::gaps::gaps_value;
use crate::jumps::jumps_value;
use crate::moments::{calling_value, sold_value};
use row_tally::RowTally;
use serde_json::Value;
use site_base::NoMemory;
use site_book::{NamedSale, SiteBook};
use site_json::{PeerSession, put_member, site_value, text_if};
use stamps::Stamp;
use std::alloc::{AllocError, Global};

/// Returns a station as JSON text: its site, as in `site_json::site_value`; since when points call,
/// when sales were sold, the open gaps and the jumps, if there is a tally of its rows; and the
/// site's name, if it has one.
pub fn station_text(
    alloc: Global,
    book: &SiteBook,
    unpaid: &[NamedSale],
    connections: usize,
    sessions: &[PeerSession],
    at: Option<Stamp>,
    opened: Option<Stamp>,
    seal: Option<&str>,
    tally: Option<&RowTally>,
    name: Option<&str>,
) -> Result<String, NoMemory>
    ensures { IfOk result (λ text. string_bytes text ≡ compact_text
        (station_data book.now unpaid.now connections sessions.now at opened
        (option_copied seal.entry) (option_copied tally.entry) (option_copied name.entry))) }
{
    let station = station_value(
        alloc,
        book,
        unpaid,
        connections,
        sessions,
        at,
        opened,
        seal,
        tally,
        name,
    )?;
    Ok(station.to_string(alloc)?)
}

/// The same as a value.
fn station_value(
    alloc: Global,
    book: &SiteBook,
    unpaid: &[NamedSale],
    connections: usize,
    sessions: &[PeerSession],
    at: Option<Stamp>,
    opened: Option<Stamp>,
    seal: Option<&str>,
    tally: Option<&RowTally>,
    name: Option<&str>,
) -> Result<Value, NoMemory>
    ensures { IfOk result (λ value. view value
        ≡ station_data book.now unpaid.now connections sessions.now at opened
        (option_copied seal.entry) (option_copied tally.entry) (option_copied name.entry)) }
{
    let calling = calling_value(alloc, book, tally)?;
    let gaps = gaps_value(alloc, tally)?;
    let jumps = jumps_value(alloc, tally)?;
    let name = text_if(alloc, name)?;
    let sold = sold_value(alloc, tally)?;
    let site = site_value(alloc, book, unpaid, connections, sessions, at, opened, seal)?;
    Ok(with_told(alloc, site, calling, gaps, jumps, name, sold)?)
}

/// A site, which is an object, with these members more.
fn with_told(
    alloc: Global,
    site: Value,
    calling: Value,
    gaps: Value,
    jumps: Value,
    name: Value,
    sold: Value,
) -> Result<Value, AllocError>
    requires { view site ≡ object (members_of (view site)) }
    ensures { IfOk result (λ value. view value ≡ with_told (view calling) (view gaps)
        (view jumps) (view name) (view sold) (view site)) }
{
    let Value::Object(mut members) = site else {
        unreachable!();
    };
    put_member(alloc, &mut members, "calling", calling)?;
    put_member(alloc, &mut members, "gaps", gaps)?;
    put_member(alloc, &mut members, "jumps", jumps)?;
    put_member(alloc, &mut members, "name", name)?;
    put_member(alloc, &mut members, "sold", sold)?;
    Ok(Value::Object(members))
}
