//! What is printed below the first line of a site file's fault.

use crate::findings::{Finding, Why, findings_of};
use crate::lines::{Position, Span};
use crate::places::{Place, find_place, places_of};
use crate::words::{FaultWords, named_spot};
use site_base::NoMemory;
use site_file::ConfigFault;
use std::alloc::Global;
use toml::Table;
use toml::de::Error;

/// How many faults are told below the first one.
const MORE_FAULTS: usize = 20;

/// Returns what is printed below the first line of a site file's fault: the place of the fault, its
/// line, what was found and what was expected, and below that the other faults that can be found
/// without it, in the order of the file. Each line ends with a newline. For `NoMemory` it is empty.
pub fn explain_fault(
    alloc: Global,
    octets: &[u8],
    fault: &ConfigFault,
) -> Result<String, NoMemory> {
    let mut text = String::new(alloc);
    if let ConfigFault::NoMemory = fault {
        return Ok(text);
    }
    match toml::table_from_slice(alloc, octets) {
        Ok(file) => explain_tree(alloc, &mut text, octets, &file)?,
        Err(error) => explain_toml(alloc, &mut text, octets, error)?,
    }
    Ok(text)
}

/// Appends what `toml` says of a text that isn't TOML.
fn explain_toml(
    alloc: Global,
    text: &mut String,
    octets: &[u8],
    error: Error,
) -> Result<(), NoMemory> {
    let Some(span) = error.span() else {
        return Err(NoMemory);
    };
    let span = Span {
        start: span.start,
        end: span.end,
    };
    let mut words = String::new(alloc);
    words.push_str(error.message())?;
    if let Some(hint) = hint_at(error.message(), octets, span.start) {
        write!(words, "; {hint}")?;
    }
    let position = Position::new(octets, span);
    let (line, column) = (position.line, position.column);
    position.put_margin(text)?;
    write!(text, "--> line {line}, column {column}\n")?;
    position.put(text, words.as_str())
}

/// How what stands here has to be written, which `toml` refuses with this message: a number with a
/// comma or with a leading zero, or the line above a product or a point with single brackets.
fn hint_at(message: &str, octets: &[u8], place: usize) -> Option<&'static str> {
    let before = octets.get(place.wrapping_sub(1)).copied();
    let after = octets.get(place.saturating_add(1)).copied();
    match (before, octets.get(place).copied(), after) {
        (Some(b'0'..=b'9'), Some(b','), _) => Some("a whole number is written without commas"),
        (_, Some(b'0'), Some(b'0'..=b'9')) => {
            Some("a whole number is written without leading zeros")
        }
        (_, Some(b'['), _) if message == "duplicate key" => {
            Some("each product and each point stands below a line with two brackets, as [[point]]")
        }
        _ => None,
    }
}

/// A fault, and where it is in the text, if the text shows it.
#[derive(Clone, Copy, Debug)]
struct Located<'a> {
    finding: Finding<'a>,
    span: Option<Span>,
}

/// Appends the faults of a text that is TOML.
fn explain_tree<'a>(
    alloc: Global,
    text: &mut String,
    octets: &'a [u8],
    file: &'a Table,
) -> Result<(), NoMemory> {
    let places = places_of(alloc, octets)?;
    let findings = findings_of(alloc, file)?;
    let [first, others @ ..] = findings.as_slice() else {
        return Ok(());
    };
    put_first(alloc, text, octets, locate(places.as_slice(), *first))?;
    let mut more = Vec::new(alloc);
    for finding in others {
        more.push(locate(places.as_slice(), *finding))?;
    }
    more.sort_by_key(|one| place_of(one))?;
    let mut count = 0usize;
    for one in &more {
        if count < MORE_FAULTS {
            put_other(text, octets, one)?;
        }
        count = count.saturating_add(1);
    }
    if count > MORE_FAULTS {
        write!(text, "and {} more\n", count.saturating_sub(MORE_FAULTS))?;
    }
    Ok(())
}

/// Where a fault comes in the order of the file: one without a place comes last.
fn place_of(one: &Located<'_>) -> usize {
    match one.span {
        Some(span) => span.start,
        None => usize::MAX,
    }
}

fn locate<'a>(places: &[Place<'_>], finding: Finding<'a>) -> Located<'a> {
    let span = match (find_place(places, &finding.spot), finding.why) {
        (Some(place), Why::Unknown) => Some(place.key),
        (Some(place), _) => Some(place.value),
        (None, _) => None,
    };
    Located { finding, span }
}

/// Appends the first fault, with its line.
fn put_first<'a>(
    alloc: Global,
    text: &mut String,
    octets: &'a [u8],
    first: Located<'a>,
) -> Result<(), NoMemory> {
    let spot = named_spot(&first.finding);
    let mut words = String::new(alloc);
    write!(words, "{}", words_of(octets, &first))?;
    let Some(span) = first.span else {
        write!(text, " --> {spot}: {}\n", words.as_str())?;
        return Ok(());
    };
    let position = Position::new(octets, span);
    let (line, column) = (position.line, position.column);
    position.put_margin(text)?;
    write!(text, "--> line {line}, column {column}: {spot}\n")?;
    position.put(text, words.as_str())
}

/// Appends another fault, on a line of its own.
fn put_other<'a>(text: &mut String, octets: &'a [u8], other: &Located<'a>) -> Result<(), NoMemory> {
    match other.span {
        Some(span) => {
            let position = Position::new(octets, span);
            let (line, column) = (position.line, position.column);
            write!(text, "line {line}, column {column}: ")?;
        }
        None => text.push_str("also: ")?,
    }
    let finding = &other.finding;
    let (number, spot) = (finding.number(), named_spot(finding));
    write!(text, "fault {number}: {spot}: ")?;
    write!(text, "{}\n", words_of(octets, other))?;
    Ok(())
}

fn words_of<'a>(octets: &'a [u8], one: &Located<'a>) -> FaultWords<'a> {
    let found = match one.span {
        Some(span) => octets.get(span.start..span.end),
        None => None,
    };
    FaultWords {
        finding: one.finding,
        found,
    }
}
