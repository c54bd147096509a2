//! A fault in words: what was found, and what was expected.

use crate::findings::{Finding, Why};
use crate::lines::front_until_newline;
use crate::rules::{Rule, keys_of, rule_of};
use crate::shown::{Shown, count_shown};
use crate::spots::{Owner, Spot};
use std::fmt;

/// The characters of a value that are printed at most.
const FOUND_CHARACTERS: usize = 40;

/// A fault, with the octets that were found there, if they are known.
#[derive(Clone, Copy, Debug)]
pub struct FaultWords<'a> {
    /// The fault.
    pub finding: Finding<'a>,
    /// What was found there.
    pub found: Option<&'a [u8]>,
}

impl<'a> fmt::Display for FaultWords<'a> {
    fn fmt<W: fmt::Write>(&self, f: &mut fmt::Formatter<W>) -> fmt::Result {
        let spot = self.finding.spot;
        match self.finding.why {
            Why::Unknown => write!(f, "no such key; {}", keys_of(owner_of(spot))),
            Why::Missing(key) => {
                write!(f, "{key} is missing; ")?;
                write_rule(f, rule_of(owner_of(spot), key.text().as_bytes()))
            }
            Why::Members(count) => {
                write!(f, "found a list of {count}; ")?;
                write_rule(f, rule_at(spot))
            }
            Why::Repeated(place) => {
                self.write_found(f, ", which ")?;
                let verb = if let Spot::Manager(_) = spot {
                    "is"
                } else {
                    "has"
                };
                write!(f, "{} {verb} too; ", earlier(spot, place))?;
                write_rule(f, rule_at(spot))
            }
            Why::Kind | Why::Range | Why::NoProduct => {
                self.write_found(f, "; ")?;
                write_rule(f, rule_at(spot))
            }
        }
    }
}

impl<'a> FaultWords<'a> {
    /// Writes what was found, if that is known, and this text behind it.
    fn write_found<W: fmt::Write>(&self, f: &mut fmt::Formatter<W>, behind: &str) -> fmt::Result {
        let Some(found) = self.found else {
            return Ok(());
        };
        let line = front_until_newline(found);
        write!(f, "found {}", Shown::of_front(line, FOUND_CHARACTERS))?;
        if line.len() < found.len() || count_shown(line) > FOUND_CHARACTERS {
            f.write_str(" ..")?;
        }
        f.write_str(behind)
    }
}

fn write_rule<W: fmt::Write>(f: &mut fmt::Formatter<W>, rule: Option<Rule>) -> fmt::Result {
    match rule {
        Some(rule) => write!(f, "{rule}"),
        None => Ok(()),
    }
}

/// Returns what has the fault; for a missing key the key itself.
pub fn named_spot<'a>(finding: &Finding<'a>) -> Spot<'a> {
    match finding.why {
        Why::Missing(key) => Spot::Value(owner_of(finding.spot), key.text().as_bytes()),
        _ => finding.spot,
    }
}

fn owner_of(spot: Spot<'_>) -> Owner {
    match spot {
        Spot::Whole(owner) => owner,
        Spot::Value(owner, _) => owner,
        Spot::Manager(_) => Owner::File,
    }
}

fn rule_at(spot: Spot<'_>) -> Option<Rule> {
    match spot {
        Spot::Value(owner, key) => rule_of(owner, key),
        Spot::Manager(_) => Some(Rule::Managers),
        Spot::Whole(Owner::File) => None,
        Spot::Whole(Owner::Product(_)) => Some(Rule::Products),
        Spot::Whole(Owner::Point(_)) => Some(Rule::Points),
        Spot::Whole(Owner::Nozzle(_, _)) => Some(Rule::Nozzles),
    }
}

/// The earlier member of the list that has the same.
fn earlier(spot: Spot<'_>, place: usize) -> Spot<'static> {
    match spot {
        Spot::Value(Owner::Product(_), _) => Spot::Whole(Owner::Product(place)),
        Spot::Value(Owner::Point(_), _) => Spot::Whole(Owner::Point(place)),
        _ => Spot::Manager(place),
    }
}
