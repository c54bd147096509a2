//! Where something of a site file is, in terms of its tree.

use crate::shown::Shown;
use std::fmt;

/// The octets of a key that are printed.
const KEY_OCTETS: usize = 20;

/// A table of a site file. Members of lists are counted from 1.
#[derive(Clone, Copy, Debug, PartialEq, Eq)]
pub enum Owner {
    /// The file itself.
    File,
    /// The nth product.
    Product(usize),
    /// The nth fuelling point.
    Point(usize),
    /// A nozzle: the place of its point, and its own place there.
    Nozzle(usize, usize),
}

/// A table, the value at a key of one, or a manager.
#[derive(Clone, Copy, Debug)]
pub enum Spot<'a> {
    /// A table.
    Whole(Owner),
    /// The value at this key of a table.
    Value(Owner, &'a [u8]),
    /// The nth manager.
    Manager(usize),
}

/// Are the two the same?
pub fn is_same_spot(left: &Spot<'_>, right: &Spot<'_>) -> bool {
    match (left, right) {
        (Spot::Whole(one), Spot::Whole(other)) => *one == *other,
        (Spot::Value(one, key), Spot::Value(other, name)) => *one == *other && *key == *name,
        (Spot::Manager(one), Spot::Manager(other)) => *one == *other,
        _ => false,
    }
}

impl fmt::Display for Owner {
    fn fmt<W: fmt::Write>(&self, f: &mut fmt::Formatter<W>) -> fmt::Result {
        match self {
            Owner::File => f.write_str("the file"),
            Owner::Product(place) => write!(f, "the {} product", Ordinal(*place)),
            Owner::Point(place) => write!(f, "the {} point", Ordinal(*place)),
            Owner::Nozzle(point, place) => {
                write!(f, "nozzle {place} of the {} point", Ordinal(*point))
            }
        }
    }
}

impl<'a> fmt::Display for Spot<'a> {
    fn fmt<W: fmt::Write>(&self, f: &mut fmt::Formatter<W>) -> fmt::Result {
        match self {
            Spot::Whole(owner) => write!(f, "{owner}"),
            Spot::Value(Owner::File, key) => write!(f, "{}", Shown::of_front(key, KEY_OCTETS)),
            Spot::Value(owner, key) => {
                write!(f, "{} of {owner}", Shown::of_front(key, KEY_OCTETS))
            }
            Spot::Manager(place) => write!(f, "the {} manager", Ordinal(*place)),
        }
    }
}

/// A place in a row: 1st, 2nd, 11th.
#[derive(Clone, Copy, Debug)]
struct Ordinal(usize);

impl fmt::Display for Ordinal {
    fn fmt<W: fmt::Write>(&self, f: &mut fmt::Formatter<W>) -> fmt::Result {
        let place = self.0;
        let ending = match (place % 100, place % 10) {
            (11..=13, _) => "th",
            (_, 1) => "st",
            (_, 2) => "nd",
            (_, 3) => "rd",
            _ => "th",
        };
        write!(f, "{place}{ending}")
    }
}
