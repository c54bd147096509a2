//! What a site file has to have at each place, as a sentence.

use crate::spots::Owner;
use site_base::{
    GREATEST_PRICE, GREATEST_READING, GREATEST_ROWS, NAME_OCTETS, NOZZLES, POINTS, PRODUCTS, TILLS,
};
use std::fmt;

/// What has to be somewhere.
#[derive(Clone, Copy, Debug)]
pub enum Rule {
    /// At `rows`.
    Rows,
    /// At `managers`.
    Managers,
    /// At `product` of the file.
    Products,
    /// At a product's number.
    ProductNumber,
    /// At a product's name.
    Name,
    /// At a product's price.
    Price,
    /// At `point`.
    Points,
    /// At a point's number.
    PointNumber,
    /// At a point's nozzles.
    Nozzles,
    /// At a nozzle's product.
    NozzleProduct,
    /// At a nozzle's reading.
    Reading,
}

/// Returns the rule of a table's key.
pub fn rule_of(owner: Owner, key: &[u8]) -> Option<Rule> {
    match (owner, key) {
        (Owner::File, b"rows") => Some(Rule::Rows),
        (Owner::File, b"managers") => Some(Rule::Managers),
        (Owner::File, b"product") => Some(Rule::Products),
        (Owner::File, b"point") => Some(Rule::Points),
        (Owner::Product(_), b"number") => Some(Rule::ProductNumber),
        (Owner::Product(_), b"name") => Some(Rule::Name),
        (Owner::Product(_), b"price") => Some(Rule::Price),
        (Owner::Point(_), b"number") => Some(Rule::PointNumber),
        (Owner::Point(_), b"nozzles") => Some(Rule::Nozzles),
        (Owner::Nozzle(_, _), b"product") => Some(Rule::NozzleProduct),
        (Owner::Nozzle(_, _), b"reading") => Some(Rule::Reading),
        _ => None,
    }
}

impl fmt::Display for Rule {
    fn fmt<W: fmt::Write>(&self, f: &mut fmt::Formatter<W>) -> fmt::Result {
        match self {
            Rule::Rows => write!(f, "rows is a whole number from 1 to {GREATEST_ROWS}"),
            Rule::Managers => {
                write!(
                    f,
                    "managers is a list of tills' numbers from 1 to {TILLS}, none twice"
                )
            }
            Rule::Products => {
                write!(
                    f,
                    "there are 1 to {PRODUCTS} products, each below a line [[product]]"
                )
            }
            Rule::ProductNumber => write!(
                f,
                "a product's number is a whole number from 1 to {PRODUCTS}, of one product alone"
            ),
            Rule::Name => write!(
                f,
                "a product's name is 1 to {NAME_OCTETS} of a to z, 0 to 9 and hyphen between \
                 quotation marks, of one product alone"
            ),
            Rule::Price => write!(
                f,
                "a price is a whole number of mills from 1 to {GREATEST_PRICE}"
            ),
            Rule::Points => {
                write!(
                    f,
                    "there are 1 to {POINTS} points, each below a line [[point]]"
                )
            }
            Rule::PointNumber => write!(
                f,
                "a point's number is a whole number from 1 to {POINTS}, of one point alone"
            ),
            Rule::Nozzles => write!(
                f,
                "a point has a list of 1 to {NOZZLES} nozzles, each as {{product = 1, reading = 0}}"
            ),
            Rule::NozzleProduct => {
                f.write_str("a nozzle's product is the number of a product of this file")
            }
            Rule::Reading => write!(
                f,
                "a reading is a whole number of millilitres from 0 to {GREATEST_READING}"
            ),
        }
    }
}

/// Returns the keys of a table, as a sentence.
pub fn keys_of(owner: Owner) -> &'static str {
    match owner {
        Owner::File => "a site file has the keys rows, managers, product and point",
        Owner::Product(_) => "a product has the keys number, name and price",
        Owner::Point(_) => "a point has the keys number and nozzles",
        Owner::Nozzle(_, _) => "a nozzle has the keys product and reading",
    }
}
