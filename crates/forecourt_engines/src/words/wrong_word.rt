//! Which word of a line is wrong, and what was expected there.

use std::fmt;
use thiserror::Error;

/// What a word of a line could be.
#[derive(Clone, Copy, Debug, PartialEq, Eq)]
pub enum Wanted {
    /// `t1` to `t32`, or `d1` to `d64`.
    Actor,
    /// The name of a till's request.
    Request,
    /// The name of a dispenser's report.
    Report,
    /// The name of an event.
    EventName,
    /// A fuelling point's number.
    Point,
    /// A product's number.
    Product,
    /// A nozzle and its meter's reading: `1@1000`.
    Meter,
    /// A transaction of a point: `3/1`, or in shift 2 `3/2/1`.
    Transaction,
    /// `volume`, `money`, or nothing.
    Limit,
    /// Millilitres, cents or mills.
    Amount,
    /// `token`.
    Token,
    /// A token's number.
    TokenNumber,
    /// Nothing more.
    Nothing,
}

/// The first wrong word of a line, counted from 1, and what was expected there.
#[derive(Clone, Copy, Debug, PartialEq, Eq)]
pub struct WrongWord {
    /// The word's place; if a word is missing, the place after the last one.
    pub place: usize,
    /// What was expected there.
    pub wanted: Wanted,
}

/// Why a line in words asks for nothing.
#[derive(Clone, Copy, Debug, PartialEq, Eq, Error)]
pub enum LineFault {
    /// A word is wrong.
    #[error("word {}: {}", .0.place, .0.wanted)]
    Wrong(WrongWord),
    /// An allocation failed.
    #[error("out of memory")]
    NoMemory,
}

impl WrongWord {
    /// Returns that the word at this place is wrong, and that this was expected there.
    pub fn new(place: usize, wanted: Wanted) -> WrongWord {
        WrongWord { place, wanted }
    }

    /// Returns the same word in a line with `others` more words at its front.
    pub fn shift_by(self, others: usize) -> WrongWord {
        WrongWord {
            place: self.place.saturating_add(others),
            wanted: self.wanted,
        }
    }
}

impl fmt::Display for Wanted {
    fn fmt<W: fmt::Write>(&self, f: &mut fmt::Formatter<W>) -> fmt::Result {
        f.write_str(match self {
            Wanted::Actor => "t1 to t32, or d1 to d64",
            Wanted::Request => "what a till asks for, as SignOn",
            Wanted::Report => "what a dispenser reports, as Online",
            Wanted::EventName => "the name of an event, as SignOn",
            Wanted::Point => "a fuelling point, 1 to 64",
            Wanted::Product => "a product, 1 to 8",
            Wanted::Meter => "a nozzle and its meter's reading, as 1@1000",
            Wanted::Transaction => "a transaction, as 3/1, or with its shift 3/2/1",
            Wanted::Limit => "volume, money, or nothing",
            Wanted::Amount => "a number, 0 to 4294967295",
            Wanted::Token => "token",
            Wanted::TokenNumber => "a token's number, 0 to 31",
            Wanted::Nothing => "nothing more",
        })
    }
}
