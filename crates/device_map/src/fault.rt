//! Why a message means no event.

ghost use Rattle.std.specs.Prelude.{◌≡◌};
ghost use Rattle.device_map.specs.Faults.{map_number};

use thiserror::Error;

/// Why a message means no event. If it has several faults, the first in this order is returned. No
/// row is made.
#[derive(Clone, Copy, Debug, PartialEq, Eq, Error)]
pub enum MapFault {
    /// It is an Answer, a Notice or an Ack.
    #[error("the message is no request")]
    NotARequest,
    /// Its recipient isn't the site.
    #[error("the message isn't for this site")]
    NotForUs,
    /// A Read or Write comes from no till, or a Report from no dispenser.
    #[error("the originator may not ask this")]
    BadOriginator,
    /// The address names no database, or one without requests of this kind.
    #[error("there is no such database for this kind of message")]
    BadAddress,
    /// An item that doesn't belong to the request, or a first item that is no command.
    #[error("an item doesn't belong to the request")]
    UnknownItem,
    /// An item of the request is missing.
    #[error("an item is missing")]
    ItemMissing,
    /// In a transaction's address a digit is above 9, the number is 0000, or the shift is 0000 or
    /// above 0999.
    #[error("the address of a transaction isn't decimal")]
    BadDecimal,
    /// A content of another width, or a number out of its range.
    #[error("a content has a wrong width or range")]
    BadNumber,
}

impl MapFault {
    /// Returns the number in a reply: 50 to 58.
    pub fn number(self) -> u8
        ensures { result ≡ map_number self }
    {
        match self {
            MapFault::NotARequest => 58,
            MapFault::NotForUs => 50,
            MapFault::BadOriginator => 51,
            MapFault::BadAddress => 52,
            MapFault::UnknownItem => 53,
            MapFault::ItemMissing => 54,
            MapFault::BadDecimal => 55,
            MapFault::BadNumber => 56,
        }
    }
}
