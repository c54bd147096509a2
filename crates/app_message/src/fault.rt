//! What can be wrong with octets, or with the parts of a message.

ghost use Rattle.std.specs.Prelude.{◌≡◌};
ghost use Rattle.app_message.specs.Numbers.{as_message_fault, grammar_number, message_number};
ghost use Rattle.app_message.specs.declared.fault.MessageFault.TheVariants.{NoMemory as no_memory};

use crate::token::Token;
use std::alloc::{AllocError, AllocFailed};
use thiserror::Error;

/// The first fault of a stream of octets, which ends it.
#[derive(Clone, Copy, Debug, PartialEq, Eq, Error)]
pub enum GrammarFault {
    /// The code octet isn't 00.
    #[error("the code isn't 00")]
    BadCode,
    /// The three bits of the kind are 101 or 110.
    #[error("there is no such kind")]
    BadKind,
    /// The body has not 2 to 1,024 octets, or its address is empty, above 8 octets or above the
    /// body.
    #[error("the body or its address has a wrong length")]
    BadLength,
    /// An identifier isn't above the one before it, or an item's length is 255 or runs over the
    /// end.
    #[error("an item is out of order or has a wrong length")]
    BadItem,
}

impl GrammarFault {
    /// Returns the number in a reply: 40 to 43.
    pub fn number(self) -> u8
        ensures { result ≡ grammar_number self }
    {
        match self {
            GrammarFault::BadCode => 40,
            GrammarFault::BadKind => 41,
            GrammarFault::BadLength => 42,
            GrammarFault::BadItem => 43,
        }
    }
}

/// The fault that ended a stream, and where the faulty header came from.
#[derive(Clone, Copy, Debug, PartialEq, Eq, Error)]
#[error("{fault}")]
pub struct StreamFault {
    /// The first fault.
    pub fault: GrammarFault,
    /// The originator of the faulty header, as subnet and node.
    pub originator: [u8; 2],
    /// The token of the faulty header.
    pub token: Token,
}

/// Why there is no message: a fault of the grammar, an end inside a message, or that memory ran
/// out.
#[derive(Clone, Copy, Debug, PartialEq, Eq, Error)]
pub enum MessageFault {
    /// The code octet isn't 00.
    #[error("the code isn't 00")]
    BadCode,
    /// The three bits of the kind are 101 or 110.
    #[error("there is no such kind")]
    BadKind,
    /// The body has not 2 to 1,024 octets, or its address is empty, above 8 octets or above the
    /// body.
    #[error("the body or its address has a wrong length")]
    BadLength,
    /// An identifier isn't above the one before it, or an item's content is above 254 octets or
    /// runs over the end.
    #[error("an item is out of order or has a wrong length")]
    BadItem,
    /// The stream ends inside a message.
    #[error("the stream ends inside a message")]
    Truncated,
    /// An allocation failed.
    #[error("out of memory")]
    NoMemory,
}

impl MessageFault {
    /// Returns the number in a reply: 40 to 44, and 31 if memory ran out.
    pub fn number(self) -> u8
        ensures { result ≡ message_number self }
    {
        match self {
            MessageFault::BadCode => 40,
            MessageFault::BadKind => 41,
            MessageFault::BadLength => 42,
            MessageFault::BadItem => 43,
            MessageFault::Truncated => 44,
            MessageFault::NoMemory => 31,
        }
    }
}

impl From<GrammarFault> for MessageFault {
    ghost from_gives = { λ g f. f ≡ as_message_fault g };

    fn from(fault: GrammarFault) -> MessageFault {
        match fault {
            GrammarFault::BadCode => MessageFault::BadCode,
            GrammarFault::BadKind => MessageFault::BadKind,
            GrammarFault::BadLength => MessageFault::BadLength,
            GrammarFault::BadItem => MessageFault::BadItem,
        }
    }
}

impl From<AllocError> for MessageFault {
    ghost from_gives = { λ _ f. f ≡ no_memory };

    fn from(_e: AllocError) -> MessageFault {
        MessageFault::NoMemory
    }
}

impl<T: Drop> From<AllocFailed<T>> for MessageFault {
    ghost from_gives = { λ _ f. f ≡ no_memory };

    fn from(_e: AllocFailed<T>) -> MessageFault {
        MessageFault::NoMemory
    }
}
