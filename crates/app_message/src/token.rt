//! The number by which a reply is matched to its request.

ghost use Rattle.std.specs.Prelude.{◌≡◌, ◌%◌, ◌<◌, SomeIff};

use std::marker::Model;

/// A token, 0 to 31: the low five bits of the status octet.
#[derive(Clone, Copy, Debug, PartialEq, Eq)]
pub struct Token {
    number: u8,
}

impl Model for Token {
    ghost use Rattle.std.specs.Prelude.{ℕ, ◌<◌};

    ghost Value = { ℕ };

    ghost view = { λ t. t.number };

    ghost invariant = { λ t. t.number < 32 };

    ghost inverse = { λ n. record { number = n } };
}

impl Token {
    /// Returns the token of this number, or `None` above 31.
    pub fn new(number: u8) -> Option<Token>
        ensures { SomeIff result (number < 32) number }
    {
        if number < 32 {
            Some(Token { number })
        } else {
            None
        }
    }

    /// The token in a status octet.
    pub(crate) fn of_status(status: u8) -> Token
        ensures { result ≡ status % 32 }
    {
        Token {
            number: status % 32,
        }
    }

    /// Returns the number.
    pub fn get(self) -> u8
        ensures value { result ≡ self }
        ensures range { result < 32 }
    {
        self.number
    }
}
