//! Numbers of four decimal digits, packed two to an octet.

ghost use Rattle.std.specs.Prelude.{◌≡◌, ◌≤◌, ◌&&◌};
ghost use Rattle.device_map.specs.Stages.{Gives};
ghost use Rattle.device_map.specs.Decimal.{pack_digits, is_decimal, two_digits, four_digits};
ghost use Rattle.device_map.specs.Decimal.{decimal_in, shift_in, sale_named};
ghost use Rattle.device_map.specs.Ways.{digits_of};

use crate::fault::MapFault;
use site_base::{GREATEST_SEQ, GREATEST_SHIFT, SaleId, Seq, ShiftNo};

/// Four digits as an address has them, two to an octet. They are as they came: whether they are
/// decimal is checked later.
#[derive(Clone, Copy)]
pub struct Digits {
    /// The thousands and the hundreds.
    pub high: u8,
    /// The tens and the ones.
    pub low: u8,
}

/// The digits with which an address names a transaction of a fuelling point, as they came.
#[derive(Clone, Copy)]
pub struct SaleDigits {
    /// The digits of its shift; None if the address means the open one.
    pub shift: Option<Digits>,
    /// The digits of its number.
    pub seq: Digits,
}

impl SaleDigits {
    /// Returns the sale that they name, or `BadDecimal`.
    #[tactic(auto, unfolding(crate::specs::Decimal::sale_named))]
    pub fn sale(self) -> Result<SaleId, MapFault>
        ensures { Gives result (sale_named self) }
    {
        let shift = self.shift()?;
        let seq = self.seq.seq()?;
        Ok(SaleId { shift, seq })
    }

    fn shift(self) -> Result<Option<ShiftNo>, MapFault>
        ensures { Gives result (shift_in self.shift) }
    {
        match self.shift {
            None => Ok(None),
            Some(digits) => Ok(Some(digits.shift()?)),
        }
    }
}

impl Digits {
    /// Returns the digits in these two octets.
    pub fn new(high: u8, low: u8) -> Self
        ensures { result ≡ record { high = high; low = low } }
    {
        Digits { high, low }
    }

    /// Returns the digits of a number.
    pub fn of(number: u16) -> Self
        ensures { result ≡ digits_of number }
    {
        let (thousands, hundreds) = (number / 1000 % 10, number / 100 % 10);
        let (tens, ones) = (number / 10 % 10, number % 10);
        Digits {
            high: (thousands * 16 + hundreds) as u8,
            low: (tens * 16 + ones) as u8,
        }
    }

    /// The shift that they number.
    #[tactic(auto, unfolding(crate::specs::Decimal::decimal_in))]
    fn shift(self) -> Result<ShiftNo, MapFault>
        ensures { Gives result (decimal_in GREATEST_SHIFT self) }
    {
        if !self.are_decimal() {
            return Err(MapFault::BadDecimal);
        }
        match ShiftNo::new(self.number()) {
            Some(shift) => Ok(shift),
            None => Err(MapFault::BadDecimal),
        }
    }

    /// Returns the sequence number that they make, or `BadDecimal`.
    #[tactic(auto, unfolding(crate::specs::Decimal::decimal_in))]
    pub fn seq(self) -> Result<Seq, MapFault>
        ensures { Gives result (decimal_in GREATEST_SEQ self) }
    {
        if !self.are_decimal() {
            return Err(MapFault::BadDecimal);
        }
        match Seq::new(self.number()) {
            Some(seq) => Ok(seq),
            None => Err(MapFault::BadDecimal),
        }
    }

    /// Is each of them decimal?
    fn are_decimal(self) -> bool
        ensures { result ≡ (is_decimal self.high && is_decimal self.low) }
    {
        is_decimal(self.high) && is_decimal(self.low)
    }

    /// The number that they make.
    fn number(self) -> u16
        ensures { result ≡ four_digits self }
    {
        two_digits(self.high) * 100 + two_digits(self.low)
    }
}

/// Are both digits of this octet decimal?
fn is_decimal(octet: u8) -> bool
    ensures { result ≡ is_decimal octet }
{
    octet / 16 < 10 && octet % 16 < 10
}

/// The number that the two digits of this octet make.
fn two_digits(octet: u8) -> u16
    ensures value { result ≡ two_digits octet }
    ensures most { result ≤ 165 }
{
    u16::from(octet / 16) * 10 + u16::from(octet % 16)
}

/// Returns a sequence number as four decimal digits, packed two to an octet.
pub fn packed_digits(number: u16) -> u16
    requires { number ≤ GREATEST_SEQ }
    ensures { result ≡ pack_digits number }
{
    number / 1000 % 10 * 4096 + number / 100 % 10 * 256 + number / 10 % 10 * 16 + number % 10
}
