//! The numbers of the parts of a site.

ghost use Rattle.std.specs.Prelude.{◌≡◌, ℕ, ◌+◌, ◌<◌, ◌≤◌, ◌↔◌, IsSome, IfSome};

use crate::limits::{NOZZLES, POINT_CELLS, POINTS, PRODUCT_CELLS, PRODUCTS, TILL_CELLS, TILLS};
use std::marker::Model;

/// The greatest sequence number of a transaction at a fuelling point in one shift.
pub const GREATEST_SEQ: u16 = 9_999;

/// The greatest number of a shift.
pub const GREATEST_SHIFT: u16 = 999;

/// A number by which the rows of a table are found.
pub trait Number: Copy {
    ghost number: { Self → ℕ };

    /// Returns the number itself.
    fn number(self) -> u8
        ensures { result ≡ number self };
}

/// The number of a fuelling point, from 1 to `POINTS`.
#[derive(Clone, Copy, Debug, PartialEq, Eq)]
pub struct FpNo {
    number: u8,
}

impl Model for FpNo {
    ghost use Rattle.std.specs.Prelude.{ℕ, ◌≤◌};
    ghost use Rattle.site_base.specs.declared.limits.TheConstants.{POINTS};

    ghost Value = { ℕ };

    ghost view = { λ n. n.number };

    ghost invariant = { λ n. (1 ≤ n.number) × (n.number ≤ POINTS) };

    ghost inverse = { λ n. record { number = n } };
}

impl Number for FpNo {
    ghost number = { λ n. n };

    fn number(self) -> u8 {
        self.number
    }
}

impl FpNo {
    /// Returns the fuelling point with this number, if there can be one.
    pub fn new(number: u8) -> Option<Self>
        ensures valid { IsSome result ↔ ((1 ≤ number) × (number ≤ POINTS)) }
        ensures value { IfSome result (λ n. n ≡ number) }
    {
        if 1 <= number && number <= POINTS {
            Some(FpNo { number })
        } else {
            None
        }
    }

    /// Returns its number.
    pub fn get(self) -> u8
        ensures value { result ≡ self }
        ensures range { (1 ≤ result) × (result ≤ POINTS) }
    {
        self.number
    }

    /// Returns its cell in an array that has one for each fuelling point, from number 1 on.
    pub fn cell(self) -> usize
        ensures place { result + 1 ≡ self }
        ensures within { result < POINT_CELLS }
    {
        usize::from(self.number) - 1
    }

    /// Returns the fuelling point of a cell.
    pub fn of_cell(cell: usize) -> Self
        requires { cell < POINT_CELLS }
        ensures { result ≡ cell + 1 }
    {
        FpNo {
            number: cell as u8 + 1,
        }
    }
}

/// The number of a nozzle at its fuelling point, from 1 to `NOZZLES`.
#[derive(Clone, Copy, Debug, PartialEq, Eq)]
pub struct NozzleNo {
    number: u8,
}

impl Model for NozzleNo {
    ghost use Rattle.std.specs.Prelude.{ℕ, ◌≤◌};
    ghost use Rattle.site_base.specs.declared.limits.TheConstants.{NOZZLES};

    ghost Value = { ℕ };

    ghost view = { λ n. n.number };

    ghost invariant = { λ n. (1 ≤ n.number) × (n.number ≤ NOZZLES) };

    ghost inverse = { λ n. record { number = n } };
}

impl NozzleNo {
    /// Returns the nozzle with this number, if there can be one.
    pub fn new(number: u8) -> Option<Self>
        ensures valid { IsSome result ↔ ((1 ≤ number) × (number ≤ NOZZLES)) }
        ensures value { IfSome result (λ n. n ≡ number) }
    {
        if 1 <= number && number <= NOZZLES {
            Some(NozzleNo { number })
        } else {
            None
        }
    }

    /// Returns its number.
    pub fn get(self) -> u8
        ensures value { result ≡ self }
        ensures range { (1 ≤ result) × (result ≤ NOZZLES) }
    {
        self.number
    }
}

/// The number of a till, from 1 to `TILLS`.
#[derive(Clone, Copy, Debug, PartialEq, Eq)]
pub struct TillNo {
    number: u8,
}

impl Model for TillNo {
    ghost use Rattle.std.specs.Prelude.{ℕ, ◌≤◌};
    ghost use Rattle.site_base.specs.declared.limits.TheConstants.{TILLS};

    ghost Value = { ℕ };

    ghost view = { λ n. n.number };

    ghost invariant = { λ n. (1 ≤ n.number) × (n.number ≤ TILLS) };

    ghost inverse = { λ n. record { number = n } };
}

impl TillNo {
    /// Returns the till with this number, if there can be one.
    pub fn new(number: u8) -> Option<Self>
        ensures valid { IsSome result ↔ ((1 ≤ number) × (number ≤ TILLS)) }
        ensures value { IfSome result (λ n. n ≡ number) }
    {
        if 1 <= number && number <= TILLS {
            Some(TillNo { number })
        } else {
            None
        }
    }

    /// Returns its number.
    pub fn get(self) -> u8
        ensures value { result ≡ self }
        ensures range { (1 ≤ result) × (result ≤ TILLS) }
    {
        self.number
    }

    /// Returns its cell in an array that has one for each till, from number 1 on.
    pub fn cell(self) -> usize
        ensures place { result + 1 ≡ self }
        ensures within { result < TILL_CELLS }
    {
        usize::from(self.number) - 1
    }

    /// Returns the till of a cell.
    pub fn of_cell(cell: usize) -> Self
        requires { cell < TILL_CELLS }
        ensures { result ≡ cell + 1 }
    {
        TillNo {
            number: cell as u8 + 1,
        }
    }
}

/// The number of a product, from 1 to `PRODUCTS`.
#[derive(Clone, Copy, Debug, PartialEq, Eq)]
pub struct ProductNo {
    number: u8,
}

impl Model for ProductNo {
    ghost use Rattle.std.specs.Prelude.{ℕ, ◌≤◌};
    ghost use Rattle.site_base.specs.declared.limits.TheConstants.{PRODUCTS};

    ghost Value = { ℕ };

    ghost view = { λ n. n.number };

    ghost invariant = { λ n. (1 ≤ n.number) × (n.number ≤ PRODUCTS) };

    ghost inverse = { λ n. record { number = n } };
}

impl Number for ProductNo {
    ghost number = { λ n. n };

    fn number(self) -> u8 {
        self.number
    }
}

impl ProductNo {
    /// Returns the product with this number, if there can be one.
    pub fn new(number: u8) -> Option<Self>
        ensures valid { IsSome result ↔ ((1 ≤ number) × (number ≤ PRODUCTS)) }
        ensures value { IfSome result (λ n. n ≡ number) }
    {
        if 1 <= number && number <= PRODUCTS {
            Some(ProductNo { number })
        } else {
            None
        }
    }

    /// Returns its number.
    pub fn get(self) -> u8
        ensures value { result ≡ self }
        ensures range { (1 ≤ result) × (result ≤ PRODUCTS) }
    {
        self.number
    }

    /// Returns its cell in an array that has one for each product, from number 1 on.
    pub fn cell(self) -> usize
        ensures place { result + 1 ≡ self }
        ensures within { result < PRODUCT_CELLS }
    {
        usize::from(self.number) - 1
    }

    /// Returns the product of a cell.
    pub fn of_cell(cell: usize) -> Self
        requires { cell < PRODUCT_CELLS }
        ensures { result ≡ cell + 1 }
    {
        ProductNo {
            number: cell as u8 + 1,
        }
    }
}

/// The sequence number of a transaction at its fuelling point in its shift, from 1 to
/// `GREATEST_SEQ`.
#[derive(Clone, Copy, Debug, PartialEq, Eq)]
pub struct Seq {
    number: u16,
}

impl Model for Seq {
    ghost use Rattle.std.specs.Prelude.{ℕ, ◌≤◌};
    ghost use Rattle.site_base.specs.declared.numbers.TheConstants.{GREATEST_SEQ};

    ghost Value = { ℕ };

    ghost view = { λ n. n.number };

    ghost invariant = { λ n. (1 ≤ n.number) × (n.number ≤ GREATEST_SEQ) };

    ghost inverse = { λ n. record { number = n } };
}

impl Seq {
    /// Returns the sequence number `number`, if it is in range.
    pub fn new(number: u16) -> Option<Self>
        ensures valid { IsSome result ↔ ((1 ≤ number) × (number ≤ GREATEST_SEQ)) }
        ensures value { IfSome result (λ n. n ≡ number) }
    {
        if 1 <= number && number <= GREATEST_SEQ {
            Some(Seq { number })
        } else {
            None
        }
    }

    /// Returns its number.
    pub fn get(self) -> u16
        ensures value { result ≡ self }
        ensures range { (1 ≤ result) × (result ≤ GREATEST_SEQ) }
    {
        self.number
    }
}

/// The number of a shift, from 1 to `GREATEST_SHIFT`.
#[derive(Clone, Copy, Debug, PartialEq, Eq)]
pub struct ShiftNo {
    number: u16,
}

impl Model for ShiftNo {
    ghost use Rattle.std.specs.Prelude.{ℕ, ◌≤◌};
    ghost use Rattle.site_base.specs.declared.numbers.TheConstants.{GREATEST_SHIFT};

    ghost Value = { ℕ };

    ghost view = { λ n. n.number };

    ghost invariant = { λ n. (1 ≤ n.number) × (n.number ≤ GREATEST_SHIFT) };

    ghost inverse = { λ n. record { number = n } };
}

impl ShiftNo {
    /// The shift that is open when a site opens.
    pub const FIRST: Self = ShiftNo { number: 1 };

    /// Returns the shift with this number, if there can be one.
    pub fn new(number: u16) -> Option<Self>
        ensures valid { IsSome result ↔ ((1 ≤ number) × (number ≤ GREATEST_SHIFT)) }
        ensures value { IfSome result (λ n. n ≡ number) }
    {
        if 1 <= number && number <= GREATEST_SHIFT {
            Some(ShiftNo { number })
        } else {
            None
        }
    }

    /// Returns its number.
    pub fn get(self) -> u16
        ensures value { result ≡ self }
        ensures range { (1 ≤ result) × (result ≤ GREATEST_SHIFT) }
    {
        self.number
    }
}
