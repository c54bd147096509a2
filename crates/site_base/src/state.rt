//! The states of a fuelling point and of a transaction, and what a fuelling is limited to.

ghost use Rattle.std.specs.Prelude.{◌≡◌};
ghost use Rattle.site_base.specs.States.{state_number, status_number};

/// The greatest preset volume (in millilitres), preset money or prepayment (in cents).
pub const GREATEST_PRESET: u32 = 99_999_999;

/// The state of a fuelling point.
#[derive(Clone, Copy, Debug, PartialEq, Eq)]
pub enum PointState {
    /// The dispenser isn't reached.
    Inoperative = 1,
    /// Reached, and not open for sale.
    Closed = 2,
    /// Open, no nozzle out.
    Idle = 3,
    /// A nozzle is out and nobody has released the point.
    Calling = 4,
    /// Released, no nozzle out yet.
    Authorised = 5,
    /// Released with a nozzle out; no fuel has flowed.
    Started = 6,
    /// Started, and suspended before fuel flowed.
    SuspendedStarted = 7,
    /// Fuel flows.
    Fuelling = 8,
    /// Suspended after fuel flowed.
    SuspendedFuelling = 9,
}

impl PointState {
    /// Returns its number, from 1 (inoperative) to 9 (suspended fuelling).
    pub fn number(self) -> u8
        ensures { result ≡ state_number self }
    {
        self as u8
    }
}

/// The state of a transaction.
#[derive(Clone, Copy, Debug, PartialEq, Eq)]
pub enum Status {
    /// Paid.
    Cleared = 1,
    /// Unpaid, and locked by no till.
    Payable = 2,
    /// Unpaid, and locked by a till.
    Locked = 3,
}

impl Status {
    /// Returns its number, from 1 (cleared) to 3 (locked).
    pub fn number(self) -> u8
        ensures { result ≡ status_number self }
    {
        self as u8
    }
}

/// The limit of a fuelling. It is sent to the dispenser; the site refuses no report because of it.
#[derive(Clone, Copy, Debug, PartialEq, Eq)]
pub enum Preset {
    /// No limit.
    Unset,
    /// A volume, in millilitres.
    Volume(u32),
    /// An amount of money, in cents.
    Money(u32),
}
