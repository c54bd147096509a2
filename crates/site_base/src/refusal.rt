//! Why the site refuses an event.

ghost use Rattle.std.specs.Prelude.{◌≡◌};
ghost use Rattle.site_base.specs.Refusals.{refusal_number, refusal_detail, no_row_number};
ghost use Rattle.site_base.specs.declared.refusal.NoRow.TheVariants.{NoMemory as no_memory};

use crate::amounts::Millilitres;
use crate::memory::NoMemory;
use crate::numbers::{NozzleNo, TillNo};
use crate::state::PointState;

/// Why the site refuses an event. The refused event makes a row and changes nothing else. The
/// variants are in the order of their numbers, 1 to 25.
#[derive(Clone, Copy, Debug, PartialEq, Eq)]
pub enum Refusal {
    /// The till isn't signed on.
    NotSignedOn,
    /// The till is signed on already.
    SignedOn,
    /// The site has no such fuelling point.
    NoSuchPoint,
    /// The fuelling point has no such nozzle.
    NoSuchNozzle,
    /// The site has no such product.
    NoSuchProduct,
    /// The fuelling point has no such transaction.
    NoSuchTransaction,
    /// Only a manager may do this.
    NotManager,
    /// The price is out of range.
    BadPrice,
    /// The preset or prepayment is out of range.
    BadPreset,
    /// The event isn't accepted in this state of the fuelling point.
    WrongState(PointState),
    /// This other till holds the fuelling point.
    AssignedToOther(TillNo),
    /// Nobody holds the fuelling point.
    NotYours,
    /// The fuelling point isn't this dispenser's, or the event isn't this kind of actor's.
    NotYourPoint,
    /// Another nozzle is out: this one.
    WrongNozzle(NozzleNo),
    /// The fuelling point has as many unpaid transactions as it may.
    BufferFull,
    /// The fuelling point has no sequence number left in the open shift.
    SequenceSpent,
    /// The reading isn't the meter's last one. This reading was expected.
    MeterGap(Millilitres),
    /// The reading is below the meter's last one, which is this.
    MeterBack(Millilitres),
    /// The reading is too far above the meter's last one.
    MeterJump,
    /// This other till has locked the transaction.
    LockedByOther(TillNo),
    /// Nobody has locked the transaction.
    NotLocked,
    /// This till has cleared the transaction already.
    AlreadyCleared(TillNo),
    /// The fuelling is ending.
    Ending,
    /// The last shift is open.
    ShiftsSpent,
    /// The nozzle's meter was replaced as often as it may be.
    MeterSpent,
}

impl Refusal {
    /// Returns its number, 1 to 25.
    pub fn number(&self) -> u8
        ensures { result ≡ refusal_number self.now }
    {
        match self {
            Refusal::NotSignedOn => 1,
            Refusal::SignedOn => 2,
            Refusal::NoSuchPoint => 3,
            Refusal::NoSuchNozzle => 4,
            Refusal::NoSuchProduct => 5,
            Refusal::NoSuchTransaction => 6,
            Refusal::NotManager => 7,
            Refusal::BadPrice => 8,
            Refusal::BadPreset => 9,
            Refusal::WrongState(_) => 10,
            Refusal::AssignedToOther(_) => 11,
            Refusal::NotYours => 12,
            Refusal::NotYourPoint => 13,
            Refusal::WrongNozzle(_) => 14,
            Refusal::BufferFull => 15,
            Refusal::SequenceSpent => 16,
            Refusal::MeterGap(_) => 17,
            Refusal::MeterBack(_) => 18,
            Refusal::MeterJump => 19,
            Refusal::LockedByOther(_) => 20,
            Refusal::NotLocked => 21,
            Refusal::AlreadyCleared(_) => 22,
            Refusal::Ending => 23,
            Refusal::ShiftsSpent => 24,
            Refusal::MeterSpent => 25,
        }
    }

    /// Returns its detail: the state, till, nozzle or reading that it names, as a number; None if
    /// it names none.
    pub fn detail(&self) -> Option<u64>
        ensures { result ≡ refusal_detail self.now }
    {
        match self {
            Refusal::WrongState(state) => Some(u64::from(state.number())),
            Refusal::AssignedToOther(till) => Some(u64::from(till.get())),
            Refusal::WrongNozzle(nozzle) => Some(u64::from(nozzle.get())),
            Refusal::MeterGap(expected) => Some(expected.get()),
            Refusal::MeterBack(last) => Some(last.get()),
            Refusal::LockedByOther(till) => Some(u64::from(till.get())),
            Refusal::AlreadyCleared(till) => Some(u64::from(till.get())),
            _ => None,
        }
    }
}

/// Why an event made no row. Neither the site nor its history has changed.
#[derive(Clone, Copy, Debug, PartialEq, Eq)]
pub enum NoRow {
    /// The history has as many rows as the site file allows.
    BookFull,
    /// An allocation failed.
    NoMemory,
}

impl NoRow {
    /// Returns its number: 30 or 31.
    pub fn number(self) -> u8
        ensures { result ≡ no_row_number self }
    {
        match self {
            NoRow::BookFull => 30,
            NoRow::NoMemory => 31,
        }
    }
}

impl From<NoMemory> for NoRow {
    ghost from_gives = { λ _ e. e ≡ no_memory };

    fn from(_e: NoMemory) -> NoRow {
        NoRow::NoMemory
    }
}
