//! Some shifts of a history.

ghost use Rattle.std.specs.Prelude.{◌≡◌, ◌≤◌, ◌&&◌, IfSome, nat_le};

use site_base::ShiftNo;

/// Shifts of a history, one after another.
#[derive(Clone, Copy, Debug, PartialEq, Eq)]
pub struct ShiftRange {
    /// The first of them.
    pub first: ShiftNo,
    /// The last one, which isn't before the first.
    pub last: ShiftNo,
}

impl ShiftRange {
    /// Returns the shifts in this word: one, `3`, or several, `3..5`. None if the word has no
    /// shifts.
    pub fn parse(word: &str) -> Option<ShiftRange>
        ensures order { IfSome result (λ shifts. shifts.first ≤ shifts.last) }
    {
        match word.split_once("..") {
            None => {
                let shift = parse_shift(word)?;
                Some(ShiftRange {
                    first: shift,
                    last: shift,
                })
            }
            Some((first, last)) => {
                let (first, last) = (parse_shift(first)?, parse_shift(last)?);
                if last.get() < first.get() {
                    return None;
                }
                Some(ShiftRange { first, last })
            }
        }
    }

    /// Is it one of them?
    pub fn contains(&self, shift: ShiftNo) -> bool
        ensures { result ≡ (nat_le self.now.first shift && nat_le shift self.now.last) }
    {
        self.first.get() <= shift.get() && shift.get() <= self.last.get()
    }
}

/// The shift that this word says.
fn parse_shift(word: &str) -> Option<ShiftNo> {
    // `parse` takes a plus before the digits.
    if word.starts_with('+') {
        return None;
    }
    ShiftNo::new(word.parse::<u16>().ok()?)
}
