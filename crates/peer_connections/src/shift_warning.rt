//! A warning before the last shift of a history.

use site_base::{GREATEST_SHIFT, ShiftNo};

/// From this shift on it is said how many there can be.
const FIRST_WARNED: u16 = GREATEST_SHIFT - 9;

/// Reports that another history has to follow, if one of the last shifts of a history is open.
pub fn warn_of_last_shifts<E: Eprint>(rt: &E, open: ShiftNo) {
    let number = open.get();
    if number >= FIRST_WARNED {
        let _ = eprintln!(rt; "shift {number} is open, of {GREATEST_SHIFT}: see forecourt next");
    }
}
