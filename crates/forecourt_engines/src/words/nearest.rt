//! What a wrong word was perhaps meant to be.

/// The names of events.
const NAMES: [&str; 27] = [
    "SignOn",
    "SignOff",
    "Open",
    "Close",
    "Assign",
    "Unassign",
    "Release",
    "Prepay",
    "TestRelease",
    "Suspend",
    "Resume",
    "Terminate",
    "ReplaceMeter",
    "ReadPoint",
    "Lock",
    "Unlock",
    "Clear",
    "ReadTransaction",
    "SetPrice",
    "ReadProduct",
    "CloseShift",
    "ReadSite",
    "Online",
    "Offline",
    "Lift",
    "Flow",
    "HangUp",
];

/// The name of an event that differs from this word by one letter at most, whether its letters are
/// small or capital, if there is one.
pub(crate) fn nearest_name(word: &[u8]) -> Option<&'static str> {
    for name in &NAMES {
        if is_near(word, name.as_bytes()) {
            return Some(*name);
        }
    }
    None
}

/// Do these differ by one letter at most, which is another one, left out or too many?
fn is_near(word: &[u8], name: &[u8]) -> bool {
    let least = word.len().min(name.len());
    let front = count_front(word, name, least);
    let same = front.saturating_add(count_back(word, name, least.saturating_sub(front)));
    word.len().saturating_sub(same) <= 1 && name.len().saturating_sub(same) <= 1
}

/// So many first letters are the same, of this many.
fn count_front(word: &[u8], name: &[u8], most: usize) -> usize {
    let mut count = 0usize;
    for (one, other) in word.iter().zip(name.iter()).take(most) {
        if !one.eq_ignore_ascii_case(other) {
            return count;
        }
        count = count.saturating_add(1);
    }
    count
}

/// So many last letters are the same, of this many.
fn count_back(word: &[u8], name: &[u8], most: usize) -> usize {
    let mut count = 0usize;
    for (one, other) in word.iter().rev().zip(name.iter().rev()).take(most) {
        if !one.eq_ignore_ascii_case(other) {
            return count;
        }
        count = count.saturating_add(1);
    }
    count
}

/// Does the line's first comma stand between two digits, as in `20,000`?
pub(crate) fn parts_a_number(line: &[u8]) -> bool {
    let Some(place) = line.iter().position(|octet| *octet == b',') else {
        return false;
    };
    is_digit_at(line, place.checked_sub(1)) && is_digit_at(line, place.checked_add(1))
}

/// Is there a digit at this place?
fn is_digit_at(line: &[u8], place: Option<usize>) -> bool {
    match place {
        Some(place) => line.get(place).is_some_and(|octet| octet.is_ascii_digit()),
        None => false,
    }
}
