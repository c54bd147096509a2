//! The time of a round, as a history writes it.

ghost use Rattle.std.specs.Prelude.{◌≡◌, length, true};
ghost use Rattle.stamps.specs.Stamps.{are_formed, as_stamp, is_before, is_formed, is_later};
ghost use Rattle.stamps.specs.Stamps.{is_stamp};
ghost use Rattle.stamps.specs.Stamps.{later, stamp_in, time_after};

use jiff::Timestamp;
use std::alloc::{AllocError, Global};
use std::marker::Model;

/// The form of a stamp; a digit stands for any one up to it.
const STAMP_FORM: &[u8; 24] = b"9999-19-39T29:59:59.999Z";

/// The beginning of a stamp's line.
pub const AT_MARK: &[u8] = b"# at ";

/// A time, UTC in milliseconds, in RFC 3339: 24 octets. Their order is that of the times.
#[derive(Clone, Copy, Debug, PartialEq, Eq)]
pub struct Stamp {
    octets: [u8; 24],
}

impl Model for Stamp {
    ghost use Rattle.std.specs.Prelude.{◌≡◌, ℕ, List, true};
    ghost use Rattle.stamps.specs.Stamps.{is_stamp};

    ghost Value = { List ℕ };

    ghost view = { λ s. s.octets };

    ghost invariant = { λ s. is_stamp s.octets ≡ true };

    ghost inverse = { λ octets. record { octets = octets } };
}

impl Stamp {
    /// Returns these octets as a stamp, if they have the form of one.
    pub fn parse(octets: &[u8]) -> Option<Stamp>
        ensures { result ≡ as_stamp octets.now }
    {
        if !are_formed(STAMP_FORM, octets) {
            return None;
        }
        match <[u8; 24]>::try_from(octets) {
            Ok(octets) => Some(Stamp { octets }),
            Err(_) => unreachable!(),
        }
    }

    /// This time, its milliseconds cut; None where its year isn't one of four digits.
    pub(crate) fn of_time(alloc: Global, time: Timestamp) -> Result<Option<Stamp>, AllocError> {
        match time.strftime(alloc, "%Y-%m-%dT%H:%M:%S.%3fZ") {
            Ok(text) => Ok(Stamp::parse(text.as_bytes())),
            // The form is right.
            Err(_) => Err(AllocError),
        }
    }

    /// Returns its octets.
    pub fn as_octets(&self) -> &[u8]
        ensures octets { result.now ≡ self.now }
        ensures form { is_stamp self.now ≡ true }
    {
        &self.octets
    }

    /// Returns its octets as text.
    pub fn as_str(&self) -> &str
        ensures text { result.now ≡ self.now }
        ensures form { is_stamp self.now ≡ true }
    {
        match str::from_utf8(&self.octets) {
            Ok(text) => text,
            Err(_) => unreachable!(),
        }
    }

    /// Is it before the other one?
    pub fn is_before(&self, other: &Stamp) -> bool
        ensures { result ≡ is_before self.now other.now }
    {
        are_before(&self.octets, &other.octets)
    }
}

/// Returns the time on a line, if it has one.
pub fn stamp_in(line: &[u8]) -> Option<Stamp>
    ensures { result ≡ stamp_in line.now }
{
    if line.starts_with(AT_MARK) {
        Stamp::parse(&line[AT_MARK.len()..])
    } else {
        None
    }
}

/// Is the time later than the last one, if there is one?
pub fn is_later(last: Option<Stamp>, time: &Stamp) -> bool
    ensures { result ≡ is_later last time.now }
{
    match last {
        None => true,
        Some(last) => last.is_before(time),
    }
}

/// Returns the later of the last time, if there is one, and this one.
pub fn later(last: Option<Stamp>, time: Stamp) -> Option<Stamp>
    ensures { result ≡ later last time }
{
    match last {
        None => Some(time),
        Some(last) => {
            if last.is_before(&time) {
                Some(time)
            } else {
                Some(last)
            }
        }
    }
}

/// Returns the time after a line, where `last` is the last time before it. Times never fall.
pub fn time_after(line: &[u8], last: Option<Stamp>) -> Option<Stamp>
    ensures { result ≡ time_after line.now last }
{
    match stamp_in(line) {
        None => last,
        Some(time) => later(last, time),
    }
}

/// Are the first octets before the others in their order?
fn are_before(first: &[u8], others: &[u8]) -> bool
    ensures { result ≡ is_before first.now others.now }
{
    match (first.split_first(), others.split_first()) {
        (_, None) => false,
        (None, Some(_)) => true,
        (Some((octet, first)), Some((other, others))) => {
            if *octet == *other {
                are_before(first, others)
            } else {
                *octet < *other
            }
        }
    }
}

/// Have the octets this form?
fn are_formed(form: &[u8], octets: &[u8]) -> bool
    ensures formed { result ≡ are_formed form.now octets.now }
    ensures size { result ≡ true → length octets.now ≡ length form.now }
{
    match (form.split_first(), octets.split_first()) {
        (None, None) => true,
        (Some((shape, form)), Some((octet, octets))) => {
            is_formed(*shape, *octet) && are_formed(form, octets)
        }
        _ => false,
    }
}

/// Is the octet one that the form allows here?
fn is_formed(form: u8, octet: u8) -> bool
    ensures { result ≡ is_formed form octet }
{
    if form.is_ascii_digit() {
        b'0' <= octet && octet <= form
    } else {
        octet == form
    }
}
