//! Plain digits, eight octets at a time. The crate `hex` defines what they mean, and reads and
//! writes what is shorter or has spaces.

ghost use Rattle.std.specs.Prelude.{◌≡◌, ◌≤◌, ◌+◌, ◌*◌, ℕ, length, map, true, Ok};
ghost use Rattle.std.specs.Simd.Lanes.{mask_l};
ghost use Rattle.hex.specs.Hex.{decode_of, encode_lower};
ghost use Rattle.hex_lines.specs.declared.plain_digits.TheConstants.{LANES};
ghost use Rattle.hex_lines.specs.SideBySide.{IsRead, IsWritten, digit_of, digit_value};
ghost use Rattle.hex_lines.specs.SideBySide.{high_value, is_other, low_value};

use std::simd::prelude::*;

/// The number of octets that are read or written at a time.
pub const LANES: usize = 8;

/// The lanes of two vectors in turn, as they stand in both of them joined.
const IN_TURN: [usize; 16] = [0, 8, 1, 9, 2, 10, 3, 11, 4, 12, 5, 13, 6, 14, 7, 15];

/// Returns whether the text is plain digits. If it is, their octets fill the place; otherwise the
/// place means nothing.
pub fn read_digits(text: &[u8], place: &mut [u8]) -> bool
    requires twice { length text.now ≡ 2 * length place.old }
    requires long { LANES ≤ length place.old }
    ensures { result ≡ true → decode_of text.now ≡ Ok place.new }
{
    let len = place.len();
    for i in 0..(len - 1) / LANES {
        if !read_eight(text, LANES * i, place) {
            return false;
        }
    }
    // The last eight, some of which may be read.
    read_eight(text, len - LANES, place)
}

/// Reads the digits of the eight octets from a place on. Whether all are digits.
#[inline(always)]
fn read_eight(text: &[u8], at: usize, place: &mut [u8]) -> bool
    requires twice { length text.now ≡ 2 * length place.old }
    requires within { at + LANES ≤ length place.old }
    ensures { result ≡ true → (n : ℕ) → at ≤ n → IsRead text.now place.old n
        → IsRead text.now place.new (at + LANES) }
{
    let values = values_in(u8x16::from_slice(&text[2 * at..]));
    if others_in(values) != 0 {
        return false;
    }
    let (high, low) = values.deinterleave(values);
    let octets = high * u8x16::splat(16) + low;
    octets.extract::<0, LANES>().copy_to_slice(&mut place[at..]);
    true
}

/// A bit for each number that is no digit's value.
#[inline(always)]
fn others_in(values: u8x16) -> u64
    ensures { result ≡ mask_l (map is_other values) }
{
    values.simd_gt(u8x16::splat(15)).to_bitmask()
}

/// The value of each octet that is a digit, and of each other one a number above 15: counted from
/// 9 downwards, and from `a` upwards, no other one comes to less.
#[inline(always)]
fn values_in(octets: u8x16) -> u8x16
    ensures { result ≡ map digit_value octets }
{
    let below_nine = u8x16::splat(b'9') - octets;
    let number = (below_nine.simd_min(u8x16::splat(249)) + u8x16::splat(6)) ^ u8x16::splat(15);
    let above_a = (octets | u8x16::splat(0x20)) - u8x16::splat(b'a');
    let letter = above_a.simd_min(u8x16::splat(245)) + u8x16::splat(10);
    number.simd_min(letter)
}

/// Writes octets as lower case digits. The place has exactly the room for them.
pub fn write_digits(octets: &[u8], place: &mut [u8])
    requires twice { length place.old ≡ 2 * length octets.now }
    requires long { LANES ≤ length octets.now }
    ensures { place.new ≡ encode_lower octets.now }
{
    let len = octets.len();
    for i in 0..(len - 1) / LANES {
        write_eight(octets, LANES * i, place);
    }
    // The last eight, some of which may be written.
    write_eight(octets, len - LANES, place);
}

/// Writes the digits of the eight octets from a place on.
#[inline(always)]
fn write_eight(octets: &[u8], at: usize, place: &mut [u8])
    requires twice { length place.old ≡ 2 * length octets.now }
    requires within { at + LANES ≤ length octets.now }
    ensures { (n : ℕ) → at ≤ n → IsWritten octets.now place.old n
        → IsWritten octets.now place.new (at + LANES) }
{
    let loaded = u8x8::from_slice(&octets[at..]);
    let values = high_values(loaded).shuffle(low_values(loaded), IN_TURN);
    digits_of(values).copy_to_slice(&mut place[2 * at..]);
}

/// The value of the first digit of each octet.
#[inline(always)]
fn high_values(octets: u8x8) -> u8x8
    ensures { result ≡ map high_value octets }
{
    octets >> u8x8::splat(4)
}

/// The value of the second digit of each octet.
#[inline(always)]
fn low_values(octets: u8x8) -> u8x8
    ensures { result ≡ map low_value octets }
{
    octets & u8x8::splat(15)
}

/// The digit of each value.
#[inline(always)]
fn digits_of(values: u8x16) -> u8x16
    ensures { result ≡ map digit_of values }
{
    let is_letter = values.simd_gt(u8x16::splat(9));
    values + u8x16::splat(b'0') + is_letter.select(u8x16::splat(39), u8x16::splat(0))
}
