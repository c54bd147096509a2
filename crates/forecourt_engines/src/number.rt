//! Numbers in a text, and where a text is split.

ghost use Rattle.std.specs.Prelude.{◌≡◌, ◌≢◌, ◌≤◌, ◌++◌, ◌∷◌, ℕ, List, decimal, IfSome, IfNone};
ghost use Rattle.std.specs.Prelude.{IsTrue, ◌↔◌};
ghost use Rattle.forecourt_engines.specs.Numbers.{is_signed_or_padded, IsWithout};

use memchr::memchr;
use std::str;

/// Is the text this word?
pub fn is_word(text: &[u8], word: &[u8]) -> bool
    ensures { IsTrue result ↔ (text.now ≡ word.now) }
{
    text == word
}

/// Returns the rest of a text that begins with this word.
pub fn strip_word<'a>(word: &[u8], text: &'a [u8]) -> Option<&'a [u8]>
    ensures found { IfSome result (λ rest. text.now ≡ word.now ++ rest.now) }
    ensures other { IfNone result ((rest : List ℕ) → text.now ≢ word.now ++ rest) }
{
    if text.len() < word.len() {
        return None;
    }
    let (front, rest) = text.split_at(word.len());
    if is_word(front, word) {
        Some(rest)
    } else {
        None
    }
}

/// Returns the number that these digits write, from 0 to `most`, without needless leading zeros.
pub fn number_of(digits: &[u8], most: u64) -> Option<u64>
    ensures written { IfSome result (λ n. (digits.now ≡ decimal n) × (n ≤ most)) }
    ensures other { IfNone result ((n : ℕ) → n ≤ most → digits.now ≢ decimal n) }
{
    let Ok(text) = str::from_utf8(digits) else {
        return None;
    };
    if is_signed_or_padded(digits) {
        return None;
    }
    match text.parse::<u64>() {
        Ok(n) => { if n <= most { Some(n) } else { None } }
        Err(_) => None,
    }
}

/// Does it begin with a plus, or with a zero that isn't all?
fn is_signed_or_padded(digits: &[u8]) -> bool
    ensures { result ≡ is_signed_or_padded digits.now }
{
    match digits {
        [] => false,
        [first] => *first == b'+',
        [first, ..] => *first == b'+' || *first == b'0',
    }
}

/// Returns the number after this word, from `least` to `most`.
pub fn number_behind(word: &[u8], text: &[u8], least: u64, most: u64) -> Option<u64>
    ensures written { IfSome result (λ n.
        (text.now ≡ word.now ++ decimal n) × (least ≤ n) × (n ≤ most)) }
    ensures other { IfNone result ((n : ℕ) → least ≤ n → n ≤ most
        → text.now ≢ word.now ++ decimal n) }
{
    let Some(digits) = strip_word(word, text) else {
        return None;
    };
    let Some(n) = number_of(digits, most) else {
        return None;
    };
    if least <= n { Some(n) } else { None }
}

/// Splits a text at the first of these octets, and returns the parts before and after it; None if
/// there is no such octet.
pub fn split_at_octet(octet: u8, text: &[u8]) -> Option<(&[u8], &[u8])>
    ensures found { IfSome result (λ parts. (text.now ≡ parts.0.now ++ (octet ∷ parts.1.now))
        × IsWithout octet parts.0.now) }
    ensures other { IfNone result (IsWithout octet text.now) }
{
    let place = memchr(octet, text)?;
    let (front, rest) = text.split_at(place);
    Some((front, &rest[1..]))
}
