//! Words by their places in a line, counted from 1.

ghost use Rattle.std.specs.Prelude.{◌≡◌, ◌≢◌, ◌≤◌, ◌∷◌, [], length, map, slice_get, IfNone};
ghost use Rattle.std.specs.Prelude.{IfOk, IfSome, OnErr, OnOk, Some};
ghost use Rattle.forecourt_engines.specs.LineWords.{line_words};

use crate::number::split_at_octet;
use crate::words::splitting::{count_words, find_word};
use crate::words::wrong_word::{Wanted, WrongWord};

/// Returns the first word, which is at this place in its line, and the words after it.
pub fn split_first<'w, 'a>(
    words: &'w [&'a [u8]],
    place: usize,
    wanted: Wanted,
) -> Result<(&'a [u8], &'w [&'a [u8]]), WrongWord>
    ensures found { IfOk result (λ parts.
        map (λ w. w.now) words.now ≡ parts.0.now ∷ map (λ w. w.now) parts.1.now) }
    ensures other { OnErr result (map (λ w. w.now) words.now ≡ []) }
{
    match words.split_first() {
        Some((first, rest)) => Ok((*first, rest)),
        None => Err(WrongWord::new(place, wanted)),
    }
}

/// Checks that no word is left, at this place of a line.
pub fn expect_end(words: &[&[u8]], place: usize) -> Result<(), WrongWord>
    ensures found { OnOk result (map (λ w. w.now) words.now ≡ []) }
    ensures other { OnErr result (map (λ w. w.now) words.now ≢ []) }
{
    if words.is_empty() {
        return Ok(());
    }
    Err(WrongWord::new(place, Wanted::Nothing))
}

/// Returns the word of a line after `others` other words, if there is one. Words are separated by
/// spaces, and by the first comma.
pub fn word_behind(line: &[u8], others: usize) -> Option<&[u8]>
    ensures found { IfSome result (λ word. slice_get (line_words line.now) others ≡ Some word.now) }
    ensures other { IfNone result (length (line_words line.now) ≤ others) }
{
    let Some((front, back)) = split_at_octet(b',', line) else {
        return find_word(line, others);
    };
    let in_front = count_words(front);
    if others < in_front {
        return find_word(front, others);
    }
    find_word(back, others - in_front)
}
