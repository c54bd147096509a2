//! The words of a line.

ghost use Rattle.std.specs.Prelude.{◌≡◌, ◌≢◌, ◌<◌, ◌≤◌, [], ◌∷◌, length, map, slice_get, IfNone};
ghost use Rattle.std.specs.Prelude.{IfOk, IfSome, Some};
ghost use Rattle.forecourt_engines.specs.LineWords.{BeginsNoSpace, is_comment, is_space};
ghost use Rattle.forecourt_engines.specs.LineWords.{words_in};

use site_base::NoMemory;
use std::alloc::Global;

/// Returns the words of a text: what is between its spaces.
pub fn split_words(alloc: Global, text: &[u8]) -> Result<Vec<&[u8]>, NoMemory>
    ensures { IfOk result (λ words. map (λ w. w.now) words.items ≡ words_in text.now) }
{
    let mut words = Vec::new(alloc);
    let mut rest = skip_spaces(text);
    while !rest.is_empty() {
        let (word, behind) = split_word(rest);
        words.push(word)?;
        rest = skip_spaces(behind);
    }
    Ok(words)
}

/// Returns the number of words in a text.
pub fn count_words(text: &[u8]) -> usize
    ensures { result ≡ length (words_in text.now) }
{
    let mut count = 0;
    let mut rest = skip_spaces(text);
    while !rest.is_empty() {
        let (_, behind) = split_word(rest);
        count += 1;
        rest = skip_spaces(behind);
    }
    count
}

/// Returns the word of a text after `others` other words, if there is one.
pub fn find_word(text: &[u8], others: usize) -> Option<&[u8]>
    ensures found { IfSome result (λ word. slice_get (words_in text.now) others ≡ Some word.now) }
    ensures other { IfNone result (length (words_in text.now) ≤ others) }
{
    let mut rest = skip_spaces(text);
    let mut left = others;
    while !rest.is_empty() {
        let (word, behind) = split_word(rest);
        if left == 0 {
            return Some(word);
        }
        left -= 1;
        rest = skip_spaces(behind);
    }
    None
}

/// Does the line have only spaces, or a `#` after them?
pub fn is_comment(line: &[u8]) -> bool
    ensures { result ≡ is_comment line.now }
{
    match skip_spaces(line) {
        [] => true,
        [first, ..] => *first == b'#',
    }
}

/// The text without the spaces in front of it.
fn skip_spaces(text: &[u8]) -> &[u8]
    ensures words { words_in result.now ≡ words_in text.now }
    ensures comment { is_comment result.now ≡ is_comment text.now }
    ensures begins { BeginsNoSpace result.now }
    ensures shorter { length result.now ≤ length text.now }
{
    for at in 0..text.len() {
        if !is_space(text[at]) {
            return text.split_at(at).1;
        }
    }
    &[]
}

/// The first word of a text that begins with one, and what stands behind it.
fn split_word(text: &[u8]) -> (&[u8], &[u8])
    requires some { text.now ≢ [] }
    requires begins { BeginsNoSpace text.now }
    ensures words { words_in text.now ≡ result.0.now ∷ words_in result.1.now }
    ensures shorter { length result.1.now < length text.now }
{
    for at in 0..text.len() {
        if is_space(text[at]) {
            return text.split_at(at);
        }
    }
    (text, &[])
}

/// A space, a tab or a carriage return.
fn is_space(octet: u8) -> bool
    ensures { result ≡ is_space octet }
{
    octet == b' ' || octet == b'\t' || octet == b'\r'
}
